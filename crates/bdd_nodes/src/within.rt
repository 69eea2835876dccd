//! What takes no memory, since there is room.

ghost use Rattle.std.specs.Prelude.{◌≡◌, ◌<◌, ◌≤◌, [], ◌∷◌, ◌++◌, vec_len, vec_capacity, replicate};

/// Puts the item at the end, where there is room.
#[inline(always)]
pub(crate) fn push_within<T: Copy>(items: &mut Vec<T>, item: T)
    requires { vec_len items.old < vec_capacity items.old }
    ensures items { items.new.items ≡ items.old.items ++ item ∷ [] }
    ensures room { vec_capacity items.old ≤ vec_capacity items.new }
{
    let _ = items.push(item);
}

/// So many zeros alone, where there is room.
pub(crate) fn zeros_within(numbers: &mut Vec<u32>, count: usize)
    requires { count ≤ vec_capacity numbers.old }
    ensures zeros { numbers.new.items ≡ replicate count 0 }
    ensures room { vec_capacity numbers.old ≤ vec_capacity numbers.new }
{
    numbers.clear();
    let _ = numbers.resize(count, 0);
}
