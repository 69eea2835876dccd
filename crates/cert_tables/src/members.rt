//! Sets of numbers as rising lists.

ghost use Rattle.std.specs.Prelude.{◌↔◌, ℕ, Contains};
ghost use Rattle.std.specs.List.Sorted.{IsStrictlyIncreasing};

/// The numbers of a list, rising, each once.
pub(crate) fn rising(numbers: Vec<u32>) -> Vec<u32>
    ensures rising { IsStrictlyIncreasing result.items }
    ensures same { (q : ℕ) → Contains result.items q ↔ Contains numbers.items q }
{
    let mut set = numbers;
    set.sort_unstable();
    set.dedup();
    set
}
