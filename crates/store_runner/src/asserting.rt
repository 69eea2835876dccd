//! Whether an `assert` stands in code.

ghost use Rattle.std.specs.Prelude.{◌≡◌, ◌||◌, ◌+◌, ◌≤◌, ◌<◌, ◌∷◌, IfSome};
ghost use Rattle.store_exec.specs.Acting as acting;
ghost use Rattle.store_exec.specs.Acting.{acts_of, acts_of_item, acts_of_items, have_assert, code_count};
ghost use Rattle.store_exec.specs.Going.{weight_of_items};

use store_exec::{Code, Item, Tail};
use store_logic::Act;

/// Whether an `assert` stands in the code, in whichever of its parts.
///
/// Takes no memory, and of the stack at most 65 levels for the branches and 65 for the plain ifs, however many stand within one
/// another: of the two codes of a branch the simpler one is looked through by a call, and the other one by going on; and the same
/// of the two lists of a plain `if` and what stands behind it, of which two are looked through by calls. The time is linear in the
/// length of the code where all but one of these parts are short at most branches and ifs.
pub fn has_assert(code: &Code) -> bool
    ensures { result ≡ have_assert (acts_of code.now) }
{
    match find_within(code, 64) {
        Some(found) => found,
        // Such a code has more branches than any memory holds.
        None => find(code),
    }
}

/// The same, by this many calls within one another at most. `None` where they are too few.
#[cycle(finding)]
fn find_within(code: &Code, calls: u32) -> Option<bool>
    ensures { IfSome result (λ found. found ≡ have_assert (acts_of code.now)) }
{
    let mut rest = code;
    loop {
        if stands_in_items(rest.items.as_slice()) {
            return Some(true);
        }
        match &rest.tail {
            Tail::Cut(_) => return Some(false),
            Tail::Branch(_, _, taken, other) => {
                let (found, next) = find_in_simpler(taken.get(), other.get(), calls)?;
                if found {
                    return Some(true);
                }
                rest = next;
            }
        }
    }
}

/// Whether an `assert` stands in the one of two codes that fewer calls are enough for, and the other code.
#[cycle(finding)]
fn find_in_simpler<'a>(taken: &'a Code, other: &'a Code, calls: u32) -> Option<(bool, &'a Code)>
    ensures found { IfSome result (λ found. (found.0 || have_assert (acts_of found.1.now))
        ≡ (have_assert (acts_of taken.now) || have_assert (acts_of other.now))) }
    ensures less { IfSome result (λ found. code_count found.1.now ≤ code_count taken.now + code_count other.now) }
{
    for fewer in 0..calls {
        if let Some(found) = find_within(taken, fewer) {
            return Some((found, other));
        }
        if let Some(found) = find_within(other, fewer) {
            return Some((found, taken));
        }
    }
    None
}

/// The same as `has_assert`, by a call for each branch within another.
fn find(code: &Code) -> bool
    ensures { result ≡ have_assert (acts_of code.now) }
{
    if stands_in_items(code.items.as_slice()) {
        return true;
    }
    match &code.tail {
        Tail::Cut(_) => false,
        Tail::Branch(_, _, taken, other) => find(taken.get()) || find(other.get()),
    }
}

/// Whether an `assert` stands in the items.
fn stands_in_items(items: &[Item]) -> bool
    ensures { result ≡ have_assert (acts_of_items items.now) }
{
    match stands_within(items, 64) {
        Some(found) => found,
        // Such items have more ifs than any memory holds.
        None => find_in_items(items),
    }
}

/// The same, by this many calls within one another at most. `None` where they are too few.
#[cycle(standing)]
fn stands_within(items: &[Item], calls: u32) -> Option<bool>
    ensures { IfSome result (λ found. found ≡ have_assert (acts_of_items items.now)) }
{
    let mut rest = items;
    while let Some((item, more)) = rest.split_first() {
        let (found, next) = stands_in_first(item, more, calls)?;
        if found {
            return Some(true);
        }
        rest = next;
    }
    Some(false)
}

/// Whether an `assert` stands in an act, or in two of the parts that an `if` and the items behind it are; and the items that are
/// left to be looked through.
#[cycle(standing)]
fn stands_in_first<'a>(item: &'a Item, more: &'a [Item], calls: u32) -> Option<(bool, &'a [Item])>
    ensures found { IfSome result (λ found. (found.0 || have_assert (acts_of_items found.1.now)) ≡ have_assert (acts_of_items (item.now ∷ more.now))) }
    ensures less { IfSome result (λ found. weight_of_items found.1.now < weight_of_items (item.now ∷ more.now)) }
{
    match item {
        Item::Do(_, act) => Some((is_assert(act), more)),
        Item::If(_, _, taken, other) => {
            let (found, left) = stands_in_simpler(taken.as_slice(), other.as_slice(), calls)?;
            if found {
                return Some((true, more));
            }
            stands_in_simpler(left, more, calls)
        }
    }
}

/// Whether an `assert` stands in the one of two lists that fewer calls are enough for, and the other list.
#[cycle(standing)]
fn stands_in_simpler<'a>(
    one: &'a [Item],
    other: &'a [Item],
    calls: u32,
) -> Option<(bool, &'a [Item])>
    ensures found { IfSome result (λ found. (found.0 || have_assert (acts_of_items found.1.now))
        ≡ (have_assert (acts_of_items one.now) || have_assert (acts_of_items other.now))) }
    ensures less { IfSome result (λ found. weight_of_items found.1.now ≤ weight_of_items one.now + weight_of_items other.now) }
{
    for fewer in 0..calls {
        if let Some(found) = stands_within(one, fewer) {
            return Some((found, other));
        }
        if let Some(found) = stands_within(other, fewer) {
            return Some((found, one));
        }
    }
    None
}

/// The same as `stands_in_items`, by a call for each `if` within another.
#[cycle(items)]
fn find_in_items(items: &[Item]) -> bool
    ensures { result ≡ have_assert (acts_of_items items.now) }
{
    for item in items {
        if find_in_item(item) {
            return true;
        }
    }
    false
}

#[cycle(items)]
fn find_in_item(item: &Item) -> bool
    ensures { result ≡ have_assert (acts_of_item item.now) }
{
    match item {
        Item::Do(_, act) => is_assert(act),
        Item::If(_, _, taken, other) => {
            find_in_items(taken.as_slice()) || find_in_items(other.as_slice())
        }
    }
}

fn is_assert(act: &Act) -> bool
    ensures { result ≡ acting.is_assert act.now }
{
    matches!(act, Act::Assert(_))
}
