//! Classes of states that are split.

ghost use Rattle.std.specs.Prelude.{◌≡◌, ◌≤◌, ◌<◌, ◌^◌, ℕ, true, false, length, slice_index, IfOk};
ghost use Rattle.gta_classes.specs.Classes.{AreClasses, IsSplit};
ghost use Rattle.gta_classes.specs.Splitting.{IsStep};

use crate::part::NumberList;
use std::alloc::{AllocError, Global};
use std::collections::HashMap;

/// The most classes that a space may have.
const MOST_CLASSES: usize = 1 << 31;

/// The number of the next class. Past the last one: want of memory.
fn next_class(representatives: &NumberList) -> Result<u32, AllocError>
    ensures class { IfOk result (λ class. class ≡ length representatives.now) }
    ensures small { IfOk result (λ class. class < 2 ^ 31) }
{
    if representatives.len() >= MOST_CLASSES {
        return Err(AllocError);
    }
    Ok(representatives.len() as u32)
}

/// The class of a state once its class is split: the representative of the class keeps it, and with it the states that
/// have its number.
pub(crate) fn class_of(
    made: &mut HashMap<(u32, u32), u32>,
    representatives: &mut NumberList,
    ids: &[u32],
    state: u32,
    class: u32,
) -> Result<u32, AllocError>
    requires class { class < length representatives.old }
    requires state { state < length ids.now }
    requires first { slice_index representatives.old class < length ids.now }
    ensures { IfOk result (IsStep ids.now state class made.old representatives.old made.new representatives.new) }
{
    let id = ids[state as usize];
    let first = representatives.as_slice()[class as usize];
    if id == ids[first as usize] {
        return Ok(class);
    }
    if let Some(other) = made.get(&(class, id)) {
        return Ok(*other);
    }
    let other = next_class(representatives)?;
    representatives.push(state)?;
    made.insert((class, id), other)?;
    Ok(other)
}

/// Splits classes of reached states by the numbers of the states, and says whether there are more classes now.
pub fn split(
    alloc: Global,
    reached: &[bool],
    ids: &[u32],
    classes: &mut NumberList,
    representatives: &mut NumberList,
) -> Result<bool, AllocError>
    requires classes { AreClasses reached.now classes.old representatives.old }
    requires many { length reached.now ≤ length ids.now }
    requires few { length reached.now ≤ 2 ^ 31 }
    ensures classes { IfOk result (λ more. AreClasses reached.now classes.new representatives.new) }
    ensures split { IfOk result (λ more. IsSplit reached.now ids.now classes.old classes.new) }
    ensures unchanged { IfOk result (λ more. more ≡ false
        → (classes.new ≡ classes.old) × (representatives.new ≡ representatives.old)) }
    ensures more { IfOk result (λ more. more ≡ true → length representatives.old < length representatives.new) }
{
    let before = representatives.len();
    let mut made = HashMap::new(alloc);
    for state in 0..reached.len() {
        if reached[state] {
            let class = classes.as_slice()[state];
            let class = class_of(&mut made, representatives, ids, state as u32, class)?;
            classes.set(state, class);
        }
    }
    Ok(representatives.len() != before)
}
