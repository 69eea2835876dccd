//! Short lists of states: a set has the same roots as a list with one of its states for each class that they have.

ghost use Rattle.std.specs.Prelude.{◌≡◌, ℕ, Contains, IfOk, OnOk, slice_get};
ghost use Rattle.gta_subsets.specs.Classes.{HaveClasses};
ghost use Rattle.gta_subsets.specs.Shorts.{rows_in, columns_in, AreShorts, IsShortStep};

use bdd_walk::{NoMemory, StateList};
use gta_core::Auto;
use plain_data::{Items, at};
use std::alloc::{AllocError, Global};
use std::collections::HashSet;

/// The class of each state of the left child of a space, and of the right one. None for an unknown space.
pub fn classes_in(a: &Auto, space: u32) -> (&[u32], &[u32])
    ensures rows { result.0.now ≡ rows_in a.now space }
    ensures columns { result.1.now ≡ columns_in a.now space }
{
    match a.parts().get(space as usize) {
        Some(part) => (part.rows.as_slice(), part.columns.as_slice()),
        None => (&[], &[]),
    }
}

/// A short list for each set.
pub fn shortened(
    alloc: Global,
    sets: &[StateList],
    classes: &[u32],
) -> Result<Items<StateList>, NoMemory>
    ensures { IfOk result (AreShorts classes.now sets.now) }
{
    let mut shorts = Items::new(alloc);
    for set in sets {
        shorts.push(one_a_class(alloc, set.as_slice(), classes)?)?;
    }
    Ok(shorts)
}

/// The states of a set that are the first of their class, by the class of each state.
pub fn one_a_class(alloc: Global, set: &[u32], classes: &[u32]) -> Result<StateList, NoMemory>
    ensures classes { IfOk result (HaveClasses classes.now set.now) }
    ensures inside { IfOk result (λ short. (q : ℕ) → Contains short q → Contains set.now q) }
{
    if set.len() < 2 {
        let same = StateList::from_slice(alloc, set)?;
        return Ok(same);
    }
    let mut seen = HashSet::new(alloc);
    let mut short = Items::new(alloc);
    for state in set {
        note_state(&mut seen, &mut short, classes, *state)?;
    }
    Ok(short)
}

/// Puts the state at the end where its class wasn't seen yet. A state with no class is put there too.
fn note_state(
    seen: &mut HashSet<u32>,
    short: &mut StateList,
    classes: &[u32],
    state: u32,
) -> Result<(), AllocError>
    ensures { OnOk result (IsShortStep (slice_get classes.now state) state seen.old short.old seen.new short.new) }
{
    let Some(class) = at(classes, state as usize) else {
        return short.push(state);
    };
    if seen.contains(class) {
        return Ok(());
    }
    seen.insert(*class)?;
    short.push(state)
}
