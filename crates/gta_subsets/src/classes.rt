//! Classes of sets of states.

ghost use Rattle.std.specs.Prelude.{◌≡◌, ◌<◌, ◌≤◌, ◌^◌, ℕ, List, length, map, Some, All, IfOk, OnOk, slice_get, slice_index};
ghost use Rattle.gta_subsets.specs.Classes.{AreClasses, Notes, classes_of};

use crate::numbering::Numbering;
use bdd_walk::{NoMemory, StateList, set_of};
use plain_data::Items;
use std::alloc::Global;

/// The class of each set, in order, and for each class the first set that has it.
#[derive(Drop)]
pub struct Classes {
    pub of: Items<u32>,
    pub ones: Items<StateList>,
}

/// The classes of sets, by the classes of states.
pub fn classify(alloc: Global, sets: &Numbering, states: &[u32]) -> Result<Classes, NoMemory>
    requires { (k : ℕ) (set : List ℕ) → slice_get sets.now k ≡ Some set → All (λ q. q < length states.now) set }
    ensures classes { IfOk result (AreClasses sets.now states.now) }
    ensures few { IfOk result (λ classes. length classes.ones ≤ 2 ^ 31) }
{
    let mut keys = Numbering::new(alloc, usize::MAX);
    let mut of = Items::new(alloc);
    let mut ones = Items::new(alloc);
    for k in 0..sets.len() {
        let set = sets.set(k);
        let key = key_of(alloc, set, states)?;
        let class = keys.number(key)?;
        note(alloc, &mut ones, class, set)?;
        of.push(class)?;
    }
    Ok(Classes { of, ones })
}

/// The set of the classes of a set.
pub fn key_of(alloc: Global, set: &[u32], states: &[u32]) -> Result<Vec<u32>, NoMemory>
    requires { All (λ q. q < length states.now) set.now }
    ensures { IfOk result (λ key. key.items ≡ classes_of states.now set.now) }
{
    let mut classes = Items::new(alloc);
    for state in set {
        classes.push(states[*state as usize])?;
    }
    let key = set_of(alloc, classes.as_slice())?;
    Ok(key)
}

/// Lets the set stand for the class, if that is new.
pub fn note(
    alloc: Global,
    ones: &mut Items<StateList>,
    class: u32,
    set: &[u32],
) -> Result<(), NoMemory>
    ensures { OnOk result (Notes class set.now ones.old ones.new) }
{
    if class as usize == ones.len() {
        ones.push(Items::from_slice(alloc, set)?)?;
    }
    Ok(())
}
