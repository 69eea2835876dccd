//! Classes of pairs of states.

ghost use Rattle.std.specs.Prelude.{◌≡◌, ◌<◌, ◌+◌, ℕ, List, [], length, Some, All, IfOk, OnOk, slice_get};
ghost use Rattle.gta_product.specs.Numbers.{Extends};
ghost use Rattle.gta_product.specs.Classes.{Notes, IsKeyed};

use crate::numbering::Numbering;
use bdd_walk::NoMemory;
use plain_data::Items;
use std::alloc::Global;

/// The classes of pairs that come, as far as they were looked at.
#[derive(Drop)]
pub(crate) struct Classes {
    /// For each class the classes of both states.
    keys: Numbering,
    /// The class of each pair, in order.
    pub(crate) of: Items<u32>,
    /// For each class the first pair that has it.
    pub(crate) ones: Items<(u32, u32)>,
}

impl Classes {
    /// Of no pairs, with room for so many and for so many classes.
    pub(crate) fn new(alloc: Global, pairs: usize, classes: usize) -> Result<Classes, NoMemory>
        ensures keys { IfOk result (λ made. made.keys ≡ []) }
        ensures of { IfOk result (λ made. made.of ≡ []) }
        ensures ones { IfOk result (λ made. made.ones ≡ []) }
    {
        let keys = Numbering::new(alloc, classes)?;
        let of = Items::from_vec(Vec::with_capacity(alloc, pairs)?);
        let ones = Items::from_vec(Vec::with_capacity(alloc, classes)?);
        Ok(Classes { keys, of, ones })
    }

    /// Looks at the pairs that have come, by the classes of their first states and of their second states.
    pub(crate) fn look(
        &mut self,
        pairs: &[(u32, u32)],
        left: &[u32],
        right: &[u32],
    ) -> Result<(), NoMemory>
        requires inside { All (λ pair. (pair.0 < length left.now) × (pair.1 < length right.now)) pairs.now }
        requires keyed { IsKeyed pairs.now left.now right.now self.old }
        ensures keyed { OnOk result (IsKeyed pairs.now left.now right.now self.new) }
        ensures all { OnOk result (length self.new.of ≡ length pairs.now) }
        ensures ones { OnOk result (Extends self.old.ones self.new.ones) }
    {
        for k in self.of.len()..pairs.len() {
            let pair = pairs[k];
            self.add(pair, left, right)?;
        }
        Ok(())
    }

    /// Gives the next pair its class, for which it stands if the class is new.
    fn add(&mut self, pair: (u32, u32), left: &[u32], right: &[u32]) -> Result<(), NoMemory>
        requires { (pair.0 < length left.now) × (pair.1 < length right.now) }
        ensures more { OnOk result (length self.new.of ≡ length self.old.of + 1) }
        ensures ones { OnOk result (Extends self.old.ones self.new.ones) }
        ensures keyed { OnOk result ((list : List (ℕ × ℕ)) → slice_get list (length self.old.of) ≡ Some pair →
            IsKeyed list left.now right.now self.old → IsKeyed list left.now right.now self.new) }
    {
        let key = (left[pair.0 as usize], right[pair.1 as usize]);
        let class = self.keys.number(key)?;
        note(&mut self.ones, class, pair)?;
        self.of.push(class)?;
        Ok(())
    }
}

/// Lets the pair stand for the class, if that is new.
fn note(ones: &mut Items<(u32, u32)>, class: u32, pair: (u32, u32)) -> Result<(), NoMemory>
    ensures { OnOk result (Notes class pair ones.old ones.new) }
{
    if class as usize == ones.len() {
        ones.push(pair)?;
    }
    Ok(())
}
