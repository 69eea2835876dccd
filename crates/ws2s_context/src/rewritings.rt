//! What formulas were rewritten to, each in its context.

ghost use Rattle.std.specs.Prelude.{◌≡◌, All, List, OnOk, IfSome};
ghost use Rattle.ws2s_core.specs.declared.formula.Formula.{Formula};
ghost use Rattle.ws2s_context.specs.Going.{IsPlace, IsSame, IsRewriting};

use crate::task::Place;
use std::alloc::{AllocError, Global};
use std::collections::HashMap;
use ws2s_core::FormulaId;

/// A formula in a context, and what it was rewritten to.
#[derive(Clone, Copy, Debug)]
pub(crate) struct Rewriting {
    pub(crate) place: Place,
    pub(crate) to: FormulaId,
}

/// Rewritings, found by the formula and its context.
#[derive(Drop)]
pub(crate) struct Rewritings {
    pub(crate) made: Vec<Rewriting>,
    /// Where the rewriting of a formula in a context stands.
    places: HashMap<Place, usize>,
}

impl Rewritings {
    /// No rewritings. Takes no memory.
    pub(crate) fn new(alloc: Global) -> Rewritings
        ensures { (formulas : List Formula) → All (IsRewriting formulas) result.made.items }
    {
        Rewritings {
            made: Vec::new(alloc),
            places: HashMap::new(alloc),
        }
    }

    /// What the formula was rewritten to in the context.
    pub(crate) fn get(&self, place: Place) -> Option<FormulaId>
        ensures { IfSome result (λ to. (formulas : List Formula) → All (IsRewriting formulas) self.now.made.items → IsSame formulas place to) }
    {
        let number = *self.places.get(&place)?;
        let found = self.made.get(number)?;
        if found.place == place {
            return Some(found.to);
        }
        None
    }

    /// What the formula was rewritten to in the context, or the formula itself.
    pub(crate) fn to(&self, place: Place) -> FormulaId
        ensures { (formulas : List Formula) → All (IsRewriting formulas) self.now.made.items → IsPlace formulas place →
            IsSame formulas place result }
    {
        match self.get(place) {
            Some(to) => to,
            None => place.id,
        }
    }

    /// Keeps a rewriting.
    pub(crate) fn add(&mut self, place: Place, to: FormulaId) -> Result<(), AllocError>
        ensures { OnOk result ((formulas : List Formula) → All (IsRewriting formulas) self.old.made.items → IsSame formulas place to →
            All (IsRewriting formulas) self.new.made.items) }
    {
        self.places.insert(place, self.made.len())?;
        self.made.push(Rewriting { place, to })?;
        Ok(())
    }
}
