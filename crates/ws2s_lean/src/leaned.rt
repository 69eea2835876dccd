//! What formulas were refolded to.

ghost use Rattle.std.specs.Prelude.{List, OnOk, IfSome};
ghost use Rattle.ws2s_core.specs.declared.formula.Formula.{Formula};
ghost use Rattle.ws2s_lean.specs.Conjunctions.{IsThere, IsLeaned, AreLeaned};

use std::alloc::{AllocError, Global};
use std::collections::HashMap;
use ws2s_core::FormulaId;

/// A formula, and what it was refolded to.
#[derive(Clone, Copy, Debug)]
pub(crate) struct Leaning {
    pub(crate) from: FormulaId,
    pub(crate) to: FormulaId,
}

/// What formulas were refolded to, found by the formula.
#[derive(Drop)]
pub(crate) struct Leaned {
    pub(crate) made: Vec<Leaning>,
    /// Where that of a formula stands.
    places: HashMap<FormulaId, usize>,
}

impl Leaned {
    /// None was. Takes no memory.
    pub(crate) fn new(alloc: Global) -> Leaned
        ensures { (formulas : List Formula) → AreLeaned formulas result.made.items }
    {
        Leaned {
            made: Vec::new(alloc),
            places: HashMap::new(alloc),
        }
    }

    /// What the formula was refolded to.
    fn get(&self, id: FormulaId) -> Option<FormulaId>
        ensures { IfSome result (λ to. (formulas : List Formula) → AreLeaned formulas self.now.made.items → IsLeaned formulas id to) }
    {
        let number = *self.places.get(&id)?;
        let found = self.made.get(number)?;
        if found.from == id {
            return Some(found.to);
        }
        None
    }

    /// What the formula was refolded to, or the formula itself.
    pub(crate) fn to(&self, id: FormulaId) -> FormulaId
        ensures { (formulas : List Formula) → AreLeaned formulas self.now.made.items → IsThere formulas id → IsLeaned formulas id result }
    {
        match self.get(id) {
            Some(to) => to,
            None => id,
        }
    }

    /// Keeps what a formula was refolded to.
    pub(crate) fn add(&mut self, from: FormulaId, to: FormulaId) -> Result<(), AllocError>
        ensures { OnOk result ((formulas : List Formula) → AreLeaned formulas self.old.made.items → IsLeaned formulas from to →
            AreLeaned formulas self.new.made.items) }
    {
        self.places.insert(from, self.made.len())?;
        self.made.push(Leaning { from, to })?;
        Ok(())
    }
}
