//! Lists of passes, and all passes one after the other.

ghost use Rattle.std.specs.Prelude.{◌≡◌, [], ◌∷◌, ◌++◌, Ok, IfOk, OnOk, OnErr};
ghost use Rattle.ws2s_pass.specs.Applying.{LeadsTo};
ghost use Rattle.ws2s_pass.specs.Rewriting.{IsRewriting};

use crate::pass::{Pass, Rewriter};
use std::alloc::{AllocError, Global};
use ws2s_core::Formula;

/// Passes, in the order in which they were added.
#[derive(Drop)]
pub struct PassList {
    passes: Vec<Pass>,
}

impl PassList {
    /// A list without passes. Takes no memory.
    pub fn new(alloc: Global) -> PassList
        ensures { result.passes.items ≡ [] }
    {
        PassList {
            passes: Vec::new(alloc),
        }
    }

    /// Puts a pass at the end.
    ///
    /// # Errors
    ///
    /// Want of memory; the list is then as it was, and the pass is dropped.
    pub fn add(&mut self, pass: Pass) -> Result<(), AllocError>
        ensures value { OnOk result (self.new.passes.items ≡ self.old.passes.items ++ pass ∷ []) }
        ensures err { OnErr result (self.new.passes.items ≡ self.old.passes.items) }
    {
        self.passes.push(pass)?;
        Ok(())
    }
}

/// What all passes make of a formula, one after the other, in their order.
///
/// # Errors
///
/// Want of memory.
pub fn apply(alloc: Global, passes: &PassList, formula: &Formula) -> Result<Formula, AllocError>
    ensures kept { IfOk result (λ made. IsRewriting formula.now made) }
    ensures order { IfOk result (λ made. LeadsTo (λ pass before after. (f : _) × Rewriter.post pass.run alloc f (Ok after) × (f.now ≡ before))
        passes.now.passes.items formula.now made) }
{
    let mut made = formula.copy(alloc)?;
    for pass in passes.passes.as_slice() {
        made = pass.answer(alloc, &made)?;
    }
    Ok(made)
}
