//! Passes, and lists of them.

ghost use Rattle.std.specs.Prelude.{◌≡◌, [], ◌∷◌, ◌++◌, Ok, IfOk, OnOk, OnErr};
ghost use Rattle.ws2s_core.specs.declared.formula.Formula.{Formula};
ghost use Rattle.ws2s_pass.specs.Rewriting.{IsRewriting};

use plain_data::Items;
use std::alloc::{AllocError, Global};
use ws2s_core::Formula;

/// The name of a pass, as bytes.
#[derive(Debug, Drop)]
pub struct PassName(pub Items<u8>);

/// What a pass runs.
pub type Rewriter = Box<dyn Fn(Global, &Formula) -> Result<Formula, AllocError>>;

/// A rewriter that may be called on every formula, and whose answer has the same satisfying assignments, no new free track
/// and no greater size.
#[derive(Drop)]
pub struct Pass {
    name: PassName,
    run: Rewriter,
    ghost callable: { Rewriter.IsAlwaysCallable run },
    ghost rewrites: { ∥ ((alloc : _) (f : _) (g : Formula) → Rewriter.post run alloc f (Ok g) → IsRewriting f.now g) ∥₁ },
}

impl Pass {
    /// A pass. Takes no memory.
    pub fn new(name: PassName, run: Rewriter) -> Pass
        requires callable { Rewriter.IsAlwaysCallable run }
        requires rewrites { (alloc : _) (f : _) (g : Formula) → Rewriter.post run alloc f (Ok g) → IsRewriting f.now g }
        ensures name { result.name ≡ name }
        ensures run { result.run ≡ run }
    {
        Pass { name, run }
    }

    /// The name. Takes no memory.
    pub fn name(&self) -> &PassName
        ensures { result.now ≡ self.now.name }
    {
        &self.name
    }

    /// What the closure makes of a formula.
    fn call(&self, alloc: Global, formula: &Formula) -> Result<Formula, AllocError>
        ensures { Rewriter.post self.now.run alloc formula.entry result }
    {
        (self.run)(alloc, formula)
    }

    /// What the pass makes of a formula.
    pub(crate) fn answer(&self, alloc: Global, formula: &Formula) -> Result<Formula, AllocError>
        ensures kept { IfOk result (λ made. IsRewriting formula.now made) }
        ensures answer { Rewriter.post self.now.run alloc formula.entry result }
    {
        let made = self.call(alloc, formula)?;
        Ok(made)
    }
}
