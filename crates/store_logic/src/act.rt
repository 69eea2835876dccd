//! Acts of code.

ghost use Rattle.std.specs.Prelude.{◌≡◌, IfOk};

use crate::assertion::Assertion;
use crate::cond::Cond;
use crate::path::{Operand, Path};
use std::alloc::{AllocError, Global};
use store_core::{VarId, VariantId};

/// What is assigned.
#[derive(Debug, Drop)]
pub enum Rhs {
    /// A cell or null.
    Cell(Operand),
    /// A new cell of the variant.
    New(VariantId),
    /// The truth of the condition.
    Truth(Cond),
}

impl Rhs {
    /// An equal right side, in memory of its own.
    pub fn copy(&self, alloc: Global) -> Result<Rhs, AllocError>
        ensures { IfOk result (λ copy. copy ≡ self.now) }
    {
        match self {
            Rhs::Cell(operand) => Ok(Rhs::Cell(operand.copy(alloc)?)),
            Rhs::New(variant) => Ok(Rhs::New(*variant)),
            Rhs::Truth(cond) => Ok(Rhs::Truth(cond.copy(alloc)?)),
        }
    }
}

/// One step of code.
#[derive(Debug, Drop)]
pub enum Act {
    /// `p = e;`
    Assign(Path, Rhs),
    /// `free x;`
    Free(VarId),
    /// `assert [A];`
    Assert(Assertion),
}

impl Act {
    /// An equal act, in memory of its own.
    pub fn copy(&self, alloc: Global) -> Result<Act, AllocError>
        ensures { IfOk result (λ copy. copy ≡ self.now) }
    {
        match self {
            Act::Assign(place, value) => Ok(Act::Assign(place.copy(alloc)?, value.copy(alloc)?)),
            Act::Free(var) => Ok(Act::Free(*var)),
            Act::Assert(assertion) => Ok(Act::Assert(assertion.copy(alloc)?)),
        }
    }
}
