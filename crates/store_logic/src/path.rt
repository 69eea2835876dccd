//! Paths of code, and what is compared.

ghost use Rattle.std.specs.Prelude.{◌≡◌, IfOk};

use crate::term::FieldList;
use std::alloc::{AllocError, Global};
use store_core::VarId;

/// `x.f.g`: a variable, and the fields that are followed from it.
#[derive(Debug, Drop)]
pub struct Path {
    pub var: VarId,
    pub fields: FieldList,
}

impl Path {
    /// An equal path, in memory of its own.
    pub fn copy(&self, alloc: Global) -> Result<Path, AllocError>
        ensures { IfOk result (λ copy. copy ≡ self.now) }
    {
        Ok(Path {
            var: self.var,
            fields: FieldList::from_slice(alloc, self.fields.as_slice())?,
        })
    }
}

/// What is compared with `==`, or assigned to a place that holds a cell.
#[derive(Debug, Drop)]
pub enum Operand {
    /// `null`.
    Null,
    /// What stands at the path.
    Path(Path),
}

impl Operand {
    /// An equal operand, in memory of its own.
    pub fn copy(&self, alloc: Global) -> Result<Operand, AllocError>
        ensures { IfOk result (λ copy. copy ≡ self.now) }
    {
        match self {
            Operand::Null => Ok(Operand::Null),
            Operand::Path(path) => Ok(Operand::Path(path.copy(alloc)?)),
        }
    }
}
