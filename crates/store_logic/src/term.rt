//! Terms of assertions: what names a cell, a truth value or a set.

ghost use Rattle.std.specs.Prelude.{◌≡◌, IfOk};

use plain_data::Items;
use std::alloc::{AllocError, Global};
use store_core::{FieldId, VarId};

/// The fields of a path, from the left.
pub type FieldList = Items<FieldId>;

/// What a name in an assertion stands for.
#[derive(Clone, Copy, Debug, PartialEq, Eq)]
pub enum Base {
    /// A variable of the store.
    Var(VarId),
    /// What a quantifier around the name binds, by the number of quantifiers between the two, those over cells and those over
    /// sets counted together: 0 for the nearest. (De Bruijn 1972.)
    Bound(u32),
    /// A parameter of the predicate in whose body the name stands, counted from 0.
    Param(u32),
}

/// A term that stands for null, a cell or a truth value.
#[derive(Debug, Drop)]
pub enum Term {
    /// `null`.
    Null,
    /// `p.f.g`: what the fields lead to, one after the other, from what the name stands for.
    At(Base, FieldList),
}

impl Term {
    /// An equal term, in memory of its own.
    pub fn copy(&self, alloc: Global) -> Result<Term, AllocError>
        ensures { IfOk result (λ copy. copy ≡ self.now) }
    {
        match self {
            Term::Null => Ok(Term::Null),
            Term::At(base, fields) => Ok(Term::At(
                *base,
                FieldList::from_slice(alloc, fields.as_slice())?,
            )),
        }
    }
}
