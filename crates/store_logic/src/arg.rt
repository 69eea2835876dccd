//! The arguments of predicates.

ghost use Rattle.std.specs.Prelude.{◌≡◌, IfOk, OnOk, ◌++◌};

use crate::term::{Base, Term};
use plain_data::Items;
use std::alloc::{AllocError, Global};

/// The arguments of a predicate, in the order of its parameters.
pub type ArgList = Items<Arg>;

/// An argument of a predicate.
#[derive(Debug, Drop)]
pub enum Arg {
    /// A cell or null.
    Cell(Term),
    /// A set of cells.
    Set(Base),
    /// A truth value.
    Truth(Term),
}

impl Arg {
    /// An equal argument, in memory of its own.
    pub fn copy(&self, alloc: Global) -> Result<Arg, AllocError>
        ensures { IfOk result (λ copy. copy ≡ self.now) }
    {
        match self {
            Arg::Cell(term) => Ok(Arg::Cell(term.copy(alloc)?)),
            Arg::Set(base) => Ok(Arg::Set(*base)),
            Arg::Truth(term) => Ok(Arg::Truth(term.copy(alloc)?)),
        }
    }
}

/// Equal arguments, in memory of their own.
pub(crate) fn copy_args(alloc: Global, args: &[Arg]) -> Result<ArgList, AllocError>
    ensures { IfOk result (λ copy. copy ≡ args.now) }
{
    let mut copy = ArgList::new(alloc);
    for arg in args {
        copy.push(arg.copy(alloc)?)?;
    }
    Ok(copy)
}
