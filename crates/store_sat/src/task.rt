//! What is still to be judged.

ghost use Rattle.std.specs.Prelude.{◌≡◌, if◌then◌else◌};

use store_core::{CellList, TypeId};
use store_logic::Assertion;

/// How the answers of two tasks make one.
#[derive(Clone, Copy)]
pub(crate) enum Join {
    And,
    Or,
    Imp,
    Iff,
}

/// A quantifier: for some or for all cells or sets of a type.
#[derive(Clone, Copy)]
pub(crate) struct Quantifier<'a> {
    /// For some, and else for all.
    pub(crate) some: bool,
    pub(crate) ty: TypeId,
    pub(crate) body: &'a Assertion,
}

/// What is still to be judged.
#[derive(Drop)]
pub(crate) enum Task<'a> {
    /// Nothing: this is the answer.
    Known(bool),
    Whole(&'a Assertion),
    /// The body for the live cells from this place on.
    Cells(Quantifier<'a>, usize),
    /// The body for the sets that have these cells of those before the place, and any of those from the place on.
    Sets(Quantifier<'a>, CellList, usize),
}

/// What is made of the answer to a task.
#[derive(Drop)]
pub(crate) enum Frame<'a> {
    /// Its negation.
    Not,
    /// Itself, outside of the nearest quantifier.
    Leave,
    /// It is joined to the answer of a task.
    With(Join, Task<'a>),
}

/// What comes after a task.
#[derive(Drop)]
pub(crate) enum Turn<'a> {
    On(Task<'a>),
    /// The answer to the whole.
    Done(bool),
}

impl Quantifier<'_> {
    /// How the answer for one goes with that for the others.
    pub(crate) fn join(&self) -> Join
        ensures { result ≡ (if self.now.some then Join.Or else Join.And) }
    {
        if self.some { Join::Or } else { Join::And }
    }
}
