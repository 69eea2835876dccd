//! Names and terms, as they are used.

use plain_data::Items;

/// A variable, where it is used.
#[derive(Clone, Copy, Debug, PartialEq, Eq)]
pub enum Name {
    /// A free variable, by its number in order of declaration.
    Free(u32),
    /// The name with this number among those that its item makes visible there: a predicate's parameters, and then the
    /// bound names, from the outside in.
    Local(u32),
}

/// Which child of a position.
#[derive(Clone, Copy, Debug, PartialEq, Eq)]
pub enum Successor {
    /// The child that 0 leads to.
    Zero,
    /// The child that 1 leads to.
    One,
}

/// Successors, the one that is taken first in front.
pub type SuccessorList = Items<Successor>;

/// Where a term begins.
#[derive(Clone, Copy, Debug, PartialEq, Eq)]
pub enum Base {
    Root,
    Variable(Name),
}

/// A position: where it begins, and the successors taken from there.
#[derive(Debug, Drop)]
pub struct Term {
    pub base: Base,
    pub steps: SuccessorList,
}

/// An argument of a predicate's use.
#[derive(Debug, Drop)]
pub enum Argument {
    Position(Term),
    Set(Name),
}
