//! Assertions.

use crate::tree::names::{Name, Path, Term};
use crate::tree::route::Route;
use pale_text::Pos;
use plain_data::{Boxed, Items};

/// What a quantifier says of how many.
#[derive(Clone, Copy, Debug, PartialEq, Eq)]
pub enum QuantifierKind {
    /// `ex`: some.
    Ex,
    /// `all`: each.
    All,
}

/// `ex`, `all`, `ex set` or `all set`, and what it binds.
#[derive(Debug, Drop)]
pub struct Quantifier {
    pub kind: QuantifierKind,
    /// The place of `ex` or `all`.
    pub place: Pos,
    /// Whether the names stand for sets of cells, by the word `set`, and not for cells.
    pub of_sets: bool,
    /// The names that it binds, at least one.
    pub names: Items<Name>,
    /// The type of the cells.
    pub ty: Name,
}

/// An assertion. A place is that of the operator.
#[derive(Debug, Drop)]
pub enum Assertion {
    True,
    False,
    /// A path alone, whose truth is asked.
    Truth(Path),
    /// `t = u`
    Same(Term, Pos, Term),
    /// `t ~= u`
    Differ(Term, Pos, Term),
    /// `t in S`
    Member(Term, Pos, Name),
    /// `S sub U`
    Subset(Term, Pos, Name),
    /// `t <R> u`: the route leads from one cell to the other.
    Walk(Term, Pos, Route, Term),
    /// `t : v`: the cell is of the variant.
    Is(Term, Pos, Name),
    /// `p(x, y.f)`: the predicate holds of the arguments.
    Use(Name, Items<Path>),
    /// `~a`
    Not(Pos, Boxed<Assertion>),
    /// `a & b & c`. The first is no such chain.
    And(Boxed<Assertion>, Items<Assertion>),
    /// `a | b | c`. The first is no such chain.
    Or(Boxed<Assertion>, Items<Assertion>),
    /// `a => b`
    Imp(Boxed<Assertion>, Pos, Boxed<Assertion>),
    /// `a <=> b <=> c`, which groups to the left. The first is no such chain.
    Iff(Boxed<Assertion>, Items<Assertion>),
    /// A quantifier and what it governs.
    Quantified(Quantifier, Boxed<Assertion>),
}

/// `[a]`: an assertion in its brackets.
#[derive(Debug, Drop)]
pub struct Bracketed {
    /// The place of the `[`.
    pub place: Pos,
    pub assertion: Assertion,
}
