//! Conditions of code.

use crate::tree::names::{Name, Term};
use pale_text::Pos;
use plain_data::{Boxed, Items};

/// A condition of `if` and `while`, or what is assigned. A place is that of the operator.
#[derive(Debug, Drop)]
pub enum Condition {
    /// `true`, and its place.
    True(Pos),
    /// `false`, and its place.
    False(Pos),
    /// A term alone, whose truth is asked.
    Truth(Term),
    /// `t == u`
    Same(Term, Pos, Term),
    /// `t != u`
    Differ(Term, Pos, Term),
    /// `t : v`: the cell is of the variant.
    Is(Term, Pos, Name),
    /// `!c`
    Not(Pos, Boxed<Condition>),
    /// `c && d && e`. The first is no such chain.
    And(Boxed<Condition>, Items<Condition>),
    /// `c || d || e`. The first is no such chain.
    Or(Boxed<Condition>, Items<Condition>),
}
