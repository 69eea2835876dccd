//! The formulas of a text.

use crate::name::{Argument, Name, Term};
use plain_data::{Boxed, Items};

/// A formula without parts.
#[derive(Debug, Drop)]
pub enum Atom {
    Truth(bool),
    Empty(Name),
    /// The position is in the set.
    In(Term, Name),
    /// Two positions are the same.
    SamePosition(Term, Term),
    /// Two sets are the same.
    SameSet(Name, Name),
    /// The first set is within the second.
    Sub(Name, Name),
    /// The predicate with this number, in order of the text, holds of the arguments.
    Use(u32, Items<Argument>),
}

/// What joins the parts of a chain.
#[derive(Clone, Copy, Debug, PartialEq, Eq)]
pub enum Connective {
    And,
    Or,
    Iff,
}

/// Which quantifier, over positions or over finite sets.
#[derive(Clone, Copy, Debug, PartialEq, Eq)]
pub enum Quantifier {
    Ex1,
    All1,
    Ex2,
    All2,
}

/// A formula of a text. Its depth is that of the text's levels, however long its chains are.
#[derive(Debug, Drop)]
pub enum TextFormula {
    Atom(Atom),
    Not(Boxed<TextFormula>),
    Implies(Boxed<TextFormula>, Boxed<TextFormula>),
    /// A first part and others, which group to the left.
    Chain(Connective, Boxed<TextFormula>, Items<TextFormula>),
    /// So many names are bound, each after the names that are visible already.
    Quantified(Quantifier, u32, Boxed<TextFormula>),
}

/// Formulas, in order of the text.
pub type TextFormulaList = Items<TextFormula>;
