//! The source trees of texts: what is written, before names are looked up.
//!
//! A chain of one connective, as `a & b & c`, is its first operand, which is no such chain itself, and the list of the
//! others. So a tree is as deep as its text has levels, however long the text is.

use crate::declaration::Class;
use crate::formula::{Connective, Quantifier};
use crate::name::SuccessorList;
use pale_text::{ByteList, Pos};
use plain_data::{Boxed, Items};

/// A name where it stands in a text.
#[derive(Debug, Drop)]
pub struct SourceName {
    pub bytes: ByteList,
    /// The place of its first byte.
    pub place: Pos,
}

/// Where a term begins.
#[derive(Debug, Drop)]
pub enum SourceBase {
    /// `root`, and its place.
    Root(Pos),
    Name(SourceName),
}

/// `x.0.1`: where a term begins, and the successors taken from there.
#[derive(Debug, Drop)]
pub struct SourceTerm {
    pub base: SourceBase,
    pub steps: SuccessorList,
}

/// A formula as it is written.
#[derive(Debug, Drop)]
pub enum SourceFormula {
    /// `true` or `false`
    Truth(bool),
    /// `empty(X)`
    Empty(SourceName),
    /// `t = u`
    Same(SourceTerm, SourceTerm),
    /// `t ~= u`
    Differ(SourceTerm, SourceTerm),
    /// `t in X`
    In(SourceTerm, SourceName),
    /// `t notin X`
    NotIn(SourceTerm, SourceName),
    /// `X sub Y`
    Sub(SourceTerm, SourceName),
    /// `p(t, X)`: the predicate holds of the arguments.
    Use(SourceName, Items<SourceTerm>),
    /// `~f`
    Not(Boxed<SourceFormula>),
    /// `f => g`
    Implies(Boxed<SourceFormula>, Boxed<SourceFormula>),
    /// `f & g & h`, `f | g | h` or `f <=> g <=> h`, which group to the left. The first is no such chain.
    Chain(Connective, Boxed<SourceFormula>, Items<SourceFormula>),
    /// A quantifier, the names that it binds, at least one, and what it governs.
    Quantified(Quantifier, Items<SourceName>, Boxed<SourceFormula>),
}

/// `var1 x` or `var2 X`: a parameter of a predicate.
#[derive(Debug, Drop)]
pub struct SourceParameter {
    pub class: Class,
    pub name: SourceName,
}

/// An item of a text.
#[derive(Debug, Drop)]
pub enum SourceItem {
    /// `var1 x, y;` or `var2 X, Y;`
    Variables(Class, Items<SourceName>),
    /// `pred p(var1 x, var2 X) = f;`
    Predicate(SourceName, Items<SourceParameter>, SourceFormula),
    /// `f;`
    Formula(SourceFormula),
}

/// A whole text: its items in order.
#[derive(Debug, Drop)]
pub struct Source {
    pub items: Items<SourceItem>,
}
