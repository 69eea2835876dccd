//! What a text declares.

use crate::formula::TextFormula;
use plain_data::Items;

/// A name, as its bytes.
pub type ByteList = Items<u8>;

/// What a variable stands for.
#[derive(Clone, Copy, Debug, PartialEq, Eq)]
pub enum Class {
    /// One position: a `var1`, or a name that `ex1` or `all1` binds.
    Position,
    /// A finite set of positions: a `var2`, or a name that `ex2` or `all2` binds.
    Set,
}

/// The classes of parameters, in order.
pub type ClassList = Items<Class>;

/// A free variable of a text.
#[derive(Debug, Drop)]
pub struct Free {
    pub name: ByteList,
    /// A set, declared by `var2`; else a position.
    pub set: bool,
}

/// Free variables, in order of declaration.
pub type FreeList = Items<Free>;

/// A predicate of a text.
#[derive(Debug, Drop)]
pub struct Predicate {
    pub params: ClassList,
    pub body: TextFormula,
}

/// Predicates, in order of the text.
pub type PredicateList = Items<Predicate>;
