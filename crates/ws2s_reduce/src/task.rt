//! What is left to do where a reduction is built.

use ws2s_syntax::{Connective, Quantifier, TextFormula};

/// Where a formula stands.
#[derive(Clone, Copy, Debug)]
pub struct Place {
    /// How many predicates it may use.
    pub rank: usize,
    /// Where the tracks of its item's names begin.
    pub start: usize,
    /// The track that its next quantifier binds.
    pub next: u32,
}

/// What makes one formula of the last ones.
#[derive(Clone, Copy, Debug)]
pub enum Op {
    Negate,
    Imply,
    Join(Connective),
    /// Quantifiers that bind so many tracks, from this one on.
    Wrap(Quantifier, u32, u32),
    /// Binds the track, which the last formula but one speaks of, around both.
    Bind(u32),
}

/// A step that is left.
#[derive(Clone, Copy, Debug)]
pub enum Task<'t> {
    /// The formula is reduced.
    Build(&'t TextFormula, Place),
    /// Of the tracks of names so many stay.
    Forget(usize),
    Apply(Op),
}
