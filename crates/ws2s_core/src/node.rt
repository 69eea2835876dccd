//! Formulas of one level over the numbers of other formulas.

use crate::track::Track;

/// The number of a formula in an [`Interner`](crate::Interner).
#[derive(Clone, Copy, Debug, PartialEq, Eq, PartialOrd, Ord, Hash)]
pub struct FormulaId(pub u32);

/// A formula of one level, whose parts are the numbers of formulas; the forms are those of
/// [`Formula`](crate::Formula).
#[derive(Clone, Copy, Debug, PartialEq, Eq, Hash)]
pub enum Node {
    Sub(Track, Track),
    Single(Track),
    Succ0(Track, Track),
    Succ1(Track, Track),
    Root(Track),
    And(FormulaId, FormulaId),
    Not(FormulaId),
    Ex2(Track, FormulaId),
}
