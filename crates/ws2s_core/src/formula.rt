//! Core formulas of WS2S, and how they are made and dropped.

ghost use Rattle.std.specs.Prelude.{◌≡◌, ◌+◌, ◌*◌, ◌<◌, Some, None, IfOk, IfErr};
ghost use Rattle.ws2s_core.specs.Dropping.{turning_weight, dropping_rank};
ghost use Rattle.ws2s_core.specs.Negated.{negated};

use crate::track::Track;
use plain_data::Boxed;
use std::alloc::{AllocError, Global};

/// A core formula of WS2S: what it says of an assignment, which gives each track a finite set of positions, is `WSat`.
///
/// A formula may be as deep as memory allows: copies, sizes, numbers and drops go over it by loops. Only `Debug`
/// recurses.
#[derive(Debug)]
pub enum Formula {
    /// The set of the first track is within that of the second.
    Sub(Track, Track),
    /// The set has one position.
    Single(Track),
    /// The first set is one position u, and the second the one position u0.
    Succ0(Track, Track),
    /// The first set is one position u, and the second the one position u1.
    Succ1(Track, Track),
    /// The set is the root alone.
    Root(Track),
    And(Boxed<Formula>, Boxed<Formula>),
    Not(Boxed<Formula>),
    /// For some finite set on this track the formula holds.
    Ex2(Track, Boxed<Formula>),
}

impl Formula {
    /// The conjunction of two formulas.
    ///
    /// # Errors
    ///
    /// Want of memory; the formulas are then dropped.
    pub fn and(alloc: Global, left: Formula, right: Formula) -> Result<Formula, AllocError>
        ensures { IfOk result (λ formula. formula ≡ Formula.And left right) }
    {
        Ok(Formula::And(Boxed::new(alloc, left)?, Boxed::new(alloc, right)?))
    }

    /// The negation of a formula.
    ///
    /// # Errors
    ///
    /// Want of memory; the formula is then dropped.
    pub fn not(alloc: Global, inner: Formula) -> Result<Formula, AllocError>
        ensures { IfOk result (λ formula. formula ≡ Formula.Not inner) }
    {
        Ok(Formula::Not(Boxed::new(alloc, inner)?))
    }

    /// The formula with a track quantified over finite sets.
    ///
    /// # Errors
    ///
    /// Want of memory; the formula is then dropped.
    pub fn ex2(alloc: Global, track: Track, inner: Formula) -> Result<Formula, AllocError>
        ensures { IfOk result (λ formula. formula ≡ Formula.Ex2 track inner) }
    {
        Ok(Formula::Ex2(track, Boxed::new(alloc, inner)?))
    }

    /// What the formula negates. A formula that isn't a negation is handed back as the error. Takes no memory.
    pub fn into_negated(self) -> Result<Formula, Formula>
        ensures value { IfOk result (λ inner. negated self ≡ Some inner) }
        ensures err { IfErr result (λ whole. (whole ≡ self) × (negated self ≡ None)) }
    {
        match self {
            Formula::Not(inner) => Ok(inner.into_inner()),
            other => Err(other),
        }
    }

    /// What is left to drop of the conjunction of this formula, which was moved out of the box `left`, and `right`. The
    /// box, which holds an atom in its place, is used again, so that no memory is taken.
    #[cycle(dropping)]
    fn turned(self, mut left: Boxed<Formula>, right: Boxed<Formula>) -> Formula
        requires { dropping_rank left ≡ 0 }
        ensures { turning_weight result < 2 * turning_weight self + turning_weight right + 1 }
    {
        match self {
            Formula::And(first, second) => {
                let _placeholder = left.replace(Formula::And(second, right));
                Formula::And(first, left)
            }
            Formula::Not(inner) | Formula::Ex2(_, inner) => {
                let _placeholder = left.into_inner();
                Formula::And(inner, right)
            }
            Formula::Sub(_, _)
            | Formula::Single(_)
            | Formula::Succ0(_, _)
            | Formula::Succ1(_, _)
            | Formula::Root(_) => {
                let _placeholder = left.into_inner();
                right.into_inner()
            }
        }
    }
}

/// Dropped by a loop, without memory: a conjunction whose left part is one too is turned to the right, until its left
/// part is an atom.
impl Drop for Formula {
    #[cycle(dropping)]
    fn drop(mut self) {
        loop {
            match self {
                Formula::And(mut left, right) => {
                    let inner = left.replace(Formula::Root(Track(0)));
                    self = inner.turned(left, right);
                }
                Formula::Not(inner) | Formula::Ex2(_, inner) => self = inner.into_inner(),
                Formula::Sub(_, _)
                | Formula::Single(_)
                | Formula::Succ0(_, _)
                | Formula::Succ1(_, _)
                | Formula::Root(_) => return,
            }
        }
    }
}
