//! Chains and quantifiers of a text as core formulas.

ghost use Rattle.std.specs.Prelude.{◌≡◌, IfOk};
ghost use Rattle.ws2s_reduce.specs.Building.{joined_of, quantified_at, wrapped};

use std::alloc::{AllocError, Global};
use ws2s_core::{Formula, Track};
use ws2s_forms::{all1, all2, ex1, iff, later, or};
use ws2s_syntax::{Connective, Quantifier};

/// Two parts of a chain.
pub fn joined(
    alloc: Global,
    connective: Connective,
    left: Formula,
    right: Formula,
) -> Result<Formula, AllocError>
    ensures { IfOk result (λ formula. formula ≡ joined_of connective left right) }
{
    match connective {
        Connective::And => Formula::and(alloc, left, right),
        Connective::Or => or(alloc, left, right),
        Connective::Iff => iff(alloc, left, right),
    }
}

/// The quantifier that binds the track.
fn quantified(
    alloc: Global,
    quantifier: Quantifier,
    next: u32,
    inner: Formula,
) -> Result<Formula, AllocError>
    ensures { IfOk result (λ formula. formula ≡ quantified_at quantifier next inner) }
{
    match quantifier {
        Quantifier::Ex1 => ex1(alloc, next, inner),
        Quantifier::All1 => all1(alloc, next, inner),
        Quantifier::Ex2 => Formula::ex2(alloc, Track(next), inner),
        Quantifier::All2 => all2(alloc, next, inner),
    }
}

/// Quantifiers that bind so many tracks from this one on, the first of them outside.
pub fn wrapped(
    alloc: Global,
    quantifier: Quantifier,
    first: u32,
    names: u32,
    inner: Formula,
) -> Result<Formula, AllocError>
    ensures { IfOk result (λ formula. formula ≡ wrapped quantifier first names inner) }
{
    let mut formula = inner;
    let mut left = names;
    while left > 0 {
        left -= 1;
        let own = later(first, left)?;
        formula = quantified(alloc, quantifier, own, formula)?;
    }
    Ok(formula)
}
