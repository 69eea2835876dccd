//! Formulas of 65,536 levels.

use crate::formulas::{LEVELS, Part, Rewriting, are_equal, rewritten, tower};
use std::alloc::{AllocError, Global};
use std::test::Fail;
use ws2s_core::Formula;

/// `Single 0` alone.
const ONE: &[Part] = &[("=0", 0, 1)];

/// So often that a set is within itself, behind the formula.
const CONJUNCTIONS: &[Part] = &[("=0", 0, 1), ("k<k and", 0, LEVELS)];

/// So often that a set is within itself, in front of the formula.
const RIGHT_CONJUNCTIONS: &[Part] = &[("=0", 0, 1), ("k<k front", 0, LEVELS)];

/// So many quantifiers, each before a negation.
const NEGATED_QUANTIFIERS: &[Part] = &[("=n", 0, 1), ("not xk", 0, LEVELS)];

/// What a rewriter makes of a tower.
static TOWERS: &[(Rewriting, &[Part], &[Part])] = &[
    (Rewriting::Flat, &[("=0", 0, 1), ("not", 0, LEVELS)], ONE),
    // Quantifiers of other tracks.
    (Rewriting::Used, &[("=0", 0, 1), ("xj", 0, LEVELS)], ONE),
    (Rewriting::Folded, CONJUNCTIONS, ONE),
    // Free tracks are merged.
    (Rewriting::Used, CONJUNCTIONS, CONJUNCTIONS),
    // One quantifier goes through all conjunctions.
    (
        Rewriting::Narrow,
        &[("=m", 0, 1), ("k<k and", 0, LEVELS), ("xm", 0, 1)],
        &[("=m xm", 0, 1), ("k<k and", 0, LEVELS)],
    ),
    // Each quantifier stands before a conjunction that has its track on the right.
    (
        Rewriting::Narrow,
        &[("=0", 0, 1), ("=k and xk", 1, LEVELS)],
        &[("=0", 0, 1), ("=k xk and", 1, LEVELS)],
    ),
    (Rewriting::Folded, RIGHT_CONJUNCTIONS, ONE),
    (Rewriting::Used, RIGHT_CONJUNCTIONS, RIGHT_CONJUNCTIONS),
    (Rewriting::Flat, RIGHT_CONJUNCTIONS, RIGHT_CONJUNCTIONS),
    (
        Rewriting::Narrow,
        &[("=m", 0, 1), ("k<k front", 0, LEVELS), ("xm", 0, 1)],
        &[("=m xm", 0, 1), ("k<k front", 0, LEVELS)],
    ),
    (
        Rewriting::Used,
        NEGATED_QUANTIFIERS,
        &[("=n", 0, 1), ("not", 0, LEVELS)],
    ),
    (Rewriting::Narrow, NEGATED_QUANTIFIERS, NEGATED_QUANTIFIERS),
    // So many quantifiers go through so many conjunctions, each to its atom.
    (
        Rewriting::Narrow,
        &[("=0", 0, 1), ("=d front", 0, LEVELS), ("xd", 0, LEVELS)],
        &[("=0", 0, 1), ("=d xd front", 0, LEVELS)],
    ),
    // The same, each to the conjunction whose sides both have its track.
    (
        Rewriting::Narrow,
        &[("n<0", 0, 1), ("d<e front", 1, LEVELS), ("xd", 0, LEVELS)],
        &[("n<0", 0, 1), ("d<e front xe", 1, LEVELS), ("x1", 0, 1)],
    ),
];

/// What the rewriter makes of a tower.
fn made(alloc: Global, by: Rewriting, texts: &[Part]) -> Result<Formula, AllocError> {
    let whole = tower(alloc, texts)?;
    rewritten(alloc, by, &whole)
}

/// Whether the formula is the tower.
fn is_tower(alloc: Global, formula: &Formula, texts: &[Part]) -> Result<bool, AllocError> {
    let wanted = tower(alloc, texts)?;
    are_equal(alloc, formula, &wanted)
}

/// Whether the rewriter makes the one tower of the other.
fn makes(
    alloc: Global,
    by: Rewriting,
    texts: &[Part],
    wanted: &[Part],
) -> Result<bool, AllocError> {
    let made = made(alloc, by, texts)?;
    is_tower(alloc, &made, wanted)
}

#[test]
fn towers_are_rewritten(rt: HostRuntime) -> Result<(), Fail> {
    for row in TOWERS {
        assert!(rt; makes(rt.alloc(), row.0, row.1, row.2)?);
    }
    Ok(())
}
