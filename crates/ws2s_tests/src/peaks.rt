//! Formulas with their Peaks worked out by hand, decided under the plain guide on shelves of as many nodes.

use crate::formulas::{Part, tower};
use crate::found::{Found, decided};
use std::alloc::{AllocError, Global};
use std::test::Fail;
use ws2s_core::Formula;

/// A formula, whether track 0 is weighed, how many nodes the shelf has, and what is found.
static ROWS: &[(&[Part], bool, u32, Found)] = &[
    // Track 0 has one position. Three states, nine pairs of them, two functions.
    (&[("=0", 0, 1)], true, 11, Found::Tree(1, 1)),
    (&[("=0", 0, 1)], true, 1, Found::Limit),
    // Its projection has one state and one pair, as the minimal one has: 11 + 1 + 1.
    (&[("=0 x0", 0, 1)], true, 13, Found::Tree(0, 0)),
    // Track 0 has the root alone, said twice. 11 and 10 for the atoms. The product has four states, since what has the root alone
    // has one position: sixteen pairs and two functions. The minimal one has three states, nine pairs and one function:
    // 11 + 10 + 18 + 10.
    (&[("=0 .0 and", 0, 1)], true, 49, Found::Tree(1, 1)),
    (&[("=0 .0 and not", 0, 1)], true, 49, Found::Tree(0, 0)),
    // Tracks 0 and 1 have the same positions. 6 for each atom. The product has four states, sixteen pairs and 3 + 2 + 2 functions,
    // by which of the two is broken below; the minimal one has two states, four pairs and three functions: 6 + 6 + 23 + 7.
    (&[("0<1 1<0 and", 0, 1)], true, 42, Found::Tree(0, 0)),
    // Some set has one position, said of a hundred tracks. What isn't needed any more is collected, so that a hundred conjuncts need
    // no more room than two. A conjunct's peak is 13: 11 for "has one position", 1 for its projection and 1 for the result.
    (
        &[("=0 x0", 0, 1), ("=k xk and", 1, 100)],
        false,
        14,
        Found::Tree(0, 0),
    ),
];

/// Whether this is found of a formula.
fn is_decided(
    alloc: Global,
    f: &Formula,
    is_weighed: bool,
    limit: u32,
    wanted: Found,
) -> Result<bool, AllocError> {
    if limit == 0 || limit > 1000 {
        return Ok(false);
    }
    Ok(decided(alloc, f, is_weighed, limit)?.0 == wanted)
}

/// Whether this is found of the formula of texts.
fn is_found(
    alloc: Global,
    texts: &[Part],
    is_weighed: bool,
    limit: u32,
    wanted: Found,
) -> Result<bool, AllocError> {
    let f = tower(alloc, texts)?;
    is_decided(alloc, &f, is_weighed, limit, wanted)
}

#[test]
fn formulas_are_decided_at_their_peaks(rt: HostRuntime) -> Result<(), Fail> {
    for row in ROWS {
        assert!(rt;
            is_found(rt.alloc(), row.0, row.1, row.2, row.3)?,
            "at {}",
            row.2
        );
    }
    Ok(())
}
