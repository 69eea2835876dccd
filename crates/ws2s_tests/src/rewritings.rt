//! What each rewriter makes of a formula.

use crate::formulas::{Rewriting, formula, is, rewritten};
use std::alloc::{AllocError, Global};
use std::test::Fail;
use ws2s_core::Formula;

/// A formula, and what `flatten_not`, `drop_unused`, `fold_constants` and `narrow_scope` make of it.
type Row = [&'static str; 5];

/// `stays` stands for the formula itself.
const ROWS: [Row; 30] = [
    ["=0", "stays", "stays", "stays", "stays"],
    ["=0 not not", "=0", "stays", "stays", "stays"],
    ["=0 not not not", "=0 not", "stays", "stays", "stays"],
    [
        "=0 not not =1 not not and not not",
        "=0 =1 and",
        "stays",
        "stays",
        "stays",
    ],
    ["=0 x1", "stays", "=0", "stays", "stays"],
    ["=0 x0", "stays", "stays", "stays", "stays"],
    ["=0 x1 x1 x0", "stays", "=0 x0", "stays", "stays"],
    ["=0 =1 and x1", "stays", "stays", "stays", "=0 =1 x1 and"],
    [
        "=0 =1 and .1 and x0 x1",
        "stays",
        "stays",
        "stays",
        "=0 x0 =1 and .1 and x1",
    ],
    [
        "=0 =1 and not =2 and x1 x2",
        "stays",
        "stays",
        "stays",
        "=0 =1 and not x1 =2 x2 and",
    ],
    [
        "=1 x1 0<1 and x1",
        "stays",
        "stays",
        "stays",
        "=1 x1 0<1 x1 and",
    ],
    [
        "=1 x1 0<2 and x1",
        "stays",
        "=1 x1 0<2 and",
        "stays",
        "=1 x1 0<2 x1 and",
    ],
    ["=0 not not x1", "=0 x1", "=0 not not", "stays", "stays"],
    ["0<0", "stays", "stays", "stays", "stays"],
    ["000", "stays", "stays", "stays", "stays"],
    ["0<0 not", "stays", "stays", "000 x0", "stays"],
    ["000 not", "stays", "stays", "0<0 x0", "stays"],
    ["=1 =1 not and x1", "stays", "stays", "000 x0", "stays"],
    ["=2 =2 not and x2 not", "stays", "stays", "0<0 x0", "stays"],
    [
        "=0 =1 =1 not and x1 not and",
        "stays",
        "stays",
        "=0",
        "stays",
    ],
    [
        "=0 =1 =1 not and x1 and",
        "stays",
        "stays",
        "000 x0",
        "stays",
    ],
    [
        "=1 =1 not and x1 not =0 and",
        "stays",
        "stays",
        "=0",
        "stays",
    ],
    [
        "=1 =1 not and x2",
        "stays",
        "=1 =1 not and",
        "stays",
        "=1 =1 not x2 and",
    ],
    [
        "=1 =2 not and x1",
        "stays",
        "stays",
        "stays",
        "=1 x1 =2 not and",
    ],
    [
        "3<3 =0 and x4 =1 and",
        "stays",
        "3<3 =0 and =1 and",
        "=0 x4 =1 and",
        "3<3 =0 x4 and =1 and",
    ],
    [
        "=0 303 not and =1 and",
        "stays",
        "stays",
        "=0 =1 and",
        "stays",
    ],
    [
        "313 x3 not not .0 and",
        "313 x3 .0 and",
        "stays",
        "000 x0",
        "stays",
    ],
    [
        ".0 .1 x1 313 not and and",
        "stays",
        "stays",
        ".0 .1 x1 and",
        "stays",
    ],
    [
        "0<1 not not x0 not not x5 not",
        "0<1 x0 x5 not",
        "0<1 not not x0 not not not",
        "stays",
        "stays",
    ],
    [
        "001 112 and 2<2 and x2 x1 x7",
        "stays",
        "001 112 and 2<2 and x2 x1",
        "001 112 and x2 x1 x7",
        "stays",
    ],
];

/// Whether this is made of the formula; `stays` is the formula of the text itself.
fn is_made(
    alloc: Global,
    by: Rewriting,
    text: &str,
    whole: &Formula,
    wanted: &str,
) -> Result<bool, AllocError> {
    let made = rewritten(alloc, by, whole)?;
    is(alloc, &made, if wanted == "stays" { text } else { wanted })
}

/// Whether each rewriter's answer for the row's formula is as the row has it.
fn are_made(alloc: Global, row: &Row, whole: &Formula) -> Result<bool, AllocError> {
    let [text, flat, used, folded, narrow] = *row;
    Ok(
        is_made(alloc, Rewriting::Flat, text, whole, flat)?
            && is_made(alloc, Rewriting::Used, text, whole, used)?
            && is_made(alloc, Rewriting::Folded, text, whole, folded)?
            && is_made(alloc, Rewriting::Narrow, text, whole, narrow)?,
    )
}

/// Whether each rewriter's answer is as the row has it.
fn holds(alloc: Global, row: &Row) -> Result<bool, AllocError> {
    let whole = formula(alloc, row[0])?;
    are_made(alloc, row, &whole)
}

#[test]
fn rewritings_are_as_worked_out(rt: HostRuntime) -> Result<(), Fail> {
    for row in &ROWS {
        assert!(rt; holds(rt.alloc(), row)?, "{}", row[0]);
    }
    Ok(())
}
