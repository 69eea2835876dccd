//! One conjunct of a formula in the place of another.

ghost use Rattle.std.specs.Prelude.{◌≡◌, IfOk, List};
ghost use Rattle.std.specs.Bool.{OnTrue};
ghost use Rattle.store_core.specs.Tables.{TypeEntry, VarEntry};
ghost use Rattle.tree_reached.specs.Alike.{AlikeOnTrees};
ghost use Rattle.tree_reached.specs.Conjuncts.{AreConjunctsOf};

use plain_data::Stack;
use std::alloc::{AllocError, Global};
use ws2s_core::{Formula, Interner, intern};
use ws2s_forms::and_list;

/// The two formulas are equal.
fn are_equal(alloc: Global, one: &Formula, other: &Formula) -> Result<bool, AllocError>
    ensures { IfOk result (λ equal. OnTrue equal (one.now ≡ other.now)) }
{
    if one.size() != other.size() {
        return Ok(false);
    }
    let mut interner = Interner::new(alloc);
    let first = intern(alloc, &mut interner, one)?;
    let second = intern(alloc, &mut interner, other)?;
    Ok(first.0 == second.0)
}

/// The conjuncts of a formula from the left, the first one on top, which is no conjunction.
fn conjuncts_of<'a>(alloc: Global, formula: &'a Formula) -> Result<Stack<&'a Formula>, AllocError>
    ensures { IfOk result (λ conjuncts. AreConjunctsOf formula.now conjuncts) }
{
    let mut first = formula;
    let mut conjuncts = Stack::new(alloc);
    while let Formula::And(left, right) = first {
        conjuncts.push(right.get())?;
        first = left.get();
    }
    conjuncts.push(first)?;
    Ok(conjuncts)
}

/// A conjunct, or where it is the old one the new one.
fn replaced_one(
    alloc: Global,
    conjunct: &Formula,
    old: &Formula,
    new: &Formula,
) -> Result<Formula, AllocError>
    ensures { IfOk result (λ part. (types : List TypeEntry) (vars : List VarEntry) → AlikeOnTrees types vars old.now new.now →
        AlikeOnTrees types vars conjunct.now part) }
{
    if are_equal(alloc, conjunct, old)? {
        return new.copy(alloc);
    }
    conjunct.copy(alloc)
}

/// The formula with the new conjunct in the place of each that is the old one. Where that one may stand for the old one on trees, the
/// whole may stand for the formula. The track is bound where there are no conjuncts.
pub(crate) fn replaced(
    alloc: Global,
    next: u32,
    formula: &Formula,
    old: &Formula,
    new: &Formula,
) -> Result<Formula, AllocError>
    ensures { IfOk result (λ whole. (types : List TypeEntry) (vars : List VarEntry) → AlikeOnTrees types vars old.now new.now →
        AlikeOnTrees types vars formula.now whole) }
{
    let mut conjuncts = conjuncts_of(alloc, formula)?;
    let mut parts = Vec::new(alloc);
    while let Some(conjunct) = conjuncts.pop() {
        parts.push(replaced_one(alloc, conjunct, old, new)?)?;
    }
    and_list(alloc, next, parts)
}
