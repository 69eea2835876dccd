//! The formula of a layout's trees in a formula, with types of many fields told by field.

ghost use Rattle.std.specs.Prelude.{◌≤◌, IfOk};
ghost use Rattle.tree_encode.specs.Tracks.{track_count};
ghost use Rattle.tree_reached.specs.Alike.{AlikeOnTrees};

use crate::ends::are_at_ends;
use crate::replacing::replaced;
use crate::steps::are_led_to;
use crate::ways::{Way, last_number, ways_to};
use std::alloc::{AllocError, Global};
use store_core::TypeId;
use tree_encode::Layout;
use ws2s_core::Formula;

/// A type is told by field where a way to its cells has at least so many steps by 1. The automaton of its formula as it stands
/// grows twice as large with each step under a negated quantifier, and with fewer steps it is small.
pub const MANY_STEPS: u32 = 7;

/// The ways have many steps.
fn is_wide(ways: &[Way]) -> bool {
    last_number(ways) >= MANY_STEPS
}

/// The track that a negated quantifier binds.
fn bound_by(formula: &Formula) -> Option<u32> {
    match formula {
        Formula::Not(inner) => match inner.get() {
            Formula::Ex2(track, _) => Some(track.0),
            _ => None,
        },
        _ => None,
    }
}

/// The track that the first conjunct of a formula binds, where it is a negated quantifier.
fn first_bound(formula: &Formula) -> Option<u32> {
    let mut first = formula;
    loop {
        match first {
            Formula::And(left, _) => first = left.get(),
            conjunct => return bound_by(conjunct),
        }
    }
}

/// The formula with the conjunct that each live cell of a type is at one of its places told by field, where the type has many.
fn with_type(
    alloc: Global,
    l: &Layout<'_>,
    next: u32,
    ty: TypeId,
    formula: Formula,
) -> Result<Formula, AllocError>
    requires { track_count l.now.types l.now.vars ≤ next }
    ensures { IfOk result (AlikeOnTrees l.now.types l.now.vars formula) }
{
    let ways = ways_to(alloc, l, ty)?;
    if !is_wide(ways.as_slice()) {
        return Ok(formula);
    }
    let at_ends = are_at_ends(alloc, l, next, ty, ways.as_slice())?;
    let by_field = are_led_to(alloc, l, next, ty, ways.as_slice())?;
    replaced(alloc, next, &formula, &at_ends, &by_field)
}

/// The same for all types.
fn with_types(
    alloc: Global,
    l: &Layout<'_>,
    next: u32,
    formula: &Formula,
) -> Result<Formula, AllocError>
    requires { track_count l.now.types l.now.vars ≤ next }
    ensures { IfOk result (AlikeOnTrees l.now.types l.now.vars formula.now) }
{
    let mut whole = formula.copy(alloc)?;
    for index in 0..l.types().types() {
        whole = with_type(alloc, l, next, TypeId(index), whole)?;
    }
    Ok(whole)
}

/// A formula that may stand for this one on the trees of stores: all finite sets that satisfy it satisfy this one, and of those
/// that lay out a backbone the other way round. Where this one has the formula of the layout's trees in front, it has that each
/// live cell of a type with many fields is at one of its places told by field. It is the formula itself where no type has many,
/// and else its automata are much smaller: the sets of the steps take the place of all sets of fields, and none of them has a
/// position of one for which another variant would have to stand above it.
///
/// # Errors
///
/// Want of memory, also where there are not as many tracks.
pub fn by_fields(alloc: Global, l: &Layout<'_>, formula: &Formula) -> Result<Formula, AllocError>
    ensures { IfOk result (AlikeOnTrees l.now.types l.now.vars formula.now) }
{
    match first_bound(formula) {
        Some(next) if next >= l.tracks() => with_types(alloc, l, next, formula),
        _ => formula.copy(alloc),
    }
}
