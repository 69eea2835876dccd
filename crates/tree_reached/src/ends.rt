//! The places at the ends of ways, and the formula of trees that each live cell of a type is at one of them.

ghost use Rattle.std.specs.Prelude.{◌≡◌, map, IfOk};
ghost use Rattle.tree_formula.specs.WellEncoded as encoded;
ghost use Rattle.tree_reached.specs.ByField as formulas;

use crate::cells::{has, is_live};
use crate::ways::Way;
use std::alloc::{AllocError, Global};
use store_core::{FieldId, TypeId};
use tree_encode::Layout;
use ws2s_core::{Formula, Track};
use ws2s_forms::{all1, child, ex1, imp, later, or_list, slot};

/// A position is the child with that number of some cell that has the field.
fn is_child(
    alloc: Global,
    l: &Layout<'_>,
    next: u32,
    a: u32,
    f: FieldId,
    number: u32,
) -> Result<Formula, AllocError>
    ensures { IfOk result (λ formula. formula ≡ encoded.is_child next l.now.types a f number) }
{
    let inner = later(next, 1)?;
    let owned = has(alloc, l, inner, f, next)?;
    let below = child(alloc, inner, number, Track(next), Track(a))?;
    ex1(alloc, next, Formula::and(alloc, owned, below)?)
}

/// A position is at the end of a way.
fn place_of(
    alloc: Global,
    l: &Layout<'_>,
    next: u32,
    a: u32,
    way: Way,
) -> Result<Formula, AllocError>
    ensures { IfOk result (λ formula. formula ≡ formulas.place_of next l.now.types a way) }
{
    match way.holder {
        Some(f) => is_child(alloc, l, next, a, f, way.number),
        None => slot(alloc, next, way.number, Track(a)),
    }
}

/// The same for each of the ways.
fn places(
    alloc: Global,
    l: &Layout<'_>,
    next: u32,
    a: u32,
    ways: &[Way],
) -> Result<Vec<Formula>, AllocError>
    ensures { IfOk result (λ places. places.items ≡ map (formulas.place_of next l.now.types a) ways.now) }
{
    let mut places = Vec::new(alloc);
    for way in ways {
        places.push(place_of(alloc, l, next, a, *way)?)?;
    }
    Ok(places)
}

/// Each live cell of a type is at the end of one of the ways.
pub(crate) fn are_at_ends(
    alloc: Global,
    l: &Layout<'_>,
    next: u32,
    ty: TypeId,
    ways: &[Way],
) -> Result<Formula, AllocError>
    ensures { IfOk result (λ formula. formula ≡ formulas.are_at_ends next l.now.types ty ways.now) }
{
    let inner = later(next, 1)?;
    let live = is_live(alloc, l, inner, ty, next)?;
    let somewhere = or_list(alloc, inner, places(alloc, l, inner, next, ways)?)?;
    all1(alloc, next, imp(alloc, live, somewhere)?)
}
