//! Live cells after heap events.

ghost use Rattle.std.specs.Prelude.{◌≡◌, map, reverse, IfOk};
ghost use Rattle.tree_formula.specs.WellEncoded.{types_in, variants_of};
ghost use Rattle.ws2s_core.specs.declared.formula.Formula.TheVariants.{Not};
ghost use Rattle.graph_view.specs.Live as formulas;
ghost use Rattle.graph_view.specs.Sights.{var_slots, sight_of};

use crate::slots::{is_variant, live_track, owner, var_slots};
use crate::syms::{guard, is_in, is_unchanged};
use graph_view::{Event, Sym, View};
use std::alloc::{AllocError, Global};
use store_core::{FieldId, TypeId, VariantId};
use tree_encode::Layout;
use ws2s_core::{Formula, Track};
use ws2s_forms::{ex1, later, or, or_list, slot};

/// A position is the slot of a new cell, if the event is taken.
fn is_made(
    alloc: Global,
    l: &Layout<'_>,
    next: u32,
    a: u32,
    taken: Option<Track>,
    number: u32,
) -> Result<Formula, AllocError>
    ensures { IfOk result (λ formula. formula ≡ formulas.is_made next (var_slots l.now.vars) a taken number) }
{
    let taken = guard(alloc, next, taken)?;
    let place = later(var_slots(l.vars()), number)?;
    let here = slot(alloc, next, place, Track(a))?;
    Formula::and(alloc, taken, here)
}

/// What one event makes of the formula of a variant's live cells.
fn live_after(
    alloc: Global,
    l: &Layout<'_>,
    next: u32,
    v: VariantId,
    a: u32,
    event: Event,
    earlier: Formula,
) -> Result<Formula, AllocError>
    ensures { IfOk result (λ formula. formula ≡ formulas.live_after next (var_slots l.now.vars) v a event earlier) }
{
    match event {
        Event::New(taken, number, made) => {
            if !is_variant(v, made) {
                return Ok(earlier);
            }
            let new = is_made(alloc, l, next, a, taken, number)?;
            or(alloc, earlier, new)
        }
        Event::Write(_, _, _, _) => Ok(earlier),
        Event::Free(taken, cell) => {
            let kept = is_unchanged(alloc, next, a, taken, cell)?;
            Formula::and(alloc, earlier, kept)
        }
    }
}

/// A position has a live cell of a variant after all events.
fn live_of(
    alloc: Global,
    l: &Layout<'_>,
    view: &View,
    next: u32,
    v: VariantId,
    a: u32,
) -> Result<Formula, AllocError>
    ensures { IfOk result (λ formula. formula ≡ formulas.live_of l.now.types next (var_slots l.now.vars) v a (reverse view.now.events)) }
{
    let mut formula = Formula::Sub(Track(a), live_track(l, v));
    for event in view.events.as_slice() {
        formula = live_after(alloc, l, next, v, a, *event, formula)?;
    }
    Ok(formula)
}

/// The formula of cells, and that they are of the region.
fn in_region(
    alloc: Global,
    a: u32,
    region: Option<(Track, bool)>,
    formula: Formula,
) -> Result<Formula, AllocError>
    ensures { IfOk result (λ whole. whole ≡ formulas.in_region a region formula) }
{
    match region {
        None => Ok(formula),
        Some((part, true)) => Formula::and(alloc, formula, Formula::Sub(Track(a), part)),
        Some((part, false)) => {
            let outside = Formula::not(alloc, Formula::Sub(Track(a), part))?;
            Formula::and(alloc, formula, outside)
        }
    }
}

/// A position has a live cell of a variant, of the view's region.
///
/// # Errors
///
/// Want of memory, also where there are not as many tracks.
pub fn lives(
    alloc: Global,
    l: &Layout<'_>,
    view: &View,
    next: u32,
    v: VariantId,
    a: u32,
) -> Result<Formula, AllocError>
    ensures { IfOk result (λ formula. formula ≡ formulas.lives l.now.types (sight_of l.now.vars view.now) next v a) }
{
    let live = live_of(alloc, l, view, next, v, a)?;
    in_region(alloc, a, view.region, live)
}

/// The same for each variant of a type.
fn of_each(
    alloc: Global,
    l: &Layout<'_>,
    view: &View,
    next: u32,
    ty: TypeId,
    a: u32,
) -> Result<Vec<Formula>, AllocError>
    ensures { IfOk result (λ parts. parts.items
        ≡ map (λ v. formulas.lives l.now.types (sight_of l.now.vars view.now) next v a) (variants_of l.now.types ty)) }
{
    let mut parts = Vec::new(alloc);
    for index in 0..l.types().variants(ty) {
        parts.push(lives(alloc, l, view, next, VariantId { ty, index }, a)?)?;
    }
    Ok(parts)
}

/// A position has a live cell of a type.
///
/// # Errors
///
/// Want of memory, also where there are not as many tracks.
pub fn lives_in(
    alloc: Global,
    l: &Layout<'_>,
    view: &View,
    next: u32,
    ty: TypeId,
    a: u32,
) -> Result<Formula, AllocError>
    ensures { IfOk result (λ formula. formula ≡ formulas.lives_in l.now.types (sight_of l.now.vars view.now) next ty a) }
{
    match l.types().unnamed(ty) {
        Some(v) => lives(alloc, l, view, next, v, a),
        None => or_list(alloc, next, of_each(alloc, l, view, next, ty, a)?),
    }
}

/// A position has a live cell that has a field.
///
/// # Errors
///
/// Want of memory, also where there are not as many tracks.
pub fn has(
    alloc: Global,
    l: &Layout<'_>,
    view: &View,
    next: u32,
    f: FieldId,
    a: u32,
) -> Result<Formula, AllocError>
    ensures { IfOk result (λ formula. formula ≡ formulas.has l.now.types (sight_of l.now.vars view.now) next f a) }
{
    match owner(l, f) {
        Some(v) => lives(alloc, l, view, next, v, a),
        None => lives_in(alloc, l, view, next, f.ty, a),
    }
}

/// A position has a live cell of each type.
fn in_each(
    alloc: Global,
    l: &Layout<'_>,
    view: &View,
    next: u32,
    a: u32,
) -> Result<Vec<Formula>, AllocError>
    ensures { IfOk result (λ parts. parts.items
        ≡ map (λ ty. formulas.lives_in l.now.types (sight_of l.now.vars view.now) next ty a) (types_in l.now.types)) }
{
    let mut parts = Vec::new(alloc);
    for index in 0..l.types().types() {
        parts.push(lives_in(alloc, l, view, next, TypeId(index), a)?)?;
    }
    Ok(parts)
}

/// A position has a live cell.
///
/// # Errors
///
/// Want of memory, also where there are not as many tracks.
pub fn is_live(
    alloc: Global,
    l: &Layout<'_>,
    view: &View,
    next: u32,
    a: u32,
) -> Result<Formula, AllocError>
    ensures { IfOk result (λ formula. formula ≡ formulas.is_live l.now.types (sight_of l.now.vars view.now) next a) }
{
    or_list(alloc, next, in_each(alloc, l, view, next, a)?)
}

/// A position has no live cell.
///
/// # Errors
///
/// Want of memory, also where there are not as many tracks.
pub fn is_not_live(
    alloc: Global,
    l: &Layout<'_>,
    view: &View,
    next: u32,
    a: u32,
) -> Result<Formula, AllocError>
    ensures { IfOk result (λ formula. formula ≡ Not (formulas.is_live l.now.types (sight_of l.now.vars view.now) next a)) }
{
    let live = is_live(alloc, l, view, next, a)?;
    Formula::not(alloc, live)
}

/// The value is a dead cell.
///
/// # Errors
///
/// Want of memory, also where there are not as many tracks.
pub fn is_dead(
    alloc: Global,
    l: &Layout<'_>,
    view: &View,
    next: u32,
    value: Sym,
) -> Result<Formula, AllocError>
    ensures { IfOk result (λ formula. formula ≡ formulas.is_dead l.now.types (sight_of l.now.vars view.now) next value) }
{
    let inner = later(next, 1)?;
    let named = is_in(alloc, inner, next, value)?;
    let dead = is_not_live(alloc, l, view, inner, next)?;
    ex1(alloc, next, Formula::and(alloc, named, dead)?)
}
