//! Cells that no data variable reaches, and pointer fields that are wrong, as formulas.

ghost use Rattle.std.specs.Prelude.{◌≡◌, ◌++◌, suc, flat_map, IfOk, OnOk};
ghost use Rattle.ws2s_core.specs.declared.formula.Formula.TheVariants.{And, Not, Sub};
ghost use Rattle.ws2s_forms.specs.Forms as forms;
ghost use Rattle.graph_view.specs.Cuts as formulas;
ghost use Rattle.graph_view.specs.Live as live;
ghost use Rattle.graph_view.specs.Routes as routes;
ghost use Rattle.graph_view.specs.Cuts.{has_value, wrong_parts};
ghost use Rattle.graph_view.specs.Sights.{sight_of};

use graph_cells::{Kinds, fields_of_kind, has, is_left, is_live};
use graph_routes::{destination, edge, names};
use graph_view::{Sym, View};
use std::alloc::{AllocError, Global};
use store_core::{FieldId, FieldKind, Route, TypeId};
use tree_encode::Layout;
use ws2s_core::{Formula, Track};
use ws2s_forms::{and_list, bound, ex1, iff, later, or_list};

/// The set on track `x` has each value that isn't null.
fn push_values(
    alloc: Global,
    parts: &mut Vec<Formula>,
    x: u32,
    values: &[Sym],
) -> Result<(), AllocError>
    ensures { OnOk result (parts.new.items ≡ parts.old.items ++ flat_map (has_value x) values.now) }
{
    for value in values {
        if let Sym::At(v) = value {
            parts.push(Formula::Sub(*v, Track(x)))?;
        }
    }
    Ok(())
}

/// No data field leads out of the set on track `x`.
fn is_closed(
    alloc: Global,
    l: &Layout<'_>,
    view: &View,
    next: u32,
    x: u32,
) -> Result<Formula, AllocError>
    ensures { IfOk result (λ formula. formula
        ≡ Not (routes.is_left (routes.edge l.now.types (sight_of l.now.vars view.now)) next x)) }
{
    let other = later(next, 1)?;
    let led = edge(alloc, l, view, later(next, 2)?, next, other)?;
    let left = is_left(alloc, next, x, led)?;
    Formula::not(alloc, left)
}

/// The set on track `x` has these values and all that data fields reach from it.
///
/// # Errors
///
/// Want of memory, also where there are not as many tracks.
pub fn closes(
    alloc: Global,
    l: &Layout<'_>,
    view: &View,
    next: u32,
    values: &[Sym],
    x: u32,
) -> Result<Formula, AllocError>
    ensures { IfOk result (λ formula. formula ≡ formulas.closes l.now.types (sight_of l.now.vars view.now) values.now next x) }
{
    let mut parts = Vec::new(alloc);
    push_values(alloc, &mut parts, x, values)?;
    parts.push(is_closed(alloc, l, view, next, x)?)?;
    and_list(alloc, next, parts)
}

/// Some live cell, on track `cell`, isn't in the set on track `x`.
fn some_outside(
    alloc: Global,
    l: &Layout<'_>,
    view: &View,
    cell: u32,
    x: u32,
) -> Result<Formula, AllocError>
    ensures { IfOk result (λ formula. formula ≡ forms.ex1 cell (And
        (live.is_live l.now.types (sight_of l.now.vars view.now) (suc cell) cell) (Not (Sub (forms.track cell) (forms.track x))))) }
{
    let live = is_live(alloc, l, view, later(cell, 1)?, cell)?;
    let outside = Formula::not(alloc, Formula::Sub(Track(cell), Track(x)))?;
    ex1(alloc, cell, Formula::and(alloc, live, outside)?)
}

/// Some live cell is outside a set that has these values and all that data fields reach from it.
pub(crate) fn leaks(
    alloc: Global,
    l: &Layout<'_>,
    view: &View,
    next: u32,
    values: &[Sym],
) -> Result<Formula, AllocError>
    ensures { IfOk result (λ formula. formula ≡ formulas.leaks l.now.types (sight_of l.now.vars view.now) values.now next) }
{
    let cell = later(next, 1)?;
    let closed = closes(alloc, l, view, cell, values, next)?;
    let lost = some_outside(alloc, l, view, cell, next)?;
    bound(alloc, next, closed, lost)
}

/// The cell on track `b` is what the pointer field of that on track `a` names, and no destination of it, or the other way.
fn is_misled(
    alloc: Global,
    l: &Layout<'_>,
    view: &View,
    next: u32,
    f: FieldId,
    target: TypeId,
    along: &Route,
    a: u32,
    b: u32,
) -> Result<Formula, AllocError>
    ensures { IfOk result (λ formula. formula ≡ Not (forms.iff
        (routes.names l.now.types (sight_of l.now.vars view.now) next f a b)
        (routes.destination l.now.types (sight_of l.now.vars view.now) next f target along.now a b))) }
{
    let named = names(alloc, l, view, next, f, a, b)?;
    let led = destination(alloc, l, view, next, f, target, along, a, b)?;
    let same = iff(alloc, named, led)?;
    Formula::not(alloc, same)
}

/// The same of some cell, on track `next`.
fn misleads(
    alloc: Global,
    l: &Layout<'_>,
    view: &View,
    next: u32,
    f: FieldId,
    target: TypeId,
    along: &Route,
    a: u32,
) -> Result<Formula, AllocError>
    ensures { IfOk result (λ formula. formula ≡ forms.ex1 next (Not (forms.iff
        (routes.names l.now.types (sight_of l.now.vars view.now) (suc next) f a next)
        (routes.destination l.now.types (sight_of l.now.vars view.now) (suc next) f target along.now a next)))) }
{
    let misled = is_misled(alloc, l, view, later(next, 1)?, f, target, along, a, next)?;
    ex1(alloc, next, misled)
}

/// The pointer field of some cell names another cell than its destinations.
fn is_wrong(
    alloc: Global,
    l: &Layout<'_>,
    view: &View,
    next: u32,
    f: FieldId,
    target: TypeId,
    along: &Route,
) -> Result<Formula, AllocError>
    ensures { IfOk result (λ formula. formula
        ≡ formulas.is_wrong l.now.types (sight_of l.now.vars view.now) next f target along.now) }
{
    let other = later(next, 1)?;
    let owned = has(alloc, l, view, other, f, next)?;
    let misled = misleads(alloc, l, view, other, f, target, along, next)?;
    ex1(alloc, next, Formula::and(alloc, owned, misled)?)
}

/// The same, if the field is a pointer field.
fn push_wrong(
    alloc: Global,
    parts: &mut Vec<Formula>,
    l: &Layout<'_>,
    view: &View,
    next: u32,
    f: FieldId,
) -> Result<(), AllocError>
    ensures { OnOk result (parts.new.items ≡ parts.old.items ++ wrong_parts l.now.types (sight_of l.now.vars view.now) next f) }
{
    if let Some(FieldKind::Pointer(target, along)) = l.types().kind(f) {
        parts.push(is_wrong(alloc, l, view, next, f, *target, along)?)?;
    }
    Ok(())
}

/// The same of each of the fields.
fn each_wrong(
    alloc: Global,
    l: &Layout<'_>,
    view: &View,
    next: u32,
    fields: &[FieldId],
) -> Result<Vec<Formula>, AllocError>
    ensures { IfOk result (λ parts. parts.items ≡ flat_map (wrong_parts l.now.types (sight_of l.now.vars view.now) next) fields.now) }
{
    let mut parts = Vec::new(alloc);
    for f in fields {
        push_wrong(alloc, &mut parts, l, view, next, *f)?;
    }
    Ok(parts)
}

/// Some pointer field is wrong.
pub(crate) fn fields_are_wrong(
    alloc: Global,
    l: &Layout<'_>,
    view: &View,
    next: u32,
) -> Result<Formula, AllocError>
    ensures { IfOk result (λ formula. formula ≡ formulas.fields_are_wrong l.now.types (sight_of l.now.vars view.now) next) }
{
    let fields = fields_of_kind(alloc, l.types(), Kinds::References)?;
    or_list(
        alloc,
        next,
        each_wrong(alloc, l, view, next, fields.as_slice())?,
    )
}
