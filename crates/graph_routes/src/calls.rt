//! The formulas of cells, fields and walks, between tracks.

ghost use Rattle.std.specs.Prelude.{◌≡◌, IfOk};
ghost use Rattle.graph_view.specs.Fields as fields;
ghost use Rattle.graph_view.specs.Live as live;
ghost use Rattle.graph_view.specs.Routes as routes;
ghost use Rattle.graph_view.specs.Sights.{sight_of};

use crate::naming::{data_walk, names};
use crate::walks::walk;
use graph_cells::{is_true, lives, lives_in};
use graph_view::View;
use std::alloc::{AllocError, Global};
use store_core::{FieldId, Route, TypeId, VariantId};
use tree_encode::Layout;
use ws2s_core::{Formula, Track};

/// The position on the track has a live cell of the type, of the view's region.
///
/// # Errors
///
/// Want of memory, also where there are not as many tracks.
pub fn live_formula(
    alloc: Global,
    l: &Layout<'_>,
    v: &View,
    ty: TypeId,
    cell: Track,
    next: u32,
) -> Result<Formula, AllocError>
    ensures value { IfOk result (λ formula. formula ≡ live.lives_in l.now.types (sight_of l.now.vars v.now) next ty cell.0) }
{
    lives_in(alloc, l, v, next, ty, cell.0)
}

/// The position on the track has a live cell of the variant, of the view's region.
///
/// # Errors
///
/// Want of memory, also where there are not as many tracks.
pub fn variant_formula(
    alloc: Global,
    l: &Layout<'_>,
    v: &View,
    variant: VariantId,
    cell: Track,
    next: u32,
) -> Result<Formula, AllocError>
    ensures value { IfOk result (λ formula. formula ≡ live.lives l.now.types (sight_of l.now.vars v.now) next variant cell.0) }
{
    lives(alloc, l, v, next, variant, cell.0)
}

/// The bool field of the cell on the track is true.
///
/// # Errors
///
/// Want of memory, also where there are not as many tracks.
pub fn bool_formula(
    alloc: Global,
    l: &Layout<'_>,
    v: &View,
    f: FieldId,
    cell: Track,
    next: u32,
) -> Result<Formula, AllocError>
    ensures value { IfOk result (λ formula. formula ≡ fields.is_true l.now.types (sight_of l.now.vars v.now) next f cell.0) }
{
    is_true(alloc, l, v, next, f, cell.0)
}

/// The cell field of the cell on track `from` names the cell on track `to`.
///
/// # Errors
///
/// Want of memory, also where there are not as many tracks.
pub fn step_formula(
    alloc: Global,
    l: &Layout<'_>,
    v: &View,
    f: FieldId,
    from: Track,
    to: Track,
    next: u32,
) -> Result<Formula, AllocError>
    ensures value { IfOk result (λ formula. formula ≡ routes.names l.now.types (sight_of l.now.vars v.now) next f from.0 to.0) }
{
    names(alloc, l, v, next, f, from.0, to.0)
}

/// The route leads from the cell on track `from` to that on track `to`, over data fields, and over pointer fields if they count.
///
/// # Errors
///
/// Want of memory, also where there are not as many tracks.
pub fn walk_formula(
    alloc: Global,
    l: &Layout<'_>,
    v: &View,
    route: &Route,
    pointers: bool,
    from: Track,
    to: Track,
    next: u32,
) -> Result<Formula, AllocError>
    ensures value { IfOk result (λ formula. formula
        ≡ routes.walk_over l.now.types (sight_of l.now.vars v.now) pointers route.now next from.0 to.0) }
{
    if pointers {
        walk(alloc, l, v, route, next, from.0, to.0)
    } else {
        data_walk(alloc, l, v, route, next, from.0, to.0)
    }
}
