//! Pointer fields that aren't the only destination of their cell.

ghost use Rattle.std.specs.Prelude.{◌≡◌, ◌↔◌, IsTrue, IfOk, IfNone, IfSome};
ghost use Rattle.std.specs.Bool.{OnTrue, OnFalse};
ghost use Rattle.store_core.specs.declared.ids.CellId.{CellId};
ghost use Rattle.store_core.specs.declared.ids.FieldId.{FieldId};
ghost use Rattle.routing_walks.specs.WellFormed.{IsWrongField, IsWrongPlace, IsFirstPlace, IsRightField};
ghost use Rattle.routing_expr.specs.declared.followed.Followed.TheVariants as followed;
ghost use Rattle.routing_expr.specs.Searches.{IsIndexed};
ghost use Rattle.routing_expr.specs.Places.{ArePlaces};
ghost use Rattle.routing_expr.specs.Judging.{IsOnly, IsRightPlace};

use crate::followed::Followed;
use crate::search::Search;
use routing_walks::Place;
use std::alloc::AllocError;
use store_core::{CellId, FieldId, FieldKind, Value};

/// Whether the value is the only cell of the list, or null where the list is empty. Takes no memory.
fn is_only(value: &Value, cells: &[CellId]) -> bool
    ensures { IsTrue result ↔ IsOnly cells.now value.now }
{
    match value {
        Value::Cell(None) => cells.is_empty(),
        Value::Cell(Some(cell)) => match cells {
            [only] => cell == only,
            _ => false,
        },
        Value::Bool(_) | Value::Cells(_) => false,
    }
}

/// Whether the field is a pointer field that the cell has, and isn't its only destination, nor null where there is none.
fn is_wrong_field(search: &Search, c: CellId, f: FieldId) -> Result<bool, AllocError>
    requires indexed { IsIndexed search.now }
    requires followed { search.now.followed ≡ Followed.Data }
    ensures wrong { IfOk result (λ wrong. OnTrue wrong (IsWrongField search.now.types.now search.now.store.now c f)) }
    ensures right { IfOk result (λ wrong. OnFalse wrong (IsRightField search.now.types.now search.now.store.now c f)) }
{
    let Some(FieldKind::Pointer(target, route)) = search.types.kind(f) else {
        return Ok(false);
    };
    let Some(value) = search.store.field(c, f) else {
        return Ok(false);
    };
    let destinations = search.destinations(route, c, *target)?;
    Ok(!is_only(value, destinations.as_slice()))
}

/// The same of a place that is a field.
fn is_wrong_place(search: &Search, place: Place) -> Result<bool, AllocError>
    requires indexed { IsIndexed search.now }
    requires followed { search.now.followed ≡ Followed.Data }
    ensures wrong { IfOk result (λ wrong. OnTrue wrong (IsWrongPlace search.now.types.now search.now.store.now place)) }
    ensures right { IfOk result (λ wrong. OnFalse wrong (IsRightPlace search.now.types.now search.now.store.now place)) }
{
    match place {
        Place::Var(_) => Ok(false),
        Place::Field(c, f) => is_wrong_field(search, c, f),
    }
}

/// The first pointer field that isn't the only destination of its cell, nor null where there is none; `None` exactly where each
/// is right.
pub(crate) fn first_wrong_place(
    search: &Search,
    places: &[Place],
) -> Result<Option<Place>, AllocError>
    requires indexed { IsIndexed search.now }
    requires followed { search.now.followed ≡ Followed.Data }
    requires places { ArePlaces search.now.store.now places.now }
    ensures none { IfOk result (λ found. IfNone found ((c : CellId) (f : FieldId) → IsRightField search.now.types.now search.now.store.now c f)) }
    ensures some { IfOk result (λ found. IfSome found (IsFirstPlace (IsWrongPlace search.now.types.now search.now.store.now))) }
{
    for place in places {
        if is_wrong_place(search, *place)? {
            return Ok(Some(*place));
        }
    }
    Ok(None)
}
