//! References to cells that aren't live.

ghost use Rattle.std.specs.Prelude.{◌≡◌, ◌↔◌, None, IsTrue, IfNone, IfSome, Any};
ghost use Rattle.store_core.specs.Stores.{cell_of};
ghost use Rattle.routing_walks.specs.declared.fault.Place.{Place};
ghost use Rattle.std.specs.Bool.{OnTrue, OnFalse};
ghost use Rattle.routing_walks.specs.WellFormed.{NamesDead, IsDanglingReference, IsDangling, IsFirstPlace};
ghost use Rattle.routing_walks.specs.CutFaults.{HasDanglingReference};
ghost use Rattle.routing_expr.specs.Places.{ArePlaces, HasDead};

use crate::places::value_at;
use routing_walks::Place;
use store_core::{CellId, Store, Value};

/// Whether the cell isn't live. Takes no memory.
fn is_dead(store: &Store, cell: CellId) -> bool
    ensures { IsTrue result ↔ (cell_of store.now cell ≡ None) }
{
    store.type_of(cell).is_none()
}

/// Whether a set holds a dead cell. Takes no memory.
fn holds_dead(store: &Store, cells: &[CellId]) -> bool
    ensures { IsTrue result ↔ Any (λ cell. cell_of store.now cell ≡ None) cells.now }
{
    for cell in cells {
        if is_dead(store, *cell) {
            return true;
        }
    }
    false
}

/// Whether a value names a dead cell or is a set that holds one. Takes no memory.
fn is_dangling(store: &Store, value: &Value) -> bool
    ensures { IsTrue result ↔ HasDead store.now value.now }
{
    match value {
        Value::Bool(_) | Value::Cell(None) => false,
        Value::Cell(Some(cell)) => is_dead(store, *cell),
        Value::Cells(cells) => holds_dead(store, cells.as_slice()),
    }
}

/// Whether a value names a dead cell. Takes no memory.
fn names_dead(store: &Store, value: &Value) -> bool
    ensures { IsTrue result ↔ NamesDead store.now value.now }
{
    match value {
        Value::Bool(_) | Value::Cell(None) | Value::Cells(_) => false,
        Value::Cell(Some(cell)) => is_dead(store, *cell),
    }
}

/// Whether a place that isn't a logic set names a dead cell. Takes no memory.
fn refers_to_dead(store: &Store, place: Place) -> bool
    ensures { IsTrue result ↔ IsDanglingReference store.now place }
{
    match value_at(store, place) {
        None => false,
        Some(value) => names_dead(store, value),
    }
}

/// Whether some place that isn't a logic set names a dead cell. Takes no memory.
pub(crate) fn has_dangling_reference(store: &Store, places: &[Place]) -> bool
    requires { ArePlaces store.now places.now }
    ensures some { OnTrue result (HasDanglingReference store.now) }
    ensures none { OnFalse result ((p : Place) → IsDanglingReference store.now p → ⊥) }
{
    for place in places {
        if refers_to_dead(store, *place) {
            return true;
        }
    }
    false
}

/// Whether a place holds a dead cell. Takes no memory.
fn dangles(store: &Store, place: Place) -> bool
    ensures { IsTrue result ↔ IsDangling store.now place }
{
    match value_at(store, place) {
        None => false,
        Some(value) => is_dangling(store, value),
    }
}

/// The first place that holds a dead cell. Takes no memory.
pub(crate) fn first_dangling(store: &Store, places: &[Place]) -> Option<Place>
    requires { ArePlaces store.now places.now }
    ensures none { IfNone result ((p : Place) → IsDangling store.now p → ⊥) }
    ensures some { IfSome result (IsFirstPlace (IsDangling store.now)) }
{
    for place in places {
        if dangles(store, *place) {
            return Some(*place);
        }
    }
    None
}
