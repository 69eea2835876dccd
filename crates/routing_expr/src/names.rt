//! Which cell a data variable or a data field names.

ghost use Rattle.std.specs.Prelude.{◌≡◌, ◌↔◌, Some, IsTrue};
ghost use Rattle.store_core.specs.declared.ids.CellId.{CellId};
ghost use Rattle.routing_walks.specs.WellFormed.{IsDataPlace, Names};

use crate::places::value_at;
use routing_walks::Place;
use store_core::{CellId, FieldKind, Store, TypeTable, Value, VarKind, VarTable};

/// Whether the place is a data variable or a data field. Takes no memory.
fn is_data_place(types: &TypeTable, vars: &VarTable, place: Place) -> bool
    ensures { IsTrue result ↔ IsDataPlace types.now vars.now place }
{
    match place {
        Place::Var(v) => matches!(vars.kind(v), Some(VarKind::Data(_))),
        Place::Field(_, f) => matches!(types.kind(f), Some(FieldKind::Data(_))),
    }
}

/// The cell that a data variable or a data field names, live or not; `None` exactly where the place is neither, isn't there or
/// holds null. Takes no memory.
pub(crate) fn named_cell(
    types: &TypeTable,
    vars: &VarTable,
    store: &Store,
    place: Place,
) -> Option<CellId>
    ensures { (c : CellId) → Names types.now vars.now store.now place c ↔ (result ≡ Some c) }
{
    if !is_data_place(types, vars, place) {
        return None;
    }
    match value_at(store, place)? {
        Value::Cell(cell) => *cell,
        Value::Bool(_) | Value::Cells(_) => None,
    }
}
