//! Cells of a store with two destinations.

ghost use Rattle.std.specs.Prelude.{◌↔◌, ◌<◌, IsTrue, length, IfOk, IfNone, IfSome};
ghost use Rattle.std.specs.Bool.{OnTrue, OnFalse};
ghost use Rattle.routing_walks.specs.WellFormed.{IsFirstCell};
ghost use Rattle.graph_meaning.specs.Fields.Forking.{Forks, HasFork};

use routing_expr::destinations;
use std::alloc::{AllocError, Global};
use store_core::{CellId, CellList, FieldId, FieldKind, Store, TypeTable};

/// Whether there is more than one cell.
fn are_several(cells: &CellList) -> bool
    ensures { IsTrue result ↔ (1 < length cells.now) }
{
    cells.len() > 1
}

/// Whether the cell has the field, and two destinations for it.
fn is_fork(
    alloc: Global,
    types: &TypeTable,
    store: &Store,
    f: FieldId,
    c: CellId,
) -> Result<bool, AllocError>
    ensures forks { IfOk result (λ forked. OnTrue forked (Forks types.now store.now f c)) }
    ensures none { IfOk result (λ forked. OnFalse forked (Forks types.now store.now f c → ⊥)) }
{
    let Some(FieldKind::Pointer(target, route)) = types.kind(f) else {
        return Ok(false);
    };
    if store.field(c, f).is_none() {
        return Ok(false);
    }
    let cells = destinations(alloc, types, store, route, c, *target)?;
    Ok(are_several(&cells))
}

/// The cell with the least number that has two destinations for the field; `None` exactly where none has.
pub(crate) fn first_fork(
    alloc: Global,
    types: &TypeTable,
    store: &Store,
    f: FieldId,
) -> Result<Option<CellId>, AllocError>
    ensures none { IfOk result (λ found. IfNone found (HasFork types.now store.now f → ⊥)) }
    ensures some { IfOk result (λ found. IfSome found (IsFirstCell (Forks types.now store.now f))) }
{
    for place in 0..store.cells() {
        let Some(cell) = store.cell_at(place) else {
            unreachable!()
        };
        if is_fork(alloc, types, store, f, cell)? {
            return Ok(Some(cell));
        }
    }
    Ok(None)
}
