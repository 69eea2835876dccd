//! What the pointer fields of a store have to hold.

ghost use Rattle.std.specs.Prelude.{◌≡◌, ◌↔◌, Some, IfOk, OnOk, IsTrue, Contains};
ghost use Rattle.store_core.specs.declared.ids.CellId.{CellId};
ghost use Rattle.store_core.specs.CellLists.{AreRising};
ghost use Rattle.routing_walks.specs.Walks.{DataAlone, IsOfType};
ghost use Rattle.routing_walks.specs.Gathering.{Gathers, HasAll};
ghost use Rattle.witness_store.specs.declared.finding.Pointing.{Pointing};
ghost use Rattle.witness_store.specs.Only.{IsOnlyCell};
ghost use Rattle.witness_store.specs.PointerFinding.{IsPointing};

use routing_expr::{Followed, Walker};
use std::alloc::{AllocError, Global};
use store_core::{CellId, FieldId, FieldKind, Store, TypeId, TypeTable};

/// What a pointer field of a cell has to hold.
#[derive(Clone, Copy)]
pub(crate) struct Pointing {
    pub cell: CellId,
    pub field: FieldId,
    pub to: Option<CellId>,
}

fn is_of_type(store: &Store, cell: CellId, target: TypeId) -> bool
    ensures { IsTrue result ↔ IsOfType store.now target cell }
{
    match store.type_of(cell) {
        Some(ty) => ty == target,
        None => false,
    }
}

/// The only cell of the list that is live and of the type; `None` where there is none, and where there are several.
fn only_of_type(store: &Store, cells: &[CellId], target: TypeId) -> Option<CellId>
    requires { AreRising cells.now }
    ensures { IsOnlyCell (λ d. Contains cells.now d × IsOfType store.now target d) result }
{
    let mut only = None;
    for cell in cells {
        if is_of_type(store, *cell, target) {
            if only.is_some() {
                return None;
            }
            only = Some(*cell);
        }
    }
    only
}

/// What the field has to hold, if it is a pointer field and the cell has it.
fn pointing_at(
    types: &TypeTable,
    store: &Store,
    walker: &Walker<'_>,
    cell: CellId,
    field: FieldId,
) -> Result<Option<Pointing>, AllocError>
    requires { walker.now ≡ record { types = types.now; store = store.now; fields = DataAlone } }
    ensures { IfOk result (λ found. (x : Pointing) →
        (found ≡ Some x) ↔ ((x.cell ≡ cell) × (x.field ≡ field) × IsPointing types.now store.now x)) }
{
    let Some(FieldKind::Pointer(target, route)) = types.kind(field) else {
        return Ok(None);
    };
    if store.field(cell, field).is_none() {
        return Ok(None);
    }
    let cells = walker.ends(route, cell)?;
    let to = only_of_type(store, cells.as_slice(), *target);
    Ok(Some(Pointing { cell, field, to }))
}

/// Adds what the pointer fields of a cell have to hold.
fn push_pointings(
    found: &mut Vec<Pointing>,
    types: &TypeTable,
    store: &Store,
    walker: &Walker<'_>,
    cell: CellId,
) -> Result<(), AllocError>
    requires { walker.now ≡ record { types = types.now; store = store.now; fields = DataAlone } }
    ensures { OnOk result (Gathers found.old.items found.new.items (λ x. (x.cell ≡ cell) × IsPointing types.now store.now x)) }
{
    let Some(ty) = store.type_of(cell) else {
        return Ok(());
    };
    for index in 0..types.fields(ty) {
        let field = FieldId { ty, index };
        if let Some(pointing) = pointing_at(types, store, walker, cell, field)? {
            found.push(pointing)?;
        }
    }
    Ok(())
}

/// What the pointer fields of all live cells have to hold.
pub(crate) fn find_pointings(
    alloc: Global,
    types: &TypeTable,
    store: &Store,
) -> Result<Vec<Pointing>, AllocError>
    ensures { IfOk result (λ found. HasAll found.items (IsPointing types.now store.now)) }
{
    let walker = Walker::new(alloc, types, store, Followed::Data)?;
    let mut found = Vec::new(alloc);
    for place in 0..store.cells() {
        let Some(cell) = store.cell_at(place) else {
            unreachable!()
        };
        push_pointings(&mut found, types, store, &walker, cell)?;
    }
    Ok(found)
}
