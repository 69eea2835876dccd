//! The places of a store: its variables and the fields that its live cells have, in order.

ghost use Rattle.std.specs.Prelude.{◌≡◌, ◌⊎◌, length, Contains, IfOk, OnOk, IfSome};
ghost use Rattle.std.specs.List.{AllPairs};
ghost use Rattle.std.specs.Option.{option_copied};
ghost use Rattle.store_core.specs.declared.ids.CellId.{CellId};
ghost use Rattle.store_core.specs.Stores.{cell_of, CellFits, Fits};
ghost use Rattle.routing_walks.specs.declared.fault.Place.{Place};
ghost use Rattle.routing_walks.specs.declared.fault.Place.TheVariants as place;
ghost use Rattle.routing_walks.specs.WellFormed as wf;
ghost use Rattle.routing_walks.specs.WellFormed.{ComesBefore, IsThere};
ghost use Rattle.routing_expr.specs.Places.{ArePlaces, IsListing, IsVarBelow, IsFieldOf, ComesBeforeCell};

use routing_walks::Place;
use std::alloc::{AllocError, Global};
use store_core::{CellId, FieldId, Store, TypeTable, Value, VarId, VarTable};

/// The value at a place; `None` exactly where no variable and no field of a live cell is there. Takes no memory.
pub(crate) fn value_at(store: &Store, place: Place) -> Option<&Value>
    ensures { option_copied result ≡ wf.value_at store.now place }
{
    match place {
        Place::Var(v) => store.var(v),
        Place::Field(c, f) => store.field(c, f),
    }
}

/// The variables in order.
fn list_vars(alloc: Global, vars: &VarTable) -> Result<Vec<Place>, AllocError>
    ensures { IfOk result (λ places. IsListing (IsVarBelow (length vars.now)) places.items) }
{
    let mut places = Vec::new(alloc);
    for index in 0..vars.vars() {
        places.push(Place::Var(VarId(index)))?;
    }
    Ok(places)
}

/// Adds the field, if the cell is live and has it. All places so far come before it.
fn add_field(
    places: &mut Vec<Place>,
    store: &Store,
    cell: CellId,
    field: FieldId,
) -> Result<(), AllocError>
    requires in_order { AllPairs ComesBefore places.old.items }
    requires before { (p : Place) → Contains places.old.items p → ComesBefore p (place.Field cell field) }
    ensures { OnOk result (IsListing (λ p. Contains places.old.items p ⊎ ((p ≡ place.Field cell field) × IsThere store.now p)) places.new.items) }
{
    if store.field(cell, field).is_some() {
        places.push(Place::Field(cell, field))?;
    }
    Ok(())
}

/// Adds the fields that the cell has, in order, if it is live. All places so far come before them.
fn add_fields(
    places: &mut Vec<Place>,
    types: &TypeTable,
    store: &Store,
    cell: CellId,
) -> Result<(), AllocError>
    requires fits { (c : CellId) → IfSome (cell_of store.now c) (CellFits types.now store.now) }
    requires in_order { AllPairs ComesBefore places.old.items }
    requires before { (p : Place) → Contains places.old.items p → ComesBeforeCell cell p }
    ensures { OnOk result (IsListing (λ p. Contains places.old.items p ⊎ (IsFieldOf cell p × IsThere store.now p)) places.new.items) }
{
    let Some(ty) = store.type_of(cell) else {
        return Ok(());
    };
    for index in 0..types.fields(ty) {
        add_field(places, store, cell, FieldId { ty, index })?;
    }
    Ok(())
}

/// All places of a store, in order: the variables, then by the cells' numbers the fields in order.
pub(crate) fn list_places(
    alloc: Global,
    types: &TypeTable,
    vars: &VarTable,
    store: &Store,
) -> Result<Vec<Place>, AllocError>
    requires { Fits types.now vars.now store.now }
    ensures { IfOk result (λ places. ArePlaces store.now places.items) }
{
    let mut places = list_vars(alloc, vars)?;
    for place in 0..store.cells() {
        let Some(cell) = store.cell_at(place) else {
            unreachable!()
        };
        add_fields(&mut places, types, store, cell)?;
    }
    Ok(places)
}
