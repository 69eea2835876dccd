//! The way down the tree of a store.

ghost use Rattle.std.specs.Prelude.{◌≡◌, ◌+◌};
ghost use Rattle.std.specs.Option.{option_copied};
ghost use Rattle.tree_store.specs.Spots as spots;
ghost use Rattle.tree_store.specs.Spots.{named_cell, number_after, spot_after, cell_below};

use crate::rows::{Row, Rows};
use store_core::{CellId, Store, Value};

/// A node of the tree of a store: the slot with a number, or the child with a number of a cell. The first slot's is the root,
/// and the first child's is the cell's own.
#[derive(Clone, Copy)]
pub(crate) enum Spot {
    Slot(usize),
    Child(CellId, usize),
}

/// The live cell that a value names.
fn named_cell(store: &Store, value: Option<&Value>) -> Option<CellId>
    ensures { result ≡ named_cell store.now (option_copied value.entry) }
{
    let Some(Value::Cell(Some(cell))) = value else {
        return None;
    };
    if store.type_of(*cell).is_some() {
        Some(*cell)
    } else {
        None
    }
}

/// The row of a cell's type.
pub(crate) fn row_of<'a>(rows: &'a Rows, store: &Store, cell: CellId) -> Option<&'a Row>
    ensures { option_copied result ≡ spots.row_of rows.now store.now cell }
{
    let ty = store.type_of(cell)?;
    rows.types.get(ty.0 as usize)
}

/// The cell that a variable of a slot names.
fn cell_at_slot(rows: &Rows, store: &Store, slot: usize) -> Option<CellId>
    ensures { result ≡ cell_below rows.now store.now (Spot.Slot slot) }
{
    let var = rows.slots.get(slot)?;
    named_cell(store, store.var(*var))
}

/// The cell that a data field of a cell names.
fn cell_at_child(rows: &Rows, store: &Store, cell: CellId, number: usize) -> Option<CellId>
    ensures { result ≡ cell_below rows.now store.now (Spot.Child cell number) }
{
    let row = row_of(rows, store, cell)?;
    let field = row.children.get(number)?;
    named_cell(store, store.field(cell, *field))
}

/// The cell at the 0-child of a spot.
pub(crate) fn cell_below(rows: &Rows, store: &Store, spot: Spot) -> Option<CellId>
    ensures { result ≡ cell_below rows.now store.now spot }
{
    match spot {
        Spot::Slot(slot) => cell_at_slot(rows, store, slot),
        Spot::Child(cell, number) => cell_at_child(rows, store, cell, number),
    }
}

/// The number after this one, among so many.
fn number_after(number: usize, count: usize) -> Option<usize>
    ensures { result ≡ number_after number count }
{
    if number < count.saturating_sub(1) {
        Some(number + 1)
    } else {
        None
    }
}

/// The spot at the 1-child of a spot.
pub(crate) fn spot_after(rows: &Rows, store: &Store, spot: Spot) -> Option<Spot>
    ensures { result ≡ spot_after rows.now store.now spot }
{
    match spot {
        Spot::Slot(slot) => Some(Spot::Slot(number_after(slot, rows.slots.len())?)),
        Spot::Child(cell, number) => {
            let row = row_of(rows, store, cell)?;
            Some(Spot::Child(cell, number_after(number, row.children.len())?))
        }
    }
}
