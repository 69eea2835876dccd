//! Automata whose states stand in a grid.

ghost use Rattle.std.specs.Prelude.{◌≡◌, ◌<◌, ◌≤◌, ◌*◌, ◌/◌, ◌%◌, ◌^◌, [], ◌∷◌, IfOk, length};
ghost use Rattle.gta_core.specs.Auto.{IsAuto};
ghost use Rattle.gta_gallery.specs.Functions.{AreValues, GoTo};
ghost use Rattle.gta_gallery.specs.Grids.{AreGridParts};

use bdd_nodes::{RefList, Shelf};
use bdd_walk::NoMemory;
use gta_core::{Auto, BoolList, Part};
use plain_data::Items;
use std::alloc::{AllocError, Global};

/// The rows of so many states.
fn rows_of(alloc: Global, states: u32, columns: u32) -> Result<Vec<u32>, AllocError>
    requires { 0 < columns }
    ensures { IfOk result (λ list. AreValues (λ q. q / columns) states list.items) }
{
    let mut list = Vec::new(alloc);
    for state in 0..states {
        list.push(state / columns)?;
    }
    Ok(list)
}

/// The columns of so many states.
fn columns_of(alloc: Global, states: u32, columns: u32) -> Result<Vec<u32>, AllocError>
    requires { 0 < columns }
    ensures { IfOk result (λ list. AreValues (λ q. q % columns) states list.items) }
{
    let mut list = Vec::new(alloc);
    for state in 0..states {
        list.push(state % columns)?;
    }
    Ok(list)
}

/// The numbers below.
fn numbers_of(alloc: Global, states: u32) -> Result<Vec<u32>, AllocError>
    ensures { IfOk result (λ list. AreValues (λ k. k) states list.items) }
{
    let mut list = Vec::new(alloc);
    for number in 0..states {
        list.push(number)?;
    }
    Ok(list)
}

/// The part of the one space.
fn parts_of(alloc: Global, states: u32, columns: u32) -> Result<Items<Part>, AllocError>
    requires { 0 < columns }
    ensures { IfOk result (AreGridParts states columns) }
{
    let row_list = rows_of(alloc, states, columns)?;
    let column_list = columns_of(alloc, states, columns)?;
    let cell_list = numbers_of(alloc, states)?;
    let mut parts = Items::new(alloc);
    parts.push(Part {
        states,
        initial: 0,
        children: (0, 0),
        first: 0,
        rows: Items::from_vec(row_list),
        columns: Items::from_vec(column_list),
        width: columns,
        cells: Items::from_vec(cell_list),
    })?;
    Ok(parts)
}

/// An automaton over the plain guide, with a state for each function. The states stand in rows of so many columns, and a
/// step from two states is by the function of the state in the row of the left one and in the column of the right one.
pub(crate) fn grid(
    alloc: Global,
    rows: u32,
    columns: u32,
    functions: RefList,
    accepting: BoolList,
    shelf: &mut Shelf,
) -> Result<Auto, NoMemory>
    requires some { 0 < length functions }
    requires columns { 0 < columns }
    requires many { rows * columns ≡ length functions }
    requires few { length functions ≤ 2 ^ 31 }
    requires functions { GoTo shelf.old (length functions) functions }
    requires accepting { length accepting ≡ length functions }
    ensures { IfOk result (IsAuto ((0, 0) ∷ []) shelf.new) }
{
    let parts = parts_of(alloc, rows * columns, columns)?;
    let auto = Auto::from_parts(parts, accepting, functions, shelf)?;
    Ok(auto)
}
