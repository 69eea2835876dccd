//! The cells of a region.

ghost use Rattle.std.specs.Prelude.{◌≤◌, IfOk, List};
ghost use Rattle.std.specs.List.{AllByRecursion};
ghost use Rattle.store_core.specs.Tables.{VarEntry, IsVarTable};
ghost use Rattle.routing_walks.specs.Regions.{IsPart, IsRest};
ghost use Rattle.store_sat.specs.RootTables.{IsCovered};
ghost use Rattle.store_logic.specs.Fits.{IsKnownDataVar};

use crate::root_table::data_vars;
use crate::terms::has;
use routing_expr::reached;
use std::alloc::{AllocError, Global};
use store_core::{CellList, Store, TypeTable, VarId};

/// The live cells that aren't among these, by number.
pub(crate) fn rest_of(
    alloc: Global,
    store: &Store,
    cells: &CellList,
) -> Result<CellList, AllocError>
    ensures { IfOk result (IsRest store.now cells.now) }
{
    let mut rest = CellList::new(alloc);
    for place in 0..store.cells() {
        let Some(cell) = store.cell_at(place) else {
            unreachable!()
        };
        if !has(cells.as_slice(), cell) {
            rest.push(cell)?;
        }
    }
    Ok(rest)
}

/// No fewer variables than so many, which have this one too if the store and a table can have it.
fn covering(store: &Store, count: u32, root: VarId) -> u32
    ensures more { count ≤ result }
    ensures covered { IsCovered store.now result root }
{
    if store.var(root).is_none() || root.0 < count || root.0 == u32::MAX {
        return count;
    }
    root.0 + 1
}

/// The cells that data fields reach from these variables, by number, each of which is a data variable.
pub(crate) fn part_of(
    alloc: Global,
    types: &TypeTable,
    store: &Store,
    roots: &[VarId],
) -> Result<CellList, AllocError>
    ensures { IfOk result (λ cells. (vars : List VarEntry) → IsVarTable vars →
        AllByRecursion (IsKnownDataVar vars) roots.now → IsPart types.now vars store.now roots.now cells) }
{
    let mut count = 0;
    for root in roots {
        count = covering(store, count, *root);
    }
    let vars = data_vars(alloc, count)?;
    let cells = reached(alloc, types, &vars, store, roots)?;
    Ok(cells)
}
