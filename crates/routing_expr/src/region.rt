//! The store on a set of cells, and the ends of walks on it.

ghost use Rattle.std.specs.Prelude.{◌≡◌, ◌↔◌, IfOk, Contains};
ghost use Rattle.std.specs.List.{filter};
ghost use Rattle.std.specs.Ordering.{nat_cmp};
ghost use Rattle.std.specs.BTreeSet.{contains};
ghost use Rattle.std.specs.FinMap.{entries};
ghost use Rattle.store_core.specs.StoreBodies.{cells_of, AreLive};
ghost use Rattle.store_core.specs.declared.ids.CellId.{CellId};
ghost use Rattle.routing_walks.specs.Walks.{Walk};
ghost use Rattle.routing_walks.specs.Sets.{Lists, Has};
ghost use Rattle.routing_walks.specs.Regions as regions;
ghost use Rattle.routing_expr.specs.Searches.{fields_in};

use crate::calls::ends;
use crate::followed::Followed;
use std::alloc::{AllocError, Global};
use std::collections::BTreeSet;
use store_core::{CellBody, CellId, CellList, Route, Store, TypeTable, copy_values};

/// The numbers of the cells.
fn numbers_of(alloc: Global, cells: &[CellId]) -> Result<BTreeSet<u32>, AllocError>
    ensures { IfOk result (λ numbers. (c : CellId) → Has numbers c ↔ Contains cells.now c) }
{
    let mut numbers = BTreeSet::new(alloc);
    for cell in cells {
        numbers.insert(cell.0)?;
    }
    Ok(numbers)
}

/// Copies of the live cells of which the numbers are among these.
fn bodies_on(
    alloc: Global,
    store: &Store,
    numbers: &BTreeSet<u32>,
) -> Result<Vec<CellBody>, AllocError>
    ensures kept { IfOk result (λ kept. cells_of kept.items ≡ filter (λ e. contains nat_cmp numbers.now e.0) (entries store.now.cells)) }
    ensures live { IfOk result (λ kept. AreLive kept.items) }
{
    let mut kept = Vec::new(alloc);
    for place in 0..store.cells() {
        let Some(body) = store.body_at(place) else {
            unreachable!()
        };
        if numbers.contains(&body.number) {
            kept.push(body.copy(alloc)?)?;
        }
    }
    Ok(kept)
}

/// The store on a set of cells, in memory of its own: the cells of the set that are live, and no others, the same variables and
/// the same next number.
pub fn store_on(alloc: Global, store: &Store, cells: &CellList) -> Result<Store, AllocError>
    ensures { IfOk result (λ on. on ≡ regions.store_on store.now cells.now) }
{
    let numbers = numbers_of(alloc, cells.as_slice())?;
    let kept = bodies_on(alloc, store, &numbers)?;
    let vars = copy_values(alloc, store.values())?;
    Ok(Store::of(kept, vars, store.next()))
}

/// The cells to which a walk of the route leads from a cell on a set of cells, where all other cells are dead and a value that
/// names one of them counts as null, each once, by number. A cell that is dead or outside the set has none.
pub fn ends_on(
    alloc: Global,
    types: &TypeTable,
    store: &Store,
    cells: &CellList,
    route: &Route,
    followed: Followed,
    from: CellId,
) -> Result<CellList, AllocError>
    ensures { IfOk result (Lists (Walk types.now (regions.store_on store.now cells.now) (fields_in followed) route.now from)) }
{
    let on = store_on(alloc, store, cells)?;
    ends(alloc, types, &on, route, followed, from)
}
