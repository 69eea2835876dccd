//! Stores of some of the cells of another.

ghost use Rattle.std.specs.Prelude.{◌≡◌, IfOk};
ghost use Rattle.std.specs.List.{filter};
ghost use Rattle.std.specs.FinMap.{entries, retain_keys};
ghost use Rattle.store_core.specs.CellLists.{AreRising};
ghost use Rattle.store_core.specs.StoreBodies.{cells_of, AreLive};
ghost use Rattle.routing_walks.specs.Regions.{has_number};
ghost use Rattle.whole_handing.specs.Handed.{is_on};

use plain_data::Items;
use std::alloc::{AllocError, Global};
use store_core::{CellBody, CellId, Store, Value};
use store_sat::has;

/// Whether the number is that of one of the cells, whose numbers rise.
pub(crate) fn is_member(cells: &[CellId], number: u32) -> bool
    requires { AreRising cells.now }
    ensures { result ≡ has_number cells.now number }
{
    has(cells, CellId(number))
}

/// Whether the number is that of one of the cells; or, of those outside them, whether it isn't.
fn is_on(cells: &[CellId], inside: bool, number: u32) -> bool
    requires { AreRising cells.now }
    ensures { result ≡ is_on cells.now inside number }
{
    if inside {
        is_member(cells, number)
    } else {
        !is_member(cells, number)
    }
}

/// Copies of the live cells that are among these, or of those that aren't.
fn bodies_on(
    alloc: Global,
    store: &Store,
    cells: &[CellId],
    inside: bool,
) -> Result<Vec<CellBody>, AllocError>
    requires { AreRising cells.now }
    ensures kept { IfOk result (λ kept. cells_of kept.items ≡ filter (λ e. is_on cells.now inside e.0) (entries store.now.cells)) }
    ensures live { IfOk result (λ kept. AreLive kept.items) }
{
    let mut kept = Vec::new(alloc);
    for place in 0..store.cells() {
        let Some(body) = store.body_at(place) else {
            unreachable!()
        };
        if is_on(cells, inside, body.number) {
            kept.push(body.copy(alloc)?)?;
        }
    }
    Ok(kept)
}

/// The store of the live cells that are among these, or of those that aren't, with these values for the variables, and the same next
/// number.
pub(crate) fn store_of(
    alloc: Global,
    store: &Store,
    cells: &[CellId],
    inside: bool,
    vars: Items<Value>,
) -> Result<Store, AllocError>
    requires { AreRising cells.now }
    ensures { IfOk result (λ made. made ≡ record { cells = retain_keys store.now.cells (is_on cells.now inside); vars = vars; next = store.now.next }) }
{
    let kept = bodies_on(alloc, store, cells, inside)?;
    Ok(Store::of(kept, vars, store.next()))
}
