//! Cells that are named twice.

ghost use Rattle.std.specs.Prelude.{◌≡◌, ◌↔◌, IsTrue, IsSome, IfOk, IfNone, IfSome, OnOk};
ghost use Rattle.store_core.specs.declared.ids.CellId.{CellId};
ghost use Rattle.store_core.specs.Stores.{cell_of};
ghost use Rattle.routing_walks.specs.WellFormed.{IsShared, IsFirstCell};
ghost use Rattle.routing_walks.specs.Sets.{Has};
ghost use Rattle.routing_expr.specs.Places.{ArePlaces};
ghost use Rattle.routing_expr.specs.Naming.{NamesLive, Counts};

use crate::names::named_cell;
use crate::numbers::least;
use routing_walks::Place;
use std::alloc::{AllocError, Global};
use std::collections::BTreeSet;
use store_core::{CellId, Store, TypeTable, VarTable};

/// The numbers of the live cells that some places name.
#[derive(Drop)]
struct Named {
    /// At least once.
    once: BTreeSet<u32>,
    /// At least twice.
    twice: BTreeSet<u32>,
}

impl Named {
    /// One place more names the cell.
    fn add(&mut self, cell: CellId) -> Result<(), AllocError>
        ensures { OnOk result (Counts (λ c. c ≡ cell) self.old self.new) }
    {
        if !self.once.insert(cell.0)? {
            self.twice.insert(cell.0)?;
        }
        Ok(())
    }

    /// One place more is looked at.
    fn add_place(
        &mut self,
        types: &TypeTable,
        vars: &VarTable,
        store: &Store,
        place: Place,
    ) -> Result<(), AllocError>
        ensures { OnOk result (Counts (NamesLive types.now vars.now store.now place) self.old self.new) }
    {
        let Some(cell) = named_cell(types, vars, store, place) else {
            return Ok(());
        };
        if store.type_of(cell).is_none() {
            return Ok(());
        }
        self.add(cell)
    }
}

/// The numbers of the live cells that at least two data variables and data fields name.
fn named_twice(
    alloc: Global,
    types: &TypeTable,
    vars: &VarTable,
    store: &Store,
    places: &[Place],
) -> Result<BTreeSet<u32>, AllocError>
    requires { ArePlaces store.now places.now }
    ensures { IfOk result (λ twice. (c : CellId) → Has twice c ↔ IsShared types.now vars.now store.now c) }
{
    let mut named = Named {
        once: BTreeSet::new(alloc),
        twice: BTreeSet::new(alloc),
    };
    for place in places {
        named.add_place(types, vars, store, *place)?;
    }
    let Named { twice, .. } = named;
    Ok(twice)
}

/// The live cell with the least number that is named twice by data variables and data fields; `None` exactly where no live cell
/// is.
pub(crate) fn first_shared(
    alloc: Global,
    types: &TypeTable,
    vars: &VarTable,
    store: &Store,
    places: &[Place],
) -> Result<Option<CellId>, AllocError>
    requires { ArePlaces store.now places.now }
    ensures none { IfOk result (λ found. IfNone found ((c : CellId) → IsShared types.now vars.now store.now c → ⊥)) }
    ensures some { IfOk result (λ found. IfSome found (IsFirstCell (IsShared types.now vars.now store.now))) }
{
    let twice = named_twice(alloc, types, vars, store, places)?;
    Ok(least(&twice))
}
