//! Whether a store is well-formed, and what is wrong first. (Klarlund and Schwartzbach, POPL 1993, "graph types".)

ghost use Rattle.std.specs.Prelude.{◌≡◌, ◌↔◌, None, IfOk, IfSome};
ghost use Rattle.store_core.specs.Stores.{Fits};
ghost use Rattle.routing_walks.specs.WellFormed.{IsWellFormed, IsFirstFault};

use crate::dangling::first_dangling;
use crate::followed::Followed;
use crate::leak::first_leak;
use crate::places::list_places;
use crate::search::Search;
use crate::shared::first_shared;
use crate::wrong_field::first_wrong_place;
use routing_walks::{Place, WfFault};
use std::alloc::{AllocError, Global};
use store_core::{Store, TypeTable, VarTable};

/// What is wrong with a store that fits its tables: `None` exactly for a well-formed one, else the first fault.
pub fn well_formed(
    alloc: Global,
    types: &TypeTable,
    vars: &VarTable,
    store: &Store,
) -> Result<Option<WfFault>, AllocError>
    requires { Fits types.now vars.now store.now }
    ensures none { IfOk result (λ found. (found ≡ None) ↔ IsWellFormed types.now vars.now store.now) }
    ensures some { IfOk result (λ found. IfSome found (IsFirstFault types.now vars.now store.now)) }
{
    let places = list_places(alloc, types, vars, store)?;
    let places = places.as_slice();
    if let Some(place) = first_dangling(store, places) {
        return Ok(Some(WfFault::Dangling(place)));
    }
    if let Some(cell) = first_shared(alloc, types, vars, store, places)? {
        return Ok(Some(WfFault::Shared(cell)));
    }
    if let Some(cell) = first_leak(alloc, types, vars, store)? {
        return Ok(Some(WfFault::Leak(cell)));
    }
    let search = Search::new(alloc, types, store, Followed::Data)?;
    match first_wrong_place(&search, places)? {
        None => Ok(None),
        Some(Place::Field(c, f)) => Ok(Some(WfFault::Field(c, f))),
        Some(Place::Var(_)) => unreachable!(),
    }
}
