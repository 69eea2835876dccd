//! Which condition of a cut a store breaks first.

ghost use Rattle.std.specs.Prelude.{◌≡◌, ◌↔◌, None, Some, IfOk};
ghost use Rattle.store_core.specs.Stores.{Fits};
ghost use Rattle.routing_walks.specs.declared.fault.CutFault.{CutFault};
ghost use Rattle.routing_walks.specs.CutFaults.{IsFirstCutFault, IsSound};

use crate::dangling::has_dangling_reference;
use crate::followed::Followed;
use crate::leak::first_leak;
use crate::places::list_places;
use crate::search::Search;
use crate::shared::first_shared;
use crate::wrong_field::first_wrong_place;
use routing_walks::CutFault;
use std::alloc::{AllocError, Global};
use store_core::{Store, TypeTable, VarTable};

/// The first condition of a cut that a store which fits its tables breaks; `None` exactly where it breaks none: it is then well-formed
/// but for its logic sets.
pub fn cut_fault(
    alloc: Global,
    types: &TypeTable,
    vars: &VarTable,
    store: &Store,
) -> Result<Option<CutFault>, AllocError>
    requires { Fits types.now vars.now store.now }
    ensures none { IfOk result (λ found. (found ≡ None) ↔ IsSound types.now vars.now store.now) }
    ensures some { IfOk result (λ found. (fault : CutFault) → (found ≡ Some fault) ↔ IsFirstCutFault types.now vars.now store.now fault) }
{
    let places = list_places(alloc, types, vars, store)?;
    let places = places.as_slice();
    if has_dangling_reference(store, places) {
        return Ok(Some(CutFault::DanglingReference));
    }
    if first_shared(alloc, types, vars, store, places)?.is_some() {
        return Ok(Some(CutFault::Shared));
    }
    if first_leak(alloc, types, vars, store)?.is_some() {
        return Ok(Some(CutFault::Leak));
    }
    let search = Search::new(alloc, types, store, Followed::Data)?;
    if first_wrong_place(&search, places)?.is_some() {
        return Ok(Some(CutFault::Field));
    }
    Ok(None)
}
