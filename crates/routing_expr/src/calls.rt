//! Where a pointer field has to point, and where a walk leads.

ghost use Rattle.std.specs.Prelude.{◌≡◌, IfOk};
ghost use Rattle.routing_walks.specs.Walks.{Walk};
ghost use Rattle.routing_walks.specs.Destinations.{EndsWalk};
ghost use Rattle.routing_walks.specs.Sets.{Lists};
ghost use Rattle.routing_expr.specs.Searches.{fields_in};

use crate::followed::Followed;
use crate::search::Search;
use crate::walker::Walker;
use std::alloc::{AllocError, Global};
use store_core::{CellId, CellList, Route, Store, TypeId, TypeTable};

/// The destinations of a cell: the cells of the target type at the end of a walk of the route over data fields, each once, by
/// number. A dead cell has none, and a name that no field has leads nowhere. (Klarlund and Schwartzbach, POPL 1993.)
pub fn destinations(
    alloc: Global,
    types: &TypeTable,
    store: &Store,
    route: &Route,
    from: CellId,
    target: TypeId,
) -> Result<CellList, AllocError>
    ensures { IfOk result (Lists (EndsWalk types.now store.now route.now target from)) }
{
    let search = Search::new(alloc, types, store, Followed::Data)?;
    search.destinations(route, from, target)
}

/// The cells to which a walk of the route leads from a cell over the fields that are followed, each once, by number. A dead
/// cell has none.
pub fn ends(
    alloc: Global,
    types: &TypeTable,
    store: &Store,
    route: &Route,
    followed: Followed,
    from: CellId,
) -> Result<CellList, AllocError>
    ensures { IfOk result (Lists (Walk types.now store.now (fields_in followed) route.now from)) }
{
    let walker = Walker::new(alloc, types, store, followed)?;
    walker.ends(route, from)
}
