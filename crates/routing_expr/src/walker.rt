//! Searches for the ends of walks that share one index.

ghost use Rattle.std.specs.Prelude.{◌≡◌, IfOk};
ghost use Rattle.routing_walks.specs.Walks.{Walk};
ghost use Rattle.routing_walks.specs.Sets.{Lists};
ghost use Rattle.routing_expr.specs.Searches.{fields_in};

use crate::followed::Followed;
use crate::search::Search;
use std::alloc::{AllocError, Global};
use std::marker::Model;
use store_core::{CellId, CellList, Route, Store, TypeTable};

/// Searches for the ends of walks in one store, over the same fields. They share an index from each cell to the fields that
/// lead to it, which is made once. Contracts see the ground that is walked.
#[derive(Drop)]
pub struct Walker<'a> {
    search: Search<'a>,
}

impl<'a> Model for Walker<'a> {
    ghost use Rattle.std.specs.Coded.{codes};
    ghost use Rattle.store_core.specs.contracts.kind.Route as route;
    ghost use Rattle.store_core.specs.StoreCodes.{code_of_map};
    ghost use Rattle.routing_expr.specs.Searches.{Ground, IsIndexed, ground_of};

    ghost Value = { Ground };

    ghost coded = { Prim.hlevel (codes, code_of_map, route.the_row.coded) };

    ghost view = { λ walker. ground_of walker.search };

    ghost invariant = { λ walker. IsIndexed walker.search };
}

impl<'a> Walker<'a> {
    /// A walker over these fields of the store, which makes the index.
    pub fn new(
        alloc: Global,
        types: &'a TypeTable,
        store: &'a Store,
        followed: Followed,
    ) -> Result<Walker<'a>, AllocError>
        ensures { IfOk result (λ walker. walker ≡ record { types = types.now; store = store.now; fields = fields_in followed }) }
    {
        let search = Search::new(alloc, types, store, followed)?;
        Ok(Walker { search })
    }

    /// The cells to which a walk of the route leads from a cell, each once, by number. A dead cell has none.
    pub fn ends(&self, route: &Route, from: CellId) -> Result<CellList, AllocError>
        ensures { IfOk result (Lists (Walk self.now.types self.now.store self.now.fields route.now from)) }
    {
        self.search.ends(route, from)
    }
}
