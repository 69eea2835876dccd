//! The walks that an assertion asks for.

ghost use Rattle.std.specs.Prelude.{◌≡◌, ◌↔◌, ◌<◌, IfOk, IfSome, IsTrue, length};
ghost use Rattle.std.specs.List.{AllByRecursion};
ghost use Rattle.routing_walks.specs.Walks.{Walk};
ghost use Rattle.routing_walks.specs.Sets.{Lists};
ghost use Rattle.routing_expr.specs.Searches.{Ground};
ghost use Rattle.store_sat.specs.WalksKept.{AreEnds, ground};

use crate::same_route::are_same_routes;
use crate::terms::has;
use routing_expr::{Followed, Walker};
use std::alloc::{AllocError, Global};
use std::marker::Model;
use store_core::{CellId, CellList, Route, Store, TypeTable};

/// The ends of the walks by a route from a cell.
#[derive(Drop)]
pub(crate) struct Kept<'a> {
    pub(crate) route: &'a Route,
    pub(crate) from: CellId,
    pub(crate) ends: CellList,
}

/// Walks in one store, over data fields and pointer fields. The index of the store is made at the first of them, and for each
/// route the ends from the cell that was last asked for are kept. Contracts see the ground that is walked.
#[derive(Drop)]
pub(crate) struct Walks<'a> {
    alloc: Global,
    types: &'a TypeTable,
    store: &'a Store,
    walker: Option<Walker<'a>>,
    kept: Vec<Kept<'a>>,
}

impl<'a> Model for Walks<'a> {
    ghost use Rattle.std.specs.Coded.{codes};
    ghost use Rattle.store_core.specs.contracts.kind.Route as route;
    ghost use Rattle.store_core.specs.StoreCodes.{code_of_map};
    ghost use Rattle.std.specs.Prelude.{◌≡◌, IfSome};
    ghost use Rattle.std.specs.List.{AllByRecursion};
    ghost use Rattle.routing_expr.specs.Searches.{Ground as WalkedGround};
    ghost use Rattle.store_sat.specs.WalksKept.{AreEnds as AreEndsOn, ground as ground_in};

    ghost Value = { WalkedGround };

    ghost coded = { Prim.hlevel (codes, code_of_map, route.the_row.coded) };

    ghost view = { λ walks. ground_in walks.types.now walks.store.now };

    ghost invariant = { λ walks. IfSome walks.walker (λ walker. walker ≡ ground_in walks.types.now walks.store.now)
        × AllByRecursion (AreEndsOn (ground_in walks.types.now walks.store.now)) walks.kept.items };
}

/// The place of what is kept for the route; `None` where none is seen.
fn place_of(alloc: Global, kept: &[Kept], route: &Route) -> Result<Option<usize>, AllocError>
    ensures { IfOk result (λ place. IfSome place (λ n. n < length kept.now)) }
{
    for (place, search) in kept.iter().enumerate() {
        if are_same_routes(alloc, search.route, route)? {
            return Ok(Some(place));
        }
    }
    Ok(None)
}

/// The ends that are kept of the walks by the route from the cell; `None` where none are seen.
fn kept_ends<'k>(
    alloc: Global,
    kept: &'k [Kept],
    route: &Route,
    from: CellId,
) -> Result<Option<&'k CellList>, AllocError>
    ensures { (ground : Ground) → AllByRecursion (AreEnds ground) kept.now →
        IfOk result (λ found. IfSome found (λ ends. Lists (Walk ground.types ground.store ground.fields route.now from) ends.now)) }
{
    for search in kept {
        if search.from == from {
            if are_same_routes(alloc, search.route, route)? {
                return Ok(Some(&search.ends));
            }
        }
    }
    Ok(None)
}

/// Keeps these ends, in place of those that are kept for the route.
fn keep<'a>(alloc: Global, kept: &mut Vec<Kept<'a>>, search: Kept<'a>) -> Result<(), AllocError>
    ensures { (ground : Ground) → AreEnds ground search.entry → AllByRecursion (AreEnds ground) kept.old.items →
        AllByRecursion (AreEnds ground) kept.new.items }
{
    match place_of(alloc, kept, search.route)? {
        Some(place) => kept[place] = search,
        None => kept.push(search)?,
    }
    Ok(())
}

impl<'a> Walks<'a> {
    /// No walk yet. Takes no memory.
    pub(crate) fn new(alloc: Global, types: &'a TypeTable, store: &'a Store) -> Walks<'a>
        ensures { result ≡ ground types.now store.now }
    {
        Walks {
            alloc,
            types,
            store,
            walker: None,
            kept: Vec::new(alloc),
        }
    }

    /// The ends of the walks by a route from a cell.
    fn search(&mut self, route: &Route, from: CellId) -> Result<CellList, AllocError>
        ensures value { IfOk result (Lists (Walk self.old.types self.old.store self.old.fields route.now from)) }
        ensures kept { self.new ≡ self.old }
    {
        if let Some(walker) = &self.walker {
            return walker.ends(route, from);
        }
        let walker = Walker::new(
            self.alloc,
            self.types,
            self.store,
            Followed::DataAndPointers,
        )?;
        let ends = walker.ends(route, from);
        self.walker = Some(walker);
        ends
    }

    /// Whether a walk of the route leads from the one cell to the other.
    pub(crate) fn is_walk(
        &mut self,
        route: &'a Route,
        from: CellId,
        to: CellId,
    ) -> Result<bool, AllocError>
        ensures value { IfOk result (λ truth. IsTrue truth ↔ Walk self.old.types self.old.store self.old.fields route.now from to) }
        ensures kept { self.new ≡ self.old }
    {
        if let Some(ends) = kept_ends(self.alloc, &self.kept, route, from)? {
            return Ok(has(ends.as_slice(), to));
        }
        let ends = self.search(route, from)?;
        let truth = has(ends.as_slice(), to);
        keep(self.alloc, &mut self.kept, Kept { route, from, ends })?;
        Ok(truth)
    }
}
