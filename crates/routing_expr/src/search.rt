//! Searches for the ends of walks.

ghost use Rattle.std.specs.Prelude.{◌≡◌, ◌≤◌, ◌-◌, length, slice_get, ◌⊎◌, IsTrue, IfOk, OnOk, map, Contains, ◌↔◌};
ghost use Rattle.std.specs.List.{AllByRecursion};
ghost use Rattle.store_core.specs.declared.ids.CellId.{CellId};
ghost use Rattle.store_core.specs.CellLists.{AreRising};
ghost use Rattle.routing_walks.specs.Walks.{Walk};
ghost use Rattle.routing_walks.specs.Destinations.{EndsWalk};
ghost use Rattle.routing_walks.specs.Gathering.{HasAll, Grows};
ghost use Rattle.routing_walks.specs.Sets.{Lists};
ghost use Rattle.routing_expr.specs.Searches.{IsIndexed, IsWanted, fields_in};
ghost use Rattle.routing_expr.specs.Spots.{EdgeLeads, FollowsIn, IsReached, IsAtEnd};

use crate::followed::Followed;
use crate::links::Links;
use crate::machine::{END, Edge, Machine, START};
use indexmap::IndexSet;
use std::alloc::{AllocError, Global};
use store_core::{CellId, CellList, Route, Store, TypeId, TypeTable};

/// What searches in one store share.
#[derive(Drop)]
pub(crate) struct Search<'a> {
    pub(crate) alloc: Global,
    pub(crate) types: &'a TypeTable,
    pub(crate) store: &'a Store,
    pub(crate) followed: Followed,
    /// The links over followed fields.
    pub(crate) links: Links,
}

/// A cell at a place of a machine.
#[derive(Clone, Copy, PartialEq, Eq, Hash)]
pub(crate) struct Spot {
    pub(crate) place: usize,
    pub(crate) cell: CellId,
}

impl<'a> Search<'a> {
    /// A search over these fields.
    pub(crate) fn new(
        alloc: Global,
        types: &'a TypeTable,
        store: &'a Store,
        followed: Followed,
    ) -> Result<Search<'a>, AllocError>
        ensures types { IfOk result (λ search. search.types.now ≡ types.now) }
        ensures store { IfOk result (λ search. search.store.now ≡ store.now) }
        ensures followed { IfOk result (λ search. search.followed ≡ followed) }
        ensures indexed { IfOk result IsIndexed }
    {
        let links = Links::new(alloc, types, store, followed)?;
        Ok(Search {
            alloc,
            types,
            store,
            followed,
            links,
        })
    }

    /// Adds the spots to which an edge leads from a cell.
    fn go_along(
        &self,
        spots: &mut IndexSet<Spot>,
        edge: &Edge,
        from: CellId,
    ) -> Result<(), AllocError>
        requires { IsIndexed self.now }
        ensures { OnOk result (Grows spots.old.keys spots.new.keys (EdgeLeads self.now edge.now from)) }
    {
        let cells = self.next(edge.step, from)?;
        for cell in &cells {
            spots.insert(Spot {
                place: edge.to,
                cell: *cell,
            })?;
        }
        Ok(())
    }

    /// Adds the spots that follow a spot.
    fn go_on(
        &self,
        spots: &mut IndexSet<Spot>,
        machine: &Machine,
        spot: Spot,
    ) -> Result<(), AllocError>
        requires { IsIndexed self.now }
        ensures { OnOk result (Grows spots.old.keys spots.new.keys (FollowsIn self.now machine.now spot)) }
    {
        for edge in machine.from(spot.place) {
            self.go_along(spots, edge, spot.cell)?;
        }
        Ok(())
    }

    /// The spots that a machine reaches, each once: those that were found are gone on from in the order of their finding.
    fn reach(&self, machine: &Machine, from: CellId) -> Result<IndexSet<Spot>, AllocError>
        requires { IsIndexed self.now }
        ensures { IfOk result (λ spots. HasAll spots.keys (IsReached self.now machine.now from)) }
    {
        let mut spots = IndexSet::new(self.alloc);
        spots.insert(Spot {
            place: START,
            cell: from,
        })?;
        let mut index = 0;
        while index < spots.len() {
            let Some(spot) = spots.get_index(index) else {
                unreachable!()
            };
            let spot = *spot;
            self.go_on(&mut spots, machine, spot)?;
            index += 1;
        }
        Ok(spots)
    }

    /// Whether the cell is live and of the target type, where there is one.
    fn is_wanted(&self, cell: CellId, target: Option<TypeId>) -> bool
        ensures { IsTrue result ↔ IsWanted self.now.store.now target cell }
    {
        match target {
            None => true,
            Some(ty) => self.is_of_type(ty, cell),
        }
    }

    fn is_at_end(&self, spot: Spot, target: Option<TypeId>) -> bool
        ensures { IsTrue result ↔ IsAtEnd self.now.store.now target spot }
    {
        spot.place == END && self.is_wanted(spot.cell, target)
    }

    /// The cells at the end of the machine that are wanted, by number.
    fn at_end(&self, spots: &IndexSet<Spot>, target: Option<TypeId>) -> Result<CellList, AllocError>
        ensures { IfOk result (Lists (λ d. Contains spots.now.keys (record { place = END; cell = d }) × IsWanted self.now.store.now target d)) }
    {
        let mut cells = Vec::new(self.alloc);
        for spot in spots.as_slice() {
            if self.is_at_end(*spot, target) {
                cells.push(spot.cell)?;
            }
        }
        list_of(self.alloc, cells)
    }

    /// The cells to which a walk of the route leads, each once, by number. A dead cell has none.
    pub(crate) fn ends(&self, route: &Route, from: CellId) -> Result<CellList, AllocError>
        requires { IsIndexed self.now }
        ensures { IfOk result (Lists (Walk self.now.types.now self.now.store.now (fields_in self.now.followed) route.now from)) }
    {
        let machine = Machine::new(self.alloc, route)?;
        let spots = self.reach(&machine, from)?;
        self.at_end(&spots, None)
    }

    /// Those of the target type. The search is one over data fields alone.
    pub(crate) fn destinations(
        &self,
        route: &Route,
        from: CellId,
        target: TypeId,
    ) -> Result<CellList, AllocError>
        requires indexed { IsIndexed self.now }
        requires data { self.now.followed ≡ Followed.Data }
        ensures { IfOk result (Lists (EndsWalk self.now.types.now self.now.store.now route.now target from)) }
    {
        let machine = Machine::new(self.alloc, route)?;
        let spots = self.reach(&machine, from)?;
        self.at_end(&spots, Some(target))
    }
}

fn last_of(list: &CellList) -> Option<CellId>
    ensures { result ≡ slice_get list.now (length list.now - 1) }
{
    list.as_slice().last().copied()
}

/// Adds a cell whose number is no less than that of any before it, unless it is the last one.
fn push_once(list: &mut CellList, cell: CellId) -> Result<(), AllocError>
    requires rising { AreRising list.old }
    requires last { AllByRecursion (λ d. d.0 ≤ cell.0) list.old }
    ensures { OnOk result (Lists (λ d. Contains list.old d ⊎ (d ≡ cell)) list.new) }
{
    let Some(last) = last_of(list) else {
        return list.push(cell);
    };
    if last.0 == cell.0 {
        return Ok(());
    }
    list.push(cell)
}

/// The cells, each once, by number.
fn list_of(alloc: Global, mut cells: Vec<CellId>) -> Result<CellList, AllocError>
    ensures { IfOk result (Lists (Contains cells.items)) }
{
    cells.sort_by_key(|cell| cell.0)?;
    let mut list = CellList::new(alloc);
    for cell in &cells {
        push_once(&mut list, *cell)?;
    }
    Ok(list)
}
