//! A route as a machine: places with edges between them, each edge a single step. (Thompson, CACM 1968, "Regular expression
//! search algorithm".)

ghost use Rattle.std.specs.Prelude.{◌≡◌, ◌+◌, ◌≤◌, IfOk, OnOk, map, Contains};
ghost use Rattle.std.specs.List.Sorted.{IsNonDecreasingBy};
ghost use Rattle.store_core.specs.declared.kind.Route.{Route};
ghost use Rattle.store_core.specs.declared.kind.Route.TheVariants as route;
ghost use Rattle.routing_walks.specs.Gathering.{HasAll};
ghost use Rattle.routing_expr.specs.Machines.{along, arc, label_of, arc_of, arcs_of, part_count, parts_left, Adds, StandsFor, Means, IsPlan};

use std::alloc::{AllocError, Global};
use store_core::{Route, TypeId, VariantId};

/// What a cell is tested for.
#[derive(Clone, Copy)]
pub(crate) enum Test<'a> {
    /// That it is live.
    Live,
    Root,
    Leaf,
    IsType(TypeId),
    IsVariant(VariantId),
    IsBool(&'a [u8], bool),
}

/// A step from a cell to a cell.
#[derive(Clone, Copy)]
pub(crate) enum Step<'a> {
    Down(&'a [u8]),
    Up(&'a [u8]),
    UpAny,
    /// From a cell that passes to itself.
    Stay(Test<'a>),
}

/// A way from a place to a place by a step.
#[derive(Clone, Copy)]
pub(crate) struct Edge<'a> {
    pub(crate) from: usize,
    pub(crate) step: Step<'a>,
    pub(crate) to: usize,
}

/// A way from a place to a place by a route, which is still to be taken apart.
#[derive(Clone, Copy)]
struct Part<'a> {
    from: usize,
    route: &'a Route,
    to: usize,
}

/// A machine of which some parts are still to be taken apart.
#[derive(Drop)]
struct Plan<'a> {
    edges: Vec<Edge<'a>>,
    parts: Vec<Part<'a>>,
    /// The places are the numbers below this.
    places: usize,
}

/// The place where a machine starts.
pub(crate) const START: usize = 0;

/// The place where a machine ends.
pub(crate) const END: usize = 1;

/// A machine, which leads from START to END by what its route joins.
#[derive(Drop)]
pub(crate) struct Machine<'a> {
    /// By rising start, so that those of a place stand together and are found by halving.
    pub(crate) edges: Vec<Edge<'a>>,
    ghost rising: { IsNonDecreasingBy (λ edge. edge.from) edges.items },
}

impl<'a> Plan<'a> {
    /// The whole route as the one part.
    fn new(alloc: Global, route: &'a Route) -> Result<Plan<'a>, AllocError>
        ensures { IfOk result (λ plan. IsPlan route.now (arcs_of plan) plan.places) }
    {
        let mut parts = Vec::new(alloc);
        parts.push(Part {
            from: START,
            route,
            to: END,
        })?;
        Ok(Plan {
            edges: Vec::new(alloc),
            parts,
            places: 2,
        })
    }

    /// A place that no edge and no part touches. There are fewer than 2 ^ 64 in any memory.
    fn new_place(&mut self) -> Result<usize, AllocError>
        ensures value { IfOk result (λ place. place ≡ self.old.places) }
        ensures places { OnOk result (self.new.places ≡ self.old.places + 1) }
        ensures arcs { arcs_of self.new ≡ arcs_of self.old }
        ensures left { parts_left self.new ≡ parts_left self.old }
    {
        let place = self.places;
        let Some(places) = place.checked_add(1) else {
            return Err(AllocError);
        };
        self.places = places;
        Ok(place)
    }

    fn add_step(&mut self, from: usize, step: Step<'a>, to: usize) -> Result<(), AllocError>
        ensures arcs { OnOk result (Adds (arc from (label_of step.entry) to) self.old self.new) }
        ensures places { OnOk result (self.new.places ≡ self.old.places) }
        ensures left { OnOk result (parts_left self.new ≡ parts_left self.old) }
    {
        self.edges.push(Edge { from, step, to })?;
        Ok(())
    }

    fn add_part(&mut self, from: usize, route: &'a Route, to: usize) -> Result<(), AllocError>
        ensures arcs { OnOk result (Adds (arc from (along route.now) to) self.old self.new) }
        ensures places { OnOk result (self.new.places ≡ self.old.places) }
        ensures left { OnOk result (parts_left self.new ≡ parts_left self.old + (part_count route.now + 1)) }
    {
        self.parts.push(Part { from, route, to })?;
        Ok(())
    }

    fn add_single(&mut self, from: usize, step: Step<'a>, to: usize) -> Result<(), AllocError>
        ensures plan { OnOk result (StandsFor (arc from (label_of step.entry) to) self.old self.new) }
        ensures left { OnOk result (parts_left self.new ≡ parts_left self.old) }
    {
        self.add_step(from, step, to)
    }

    fn add_both(
        &mut self,
        from: usize,
        first: &'a Route,
        second: &'a Route,
        to: usize,
    ) -> Result<(), AllocError>
        ensures plan { OnOk result (StandsFor (arc from (along (route.Then first.now second.now)) to) self.old self.new) }
        ensures left { OnOk result (parts_left self.new ≡ parts_left self.old + (part_count first.now + part_count second.now + 2)) }
    {
        let between = self.new_place()?;
        self.add_part(from, first, between)?;
        self.add_part(between, second, to)
    }

    fn add_either(
        &mut self,
        from: usize,
        one: &'a Route,
        other: &'a Route,
        to: usize,
    ) -> Result<(), AllocError>
        ensures plan { OnOk result (StandsFor (arc from (along (route.Or one.now other.now)) to) self.old self.new) }
        ensures left { OnOk result (parts_left self.new ≡ parts_left self.old + (part_count one.now + part_count other.now + 2)) }
    {
        self.add_part(from, one, to)?;
        self.add_part(from, other, to)
    }

    fn add_rounds(&mut self, from: usize, round: &'a Route, to: usize) -> Result<(), AllocError>
        ensures plan { OnOk result (StandsFor (arc from (along (route.Star round.now)) to) self.old self.new) }
        ensures left { OnOk result (parts_left self.new ≡ parts_left self.old + (part_count round.now + 1)) }
    {
        let turn = self.new_place()?;
        self.add_step(from, Step::Stay(Test::Live), turn)?;
        self.add_part(turn, round, turn)?;
        self.add_step(turn, Step::Stay(Test::Live), to)
    }

    /// Puts in place of a part what it is made of.
    fn take_apart(&mut self, from: usize, route: &'a Route, to: usize) -> Result<(), AllocError>
        ensures plan { OnOk result (StandsFor (arc from (along route.now) to) self.old self.new) }
        ensures left { OnOk result (parts_left self.new ≤ parts_left self.old + part_count route.now) }
    {
        match route {
            Route::Then(first, second) => self.add_both(from, first.get(), second.get(), to),
            Route::Or(one, other) => self.add_either(from, one.get(), other.get(), to),
            Route::Star(round) => self.add_rounds(from, round.get(), to),
            Route::Down(name) => self.add_single(from, Step::Down(name.as_slice()), to),
            Route::Up(name) => self.add_single(from, Step::Up(name.as_slice()), to),
            Route::UpAny => self.add_single(from, Step::UpAny, to),
            Route::Root => self.add_single(from, Step::Stay(Test::Root), to),
            Route::Leaf => self.add_single(from, Step::Stay(Test::Leaf), to),
            Route::IsType(ty) => self.add_single(from, Step::Stay(Test::IsType(*ty)), to),
            Route::IsVariant(v) => self.add_single(from, Step::Stay(Test::IsVariant(*v)), to),
            Route::IsBool(name, truth) => {
                let test = Test::IsBool(name.as_slice(), *truth);
                self.add_single(from, Step::Stay(test), to)
            }
        }
    }
}

impl<'a> Machine<'a> {
    /// The machine of a route.
    pub(crate) fn new(alloc: Global, route: &'a Route) -> Result<Machine<'a>, AllocError>
        ensures { IfOk result (λ machine. Means route.now (map arc_of machine.edges.items)) }
    {
        let mut plan = Plan::new(alloc, route)?;
        while let Some(part) = plan.parts.pop() {
            plan.take_apart(part.from, part.route, part.to)?;
        }
        let mut edges = plan.edges;
        edges.sort_by_key(|edge| edge.from)?;
        Ok(Machine { edges })
    }

    /// The edges from a place. Takes no memory.
    pub(crate) fn from(&self, place: usize) -> &[Edge<'a>]
        ensures { HasAll (map arc_of result.now) (λ arc. Contains (map arc_of self.now.edges.items) arc × (arc.from ≡ place)) }
    {
        let edges = self.edges.as_slice();
        let start = edges.partition_point(|edge| edge.from < place);
        let end = edges.partition_point(|edge| edge.from <= place);
        &edges[start..end]
    }
}
