//! Routes with their names looked up.

ghost use Rattle.std.specs.Prelude.{◌≡◌, None, map, IfOk, IfErr, OnOk, if◌then◌else◌};
ghost use Rattle.store_core.specs.declared.kind.Route.TheVariants as route;
ghost use Rattle.pale_tables.specs.Faults.{first_of, IsStop};
ghost use Rattle.pale_tables.specs.Routes.{followed_fault, bool_fault, route_fault, whole_route_fault, route_of, joined, chained, starred};

use crate::faults::need;
use crate::route_sizes::is_small;
use crate::type_names::{Followed, TypeNames};
use pale_syntax::{Name, Route as SourceRoute};
use pale_text::{Pos, RefusalKind, TextStop};
use plain_data::{Boxed, Items};
use std::alloc::{AllocError, Global};
use store_core::{ByteList, Route};

/// How a chain of routes is joined.
#[derive(Clone, Copy, Debug, PartialEq, Eq)]
pub enum Chain {
    /// One after the other.
    Then,
    /// Either.
    Or,
}

/// `f`, or `^f`
fn read_step(
    alloc: Global,
    names: &TypeNames,
    followed: Followed,
    f: &Name,
    is_up: bool,
) -> Result<Route, TextStop>
    ensures met { OnOk result (followed_fault names.now followed f.now ≡ None) }
    ensures route { IfOk result (λ made. made ≡ (if is_up then route.Up f.now.bytes else route.Down f.now.bytes)) }
    ensures stop { IfErr result (IsStop (followed_fault names.now followed f.now)) }
{
    names.need_followed(followed, f)?;
    let name = Items::from_slice(alloc, f.bytes.as_slice())?;
    if is_up {
        Ok(Route::Up(name))
    } else {
        Ok(Route::Down(name))
    }
}

/// The name of a bool field.
fn read_bool(alloc: Global, names: &TypeNames, f: &Name) -> Result<ByteList, TextStop>
    ensures met { OnOk result (bool_fault names.now f.now ≡ None) }
    ensures name { IfOk result (λ name. name ≡ f.now.bytes) }
    ensures stop { IfErr result (IsStop (bool_fault names.now f.now)) }
{
    names.need_bool(f)?;
    Ok(Items::from_slice(alloc, f.bytes.as_slice())?)
}

fn join(alloc: Global, chain: Chain, first: Route, second: Route) -> Result<Route, AllocError>
    ensures { IfOk result (λ made. made ≡ joined chain first second) }
{
    let first = Boxed::new(alloc, first)?;
    let second = Boxed::new(alloc, second)?;
    match chain {
        Chain::Then => Ok(Route::Then(first, second)),
        Chain::Or => Ok(Route::Or(first, second)),
    }
}

/// One star more for each place.
fn add_stars(alloc: Global, round: Route, stars: &[Pos]) -> Result<Route, AllocError>
    ensures { IfOk result (λ made. made ≡ starred round stars.now) }
{
    let mut route = round;
    for _star in stars {
        route = Route::Star(Boxed::new(alloc, route)?);
    }
    Ok(route)
}

/// A chain groups to the left.
fn join_all(
    alloc: Global,
    chain: Chain,
    first: Route,
    others: Items<Route>,
) -> Result<Route, AllocError>
    ensures { IfOk result (λ made. made ≡ chained chain first others) }
{
    let mut route = first;
    for next in others.into_vec() {
        route = join(alloc, chain, route, next)?;
    }
    Ok(route)
}

/// Routes, one after the other.
#[cycle(routes)]
fn read_each(
    alloc: Global,
    names: &TypeNames,
    followed: Followed,
    routes: &[SourceRoute],
) -> Result<Items<Route>, TextStop>
    ensures met { OnOk result (first_of (route_fault names.now followed) routes.now ≡ None) }
    ensures found { IfOk result (λ found. found ≡ map (route_of names.now) routes.now) }
    ensures stop { IfErr result (IsStop (first_of (route_fault names.now followed) routes.now)) }
{
    let mut found = Items::new(alloc);
    for route in routes {
        let next = read_part(alloc, names, followed, route)?;
        found.push(next)?;
    }
    Ok(found)
}

/// The routes of a chain, whose first was read before.
#[cycle(routes)]
fn read_others(
    alloc: Global,
    names: &TypeNames,
    followed: Followed,
    others: &[SourceRoute],
    chain: Chain,
    first: Route,
) -> Result<Route, TextStop>
    ensures met { OnOk result (first_of (route_fault names.now followed) others.now ≡ None) }
    ensures route { IfOk result (λ made. made ≡ chained chain first (map (route_of names.now) others.now)) }
    ensures stop { IfErr result (IsStop (first_of (route_fault names.now followed) others.now)) }
{
    let others = read_each(alloc, names, followed, others)?;
    Ok(join_all(alloc, chain, first, others)?)
}

/// A route, or a part of one, with its names looked up.
///
/// # Errors
///
/// `Refused` is the first fault from the left: `unknown` at a field that no type has, at a type or a variant that isn't there;
/// `kind` at a field that no type has in the form that the route needs.
#[cycle(routes)]
#[tactic(auto, using(crate::proofs::RouteLemmas::route_forms, crate::proofs::FaultLemmas::stops, crate::proofs::FaultLemmas::tails))]
fn read_part(
    alloc: Global,
    names: &TypeNames,
    followed: Followed,
    route: &SourceRoute,
) -> Result<Route, TextStop>
    ensures met { OnOk result (route_fault names.now followed route.now ≡ None) }
    ensures route { IfOk result (λ made. made ≡ route_of names.now route.now) }
    ensures stop { IfErr result (IsStop (route_fault names.now followed route.now)) }
{
    match route {
        SourceRoute::Down(f) => read_step(alloc, names, followed, f, false),
        SourceRoute::Up(f) => read_step(alloc, names, followed, f, true),
        SourceRoute::UpAny => Ok(Route::UpAny),
        SourceRoute::Root => Ok(Route::Root),
        SourceRoute::Leaf => Ok(Route::Leaf),
        SourceRoute::IsType(ty) => Ok(Route::IsType(names.find_type(ty)?)),
        SourceRoute::IsVariant(ty, v) => Ok(Route::IsVariant(names.find_variant(ty, v)?)),
        SourceRoute::IsBool(f, truth) => Ok(Route::IsBool(read_bool(alloc, names, f)?, *truth)),
        SourceRoute::Then(first, others) => {
            let first = read_part(alloc, names, followed, first.get())?;
            read_others(
                alloc,
                names,
                followed,
                others.as_slice(),
                Chain::Then,
                first,
            )
        }
        SourceRoute::Or(first, others) => {
            let first = read_part(alloc, names, followed, first.get())?;
            read_others(alloc, names, followed, others.as_slice(), Chain::Or, first)
        }
        SourceRoute::Star(round, stars) => {
            let round = read_part(alloc, names, followed, round.get())?;
            Ok(add_stars(alloc, round, stars.as_slice())?)
        }
    }
}

/// A route where it stands, with its names looked up. The place is that of its `[` or `<`.
///
/// # Errors
///
/// `Refused` is `big-route` at the place where the route has more than 1,024 nodes, before any of its names is looked up: each
/// step, each test and each `.`, `+` and `*` counts one. Then it is the first fault of its names from the left: `unknown` at a
/// field that no type has, at a type or a variant that isn't there; `kind` at a field that no type has in the form that the route
/// needs.
#[tactic(auto, unfolding(crate::specs::Routes::whole_route_fault))]
pub fn read_route(
    alloc: Global,
    names: &TypeNames,
    followed: Followed,
    place: Pos,
    route: &SourceRoute,
) -> Result<Route, TextStop>
    ensures met { OnOk result (whole_route_fault names.now followed place route.now ≡ None) }
    ensures route { IfOk result (λ made. made ≡ route_of names.now route.now) }
    ensures stop { IfErr result (IsStop (whole_route_fault names.now followed place route.now)) }
{
    need(is_small(route), RefusalKind::BigRoute, place)?;
    let made = read_part(alloc, names, followed, route)?;
    Ok(made)
}
