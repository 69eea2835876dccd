//! Long routes, and copies.

use crate::programs::{NONE, SHORT};
use crate::questions::{Question, answers};
use plain_data::{Boxed, Items};
use std::alloc::{AllocError, Global};
use std::test::Fail;
use store_core::Route;
use store_logic::Assertion;

/// What a level puts around a route.
#[derive(Clone, Copy)]
enum Level {
    /// A step behind it.
    Before,
    /// A step in front of it.
    Behind,
    /// A step as another choice.
    Or,
    /// Any number of repetitions.
    Star,
}

/// How many rounds of levels a long route has, and the levels of a round: steps one after the other, grouped from the left or from the right,
/// or choices and repetitions within one another, on both sides.
static SHAPES: &[(u32, &[Level])] = &[
    (100_000, &[Level::Before]),
    (100_000, &[Level::Behind]),
    (
        50_000,
        &[Level::Star, Level::Or, Level::Star, Level::Behind],
    ),
];

fn step(alloc: Global) -> Result<Route, AllocError> {
    Ok(Route::Down(Items::from_slice(alloc, b"next")?))
}

/// The route, and a step.
fn with_step(alloc: Global, route: Route) -> Result<(Boxed<Route>, Boxed<Route>), AllocError> {
    let route = Boxed::new(alloc, route)?;
    Ok((route, Boxed::new(alloc, step(alloc)?)?))
}

/// The route with one more level around it.
fn grown(alloc: Global, level: Level, route: Route) -> Result<Route, AllocError> {
    if matches!(level, Level::Star) {
        return Ok(Route::Star(Boxed::new(alloc, route)?));
    }
    let (route, step) = with_step(alloc, route)?;
    match level {
        Level::Before => Ok(Route::Then(route, step)),
        Level::Behind => Ok(Route::Then(step, route)),
        Level::Or | Level::Star => Ok(Route::Or(route, step)),
    }
}

/// The route with a level around it for each of the list, in order.
fn round(alloc: Global, shape: &[Level], route: Route) -> Result<Route, AllocError> {
    let mut route = route;
    for level in shape {
        route = grown(alloc, *level, route)?;
    }
    Ok(route)
}

/// A route of so many rounds of levels.
fn long(alloc: Global, rounds: u32, shape: &[Level]) -> Result<Route, AllocError> {
    let mut route = step(alloc)?;
    for _ in 0..rounds {
        route = round(alloc, shape, route)?;
    }
    Ok(route)
}

/// Whether a route ends with two parts one after the other.
fn is_row(route: &Route) -> bool {
    matches!(route, Route::Then(_, _))
}

/// Whether the route and its copy end with two parts one after the other. The copy is dropped.
fn is_copied(alloc: Global, route: &Route) -> Result<bool, AllocError> {
    let copy = route.copy(alloc)?;
    Ok(is_row(route) && is_row(&copy))
}

/// Whether a long route is copied. Both are dropped.
fn is_long_copied(alloc: Global, rounds: u32, shape: &[Level]) -> Result<bool, AllocError> {
    let route = long(alloc, rounds, shape)?;
    is_copied(alloc, &route)
}

#[test]
fn long_routes_are_copied_and_dropped(rt: HostRuntime) -> Result<(), Fail> {
    for (rounds, shape) in SHAPES {
        assert!(rt; is_long_copied(rt.alloc(), *rounds, shape)?);
    }
    Ok(())
}

/// A number that tells the forms without parts apart, with their types, variants and truth values; 0 for any other.
fn form_of(route: &Route) -> u32 {
    match route {
        Route::Up(_) => 1,
        Route::UpAny => 2,
        Route::Root => 3,
        Route::Leaf => 4,
        Route::IsBool(_, is_true) => 5 + *is_true as u32,
        Route::IsType(ty) => 10 + ty.0 % 10,
        Route::IsVariant(v) => 20 + 10 * (v.ty.0 % 10) + v.index % 10,
        _ => 0,
    }
}

/// The form of the copy of the route that an assertion walks; 0 where it walks none.
pub(crate) fn form_of_copy(alloc: Global, assertion: &Assertion) -> Result<u32, AllocError> {
    let Assertion::Walk(_, route, _) = assertion else {
        return Ok(0);
    };
    let copy = route.copy(alloc)?;
    Ok(form_of(&copy))
}

/// Each form without parts, and its number.
static FORMS: &[(&str, u32)] = &[
    ("x<^next>x", 1),
    ("x<^>x", 2),
    ("x<root>x", 3),
    ("x<$>x", 4),
    ("x<!mark>x", 5),
    ("x<?mark>x", 6),
    ("x<@Tree>x", 11),
    ("x<@Tree:node>x", 31),
];

#[test]
fn every_form_of_route_is_copied(rt: HostRuntime) -> Result<(), Fail> {
    for (route, form) in FORMS {
        let is_so = answers(rt.alloc(), SHORT, route, NONE, Question::Copied(*form))?;
        assert!(rt; is_so, "{route}");
    }
    Ok(())
}
