//! Whether two routes are the same.

ghost use Rattle.std.specs.Prelude.{◌≡◌, ◌∷◌, ◌<◌, IfOk, OnOk, IsTrue};
ghost use Rattle.store_sat.specs.RoutePairs.{AllSame, pairs_left};

use plain_data::Stack;
use std::alloc::{AllocError, Global};
use store_core::Route;

/// Two routes that are compared.
#[derive(Clone, Copy)]
pub(crate) struct RoutePair<'a> {
    pub(crate) one: &'a Route,
    pub(crate) other: &'a Route,
}

/// Whether two routes without parts are seen to be the same.
fn are_same_steps(one: &Route, other: &Route) -> bool
    ensures { IsTrue result → one.now ≡ other.now }
{
    match (one, other) {
        (Route::Down(one), Route::Down(other)) => one.as_slice() == other.as_slice(),
        (Route::Up(one), Route::Up(other)) => one.as_slice() == other.as_slice(),
        (Route::UpAny, Route::UpAny) => true,
        (Route::Root, Route::Root) => true,
        (Route::Leaf, Route::Leaf) => true,
        (Route::IsType(one), Route::IsType(other)) => *one == *other,
        (Route::IsVariant(one), Route::IsVariant(other)) => *one == *other,
        (Route::IsBool(one, held), Route::IsBool(other, hold)) => *held == *hold
            && one.as_slice() == other.as_slice(),
        _ => false,
    }
}

/// Puts on top the parts of two routes, which are still to be compared; no where the routes are seen to differ.
fn push_parts<'a>(
    pending: &mut Stack<RoutePair<'a>>,
    pair: RoutePair<'a>,
) -> Result<bool, AllocError>
    ensures same { IfOk result (λ alike. IsTrue alike → AllSame pending.new → AllSame (pair.entry ∷ pending.old)) }
    ensures left { OnOk result (pairs_left pending.new < pairs_left (pair.entry ∷ pending.old)) }
{
    match (pair.one, pair.other) {
        (Route::Then(one, next), Route::Then(other, after)) => {
            pending.push(RoutePair {
                one: one.get(),
                other: other.get(),
            })?;
            pending.push(RoutePair {
                one: next.get(),
                other: after.get(),
            })?;
            Ok(true)
        }
        (Route::Or(one, next), Route::Or(other, after)) => {
            pending.push(RoutePair {
                one: one.get(),
                other: other.get(),
            })?;
            pending.push(RoutePair {
                one: next.get(),
                other: after.get(),
            })?;
            Ok(true)
        }
        (Route::Star(one), Route::Star(other)) => {
            pending.push(RoutePair {
                one: one.get(),
                other: other.get(),
            })?;
            Ok(true)
        }
        _ => Ok(are_same_steps(pair.one, pair.other)),
    }
}

/// Whether two routes are seen to be the same, by a loop, however deep they are.
pub(crate) fn are_same_routes(alloc: Global, one: &Route, other: &Route) -> Result<bool, AllocError>
    ensures { IfOk result (λ same. IsTrue same → one.now ≡ other.now) }
{
    let mut pending = Stack::new(alloc);
    pending.push(RoutePair { one, other })?;
    while let Some(pair) = pending.pop() {
        if !push_parts(&mut pending, pair)? {
            return Ok(false);
        }
    }
    Ok(true)
}
