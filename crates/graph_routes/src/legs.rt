//! The parts of a walk.

ghost use Rattle.std.specs.Prelude.{◌≡◌, ◌++◌, IfOk, OnOk, map};
ghost use Rattle.store_core.specs.declared.kind.Route.{out-Route};
ghost use Rattle.store_core.specs.declared.kind.Route.TheOpen.{Route-F};
ghost use Rattle.graph_routes.specs.Legs.{part_of, parts_of, span_of, spans_in};

use std::alloc::{AllocError, Global};
use store_core::Route;
use ws2s_forms::later;

/// A route, the first track that its formula may bind, and the tracks that it joins.
#[derive(Clone, Copy)]
pub(crate) struct Leg<'a> {
    pub(crate) route: &'a Route,
    pub(crate) next: u32,
    pub(crate) from: u32,
    pub(crate) to: u32,
}

/// A walk and its parts, each after its own parts.
pub(crate) fn in_postfix<'a>(
    alloc: Global,
    route: &'a Route,
    next: u32,
    from: u32,
    to: u32,
) -> Result<Vec<Leg<'a>>, AllocError>
    ensures { IfOk result (λ legs. map part_of legs.items ≡ parts_of route.now next from to) }
{
    let mut pending = Vec::new(alloc);
    pending.push(Leg {
        route,
        next,
        from,
        to,
    })?;
    let mut legs = Vec::new(alloc);
    while let Some(leg) = pending.pop() {
        legs.push(leg)?;
        push_parts(&mut pending, leg)?;
    }
    legs.reverse();
    Ok(legs)
}

/// One after the other, by the first track that is free.
fn push_both<'a>(
    pending: &mut Vec<Leg<'a>>,
    first: &'a Route,
    second: &'a Route,
    whole: Leg<'a>,
) -> Result<(), AllocError>
    ensures { OnOk result (map span_of pending.new.items
        ≡ map span_of pending.old.items ++ spans_in (Route-F.Then first.now second.now) whole.entry.next whole.entry.from whole.entry.to) }
{
    let between = whole.next;
    let next = later(between, 1)?;
    pending.push(Leg {
        route: first,
        next,
        from: whole.from,
        to: between,
    })?;
    pending.push(Leg {
        route: second,
        next,
        from: between,
        to: whole.to,
    })?;
    Ok(())
}

/// Either, between the same tracks.
fn push_either<'a>(
    pending: &mut Vec<Leg<'a>>,
    one: &'a Route,
    other: &'a Route,
    whole: Leg<'a>,
) -> Result<(), AllocError>
    ensures { OnOk result (map span_of pending.new.items
        ≡ map span_of pending.old.items ++ spans_in (Route-F.Or one.now other.now) whole.entry.next whole.entry.from whole.entry.to) }
{
    let Leg { next, from, to, .. } = whole;
    pending.push(Leg {
        route: one,
        next,
        from,
        to,
    })?;
    pending.push(Leg {
        route: other,
        next,
        from,
        to,
    })?;
    Ok(())
}

/// One round, between the tracks behind that of the set.
fn push_round<'a>(
    pending: &mut Vec<Leg<'a>>,
    round: &'a Route,
    whole: Leg<'a>,
) -> Result<(), AllocError>
    ensures { OnOk result (map span_of pending.new.items
        ≡ map span_of pending.old.items ++ spans_in (Route-F.Star round.now) whole.entry.next whole.entry.from whole.entry.to) }
{
    pending.push(Leg {
        route: round,
        next: later(whole.next, 3)?,
        from: later(whole.next, 1)?,
        to: later(whole.next, 2)?,
    })?;
    Ok(())
}

/// Puts the parts of a walk at the end of those that are still to be gone through.
fn push_parts<'a>(pending: &mut Vec<Leg<'a>>, whole: Leg<'a>) -> Result<(), AllocError>
    ensures { OnOk result (map span_of pending.new.items
        ≡ map span_of pending.old.items ++ spans_in (out-Route whole.entry.route.now) whole.entry.next whole.entry.from whole.entry.to) }
{
    match whole.route {
        Route::Then(first, second) => push_both(pending, first.get(), second.get(), whole),
        Route::Or(one, other) => push_either(pending, one.get(), other.get(), whole),
        Route::Star(round) => push_round(pending, round.get(), whole),
        _ => Ok(()),
    }
}
