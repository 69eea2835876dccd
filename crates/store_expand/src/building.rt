//! The building of an assertion with its predicates put in.

ghost use Rattle.std.specs.Prelude.{◌≡◌, List, ◌∷◌, false, Some, IfOk, IsSome};
ghost use Rattle.store_logic.specs.declared.assertion.Assertion.{Assertion};
ghost use Rattle.store_logic.specs.declared.assertion.Assertion.TheVariants as assertion;
ghost use Rattle.store_logic.specs.Postfix.{applied, has_parts};
ghost use Rattle.store_logic.specs.Expansion.{expansion};
ghost use Rattle.store_logic.specs.Uses.{CanExpand};
ghost use Rattle.store_expand.specs.Standing.{put_term};
ghost use Rattle.store_expand.specs.Opening.{form_at};
ghost use Rattle.store_expand.specs.Places.{standing, form_there};

use crate::around::Around;
use crate::places::{Place, in_postfix};
use plain_data::Stack;
use std::alloc::{AllocError, Global};
use store_core::Route;
use store_logic::{Assertion, PredDef, Term};

/// The assertion with its predicates put in, by loops, however deep it is.
pub(crate) fn build(
    alloc: Global,
    preds: &[PredDef],
    assertion: &Assertion,
) -> Result<Assertion, AllocError>
    requires { CanExpand preds.now assertion.now }
    ensures { IfOk result (λ expanded. expanded ≡ expansion preds.now assertion.now) }
{
    let places = in_postfix(alloc, preds, assertion)?;
    let mut made = Stack::new(alloc);
    for place in places.as_slice() {
        let next = make(alloc, &mut made, place)?;
        made.push(next)?;
    }
    let Some(expanded) = made.pop() else {
        unreachable!()
    };
    Ok(expanded)
}

/// The assertion of the form at the place, with the last ones made, which it takes, as its parts.
fn make(
    alloc: Global,
    made: &mut Stack<Assertion>,
    place: &Place<'_>,
) -> Result<Assertion, AllocError>
    requires { IsSome (applied (form_there place.now) made.old) }
    ensures { IfOk result (λ whole. applied (form_there place.now) made.old ≡ Some (whole ∷ made.new)) }
{
    if place.assertion.has_parts() {
        place.assertion.from_last(alloc, made)
    } else {
        make_leaf(alloc, place.assertion, &place.around)
    }
}

/// The assertion, which has no parts, with the arguments put in.
fn make_leaf(alloc: Global, leaf: &Assertion, around: &Around) -> Result<Assertion, AllocError>
    requires { has_parts leaf.now ≡ false }
    ensures { IfOk result (λ made. (before : List Assertion) →
        applied (form_at (leaf.now, standing around.now)) before ≡ Some (made ∷ before)) }
{
    match leaf {
        Assertion::True => Ok(Assertion::True),
        Assertion::False => Ok(Assertion::False),
        Assertion::Truth(t) => around.truth(alloc, t),
        Assertion::Is(t, v) => Ok(Assertion::Is(around.term(alloc, t)?, *v)),
        Assertion::Same(t, u) => make_same(alloc, t, u, around),
        Assertion::Member(t, set) => {
            let set = around.set(*set)?;
            Ok(Assertion::Member(around.term(alloc, t)?, set))
        }
        Assertion::Subset(set, other) => {
            Ok(Assertion::Subset(around.set(*set)?, around.set(*other)?))
        }
        Assertion::Walk(t, route, u) => make_walk(alloc, t, route, u, around),
        Assertion::Pred(k, args) => {
            Ok(Assertion::Pred(*k, around.arg_list(alloc, args.as_slice())?))
        }
        _ => unreachable!(),
    }
}

/// That the terms are the same, with the arguments put in.
fn make_same(
    alloc: Global,
    one: &Term,
    other: &Term,
    around: &Around,
) -> Result<Assertion, AllocError>
    ensures { IfOk result (λ made. made ≡ assertion.Same (put_term (standing around.now) one.now) (put_term (standing around.now) other.now)) }
{
    let one = around.term(alloc, one)?;
    Ok(Assertion::Same(one, around.term(alloc, other)?))
}

/// That a walk of the route leads from one term to the other, with the arguments put in.
fn make_walk(
    alloc: Global,
    from: &Term,
    route: &Route,
    to: &Term,
    around: &Around,
) -> Result<Assertion, AllocError>
    ensures { IfOk result (λ made. made
        ≡ assertion.Walk (put_term (standing around.now) from.now) route.now (put_term (standing around.now) to.now)) }
{
    let from = around.term(alloc, from)?;
    Ok(Assertion::Walk(from, route.copy(alloc)?, around.term(alloc, to)?))
}
