//! The forms of an assertion with its predicates put in, each as it stands in the assertion or in a predicate's body.

ghost use Rattle.std.specs.Prelude.{◌≡◌, [], ◌∷◌, ◌++◌, map, option_map, IfOk, OnOk};
ghost use Rattle.store_logic.specs.Postfix.{postfix_of};
ghost use Rattle.store_logic.specs.Expansion.{expansion};
ghost use Rattle.store_logic.specs.Uses.{CanExpand};
ghost use Rattle.store_expand.specs.Places.{standing, spot};
ghost use Rattle.store_expand.specs.Opening.{form_at, body_there, parts_there, stepped};

use crate::around::Around;
use plain_data::at;
use std::alloc::{AllocError, Global};
use store_logic::{Assertion, PredDef};

/// An assertion as it stands in a predicate's body, or outside of all predicates.
#[derive(Drop)]
pub(crate) struct Place<'a> {
    pub(crate) assertion: &'a Assertion,
    pub(crate) around: Around,
}

/// The places of the forms of the assertion with its predicates put in, each after those of its parts.
pub(crate) fn in_postfix<'a>(
    alloc: Global,
    preds: &'a [PredDef],
    assertion: &'a Assertion,
) -> Result<Vec<Place<'a>>, AllocError>
    requires { CanExpand preds.now assertion.now }
    ensures { IfOk result (λ places. map form_at (map spot places.items) ≡ postfix_of (expansion preds.now assertion.now)) }
{
    let mut pending = Vec::new(alloc);
    pending.push(Place {
        assertion,
        around: Around::top(),
    })?;
    let mut places = Vec::new(alloc);
    while let Some(next) = pending.pop() {
        step(alloc, preds, &mut pending, &mut places, next)?;
    }
    places.reverse();
    Ok(places)
}

/// A predicate's use gives way to the body of the predicate; any other form is put at the end of the places, and its parts at the
/// end of what is still to be gone through.
fn step<'a>(
    alloc: Global,
    preds: &'a [PredDef],
    pending: &mut Vec<Place<'a>>,
    places: &mut Vec<Place<'a>>,
    next: Place<'a>,
) -> Result<(), AllocError>
    ensures { OnOk result ((map spot pending.new.items, map spot places.new.items)
        ≡ stepped preds.now (spot next.entry) (map spot pending.old.items) (map spot places.old.items)) }
{
    match body_of(alloc, preds, &next)? {
        Some(body) => pending.push(body)?,
        None => {
            push_parts(pending, &next)?;
            places.push(next)?;
        }
    }
    Ok(())
}

/// The body of the predicate that is used at the place, where the arguments of the use go in. `None` where no predicate of the list
/// is used there.
fn body_of<'a>(
    alloc: Global,
    preds: &'a [PredDef],
    place: &Place<'a>,
) -> Result<Option<Place<'a>>, AllocError>
    ensures { IfOk result (λ body. option_map spot body ≡ body_there preds.now (spot place.now)) }
{
    let Assertion::Pred(k, args) = place.assertion else {
        return Ok(None);
    };
    let Some(pred) = at(preds, *k as usize) else {
        return Ok(None);
    };
    let put = place.around.arg_list(alloc, args.as_slice())?;
    Ok(Some(Place {
        assertion: &pred.body,
        around: Around::body(alloc, put)?,
    }))
}

/// Puts the parts of the assertion at a place at the end of what is still to be gone through.
fn push_parts<'a>(pending: &mut Vec<Place<'a>>, place: &Place<'a>) -> Result<(), AllocError>
    ensures { OnOk result (map spot pending.new.items ≡ map spot pending.old.items ++ parts_there (spot place.now)) }
{
    match place.assertion {
        Assertion::And(left, right)
        | Assertion::Or(left, right)
        | Assertion::Imp(left, right)
        | Assertion::Iff(left, right) => {
            push_place(pending, left.get(), place.around.again()?)?;
            push_place(pending, right.get(), place.around.again()?)
        }
        Assertion::Not(inner) => push_place(pending, inner.get(), place.around.again()?),
        Assertion::Ex(_, inner)
        | Assertion::All(_, inner)
        | Assertion::ExSet(_, inner)
        | Assertion::AllSet(_, inner) => {
            push_place(pending, inner.get(), place.around.deeper()?)
        }
        _ => Ok(()),
    }
}

fn push_place<'a>(
    pending: &mut Vec<Place<'a>>,
    assertion: &'a Assertion,
    around: Around,
) -> Result<(), AllocError>
    ensures { OnOk result (map spot pending.new.items ≡ map spot pending.old.items ++ (assertion.now, standing around) ∷ []) }
{
    pending.push(Place { assertion, around })?;
    Ok(())
}
