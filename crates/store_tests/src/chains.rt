//! Predicates that each use the one before: what is put in where bodies double, and the deepest assertion that may be made.

ghost use Rattle.std.specs.Prelude.{◌≡◌, ◌+◌, ◌<◌, [], length, IfOk};
ghost use Rattle.store_logic.specs.Uses.{CanExpand};
ghost use Rattle.store_tests.specs.Chains.{IsLink};

use crate::programs::{NONE, SHORT};
use crate::questions::{Question, answers};
use plain_data::Boxed;
use std::alloc::{AllocError, Global};
use std::test::Fail;
use store_core::{Store, TypeTable};
use store_expand::{ExpandFault, SizedPreds, expand};
use store_logic::{ArgList, Assertion, PredDef, Preds, Region};
use store_sat::sat;

/// The use of a predicate without arguments.
fn used(alloc: Global, k: u32) -> Assertion
    ensures { result ≡ Assertion.Pred k [] }
{
    Assertion::Pred(k, ArgList::new(alloc))
}

/// That a predicate holds twice, or that it doesn't hold.
fn link(alloc: Global, last: u32, twice: bool) -> Result<PredDef, AllocError>
    ensures { IfOk result (IsLink (last + 1)) }
{
    let first = Boxed::new(alloc, used(alloc, last))?;
    let body = if twice {
        Assertion::And(first, Boxed::new(alloc, used(alloc, last))?)
    } else {
        Assertion::Not(first)
    };
    Ok(PredDef { params: 0, body })
}

/// A predicate that holds, and so many more that each use the one before, twice or under a negation. The last of them can be put
/// in.
fn chain(alloc: Global, more: u32, twice: bool) -> Result<Preds, AllocError>
    ensures { IfOk result (λ preds. CanExpand preds (Assertion.Pred more [])) }
{
    let mut preds = Preds::new(alloc);
    preds.push(PredDef {
        params: 0,
        body: Assertion::True,
    })?;
    for last in 0..more {
        preds.push(link(alloc, last, twice)?)?;
    }
    Ok(preds)
}

/// The last predicate of such a chain, put in.
fn expanded(alloc: Global, more: u32, twice: bool) -> Result<Assertion, ExpandFault> {
    let preds = chain(alloc, more, twice)?;
    let last = used(alloc, more);
    expand(alloc, &preds, &last)
}

fn is_too_big(alloc: Global, more: u32, twice: bool) -> bool {
    match expanded(alloc, more, twice) {
        Ok(_assertion) => false,
        Err(fault) => fault == ExpandFault::TooBig,
    }
}

/// How many times the assertion says that the rest doesn't hold.
fn nots(assertion: &Assertion) -> u32 {
    let mut rest = assertion;
    let mut count = 0u32;
    while let Assertion::Not(inner) = rest {
        rest = inner.get();
        count = count.saturating_add(1);
    }
    count
}

/// The negation of a copy of the assertion.
fn negation(alloc: Global, assertion: &Assertion) -> Result<Assertion, AllocError> {
    let copy = assertion.copy(alloc)?;
    Ok(Assertion::Not(Boxed::new(alloc, copy)?))
}

/// Whether the store satisfies the negation of a copy of the assertion.
fn is_negation_true(
    alloc: Global,
    types: &TypeTable,
    store: &Store,
    assertion: &Assertion,
) -> Result<bool, AllocError> {
    let negated = negation(alloc, assertion)?;
    sat(alloc, types, store, &Region::All, &negated)
}

/// Whether the store satisfies the assertion, and whether it satisfies the negation of a copy.
pub(crate) fn judged(
    alloc: Global,
    types: &TypeTable,
    store: &Store,
    assertion: &Assertion,
) -> Result<(bool, bool), AllocError> {
    let truth = sat(alloc, types, store, &Region::All, assertion)?;
    Ok((truth, is_negation_true(alloc, types, store, assertion)?))
}

/// Whether an assertion of the most nodes is judged on a store without cells.
fn is_judged(alloc: Global, deepest: &Assertion) -> Result<bool, Fail> {
    let question = Question::Both(deepest, (false, true));
    Ok(nots(deepest) == 65_535 && answers(alloc, SHORT, "true", NONE, question)?)
}

/// Whether the most nodes are put in and judged.
fn are_most_judged(alloc: Global) -> Result<bool, Fail> {
    let deepest = expanded(alloc, 65_535, false)?;
    is_judged(alloc, &deepest)
}

#[test]
fn the_most_nodes_are_put_in_judged_and_copied(rt: HostRuntime) -> Result<(), Fail> {
    assert!(rt; are_most_judged(rt.alloc())?);
    assert!(rt; is_too_big(rt.alloc(), 65_536, false));
    assert!(rt; is_too_big(rt.alloc(), 39, true), "bodies that double");
    Ok(())
}

fn with_sizes(alloc: Global, preds: Preds) -> Result<SizedPreds, AllocError>
    ensures { IfOk result (λ sized. sized ≡ preds) }
{
    let mut sized = SizedPreds::new(alloc);
    for pred in preds.into_vec() {
        sized.add(pred)?;
    }
    Ok(sized)
}

/// The predicates of a chain whose bodies double, with their sizes.
fn sized_chain(alloc: Global, more: u32) -> Result<SizedPreds, AllocError>
    ensures { IfOk result (λ sized. CanExpand sized (Assertion.Pred more [])) }
{
    let preds = chain(alloc, more, true)?;
    let sized = with_sizes(alloc, preds)?;
    Ok(sized)
}

/// Whether an assertion is too big by the sizes that are kept, and whether it is put in.
fn told_by(alloc: Global, sized: &SizedPreds, last: &Assertion) -> Result<(bool, bool), AllocError>
    requires { CanExpand sized.now last.now }
{
    let is_big = sized.is_too_big(alloc, last)?;
    Ok((is_big, sized.expand(alloc, last).is_ok()))
}

/// The same of the last of so many predicates, each of which uses the one before twice.
fn sized(alloc: Global, more: u32) -> Result<(bool, bool), AllocError> {
    let sized = sized_chain(alloc, more)?;
    let last = used(alloc, more);
    told_by(alloc, &sized, &last)
}

#[test]
fn kept_sizes_tell_what_is_put_in(rt: HostRuntime) -> Result<(), Fail> {
    let alloc = rt.alloc();
    assert!(rt; sized(alloc, 15)? == (false, true));
    assert!(rt; sized(alloc, 16)? == (true, false));
    assert!(rt; sized(alloc, 2_000)? == (true, false));
    Ok(())
}
