//! Assertions of any form.

ghost use Rattle.std.specs.Prelude.{◌≡◌, None, length, map, take, IfOk, IfErr, OnOk};
ghost use Rattle.pale_tables.specs.Faults.{first_of, ◌>>◌, IsStop};
ghost use Rattle.pale_vocabulary.specs.declared.connective.Connective.TheVariants.{Imp};
ghost use Rattle.pale_vocabulary.specs.Assertions.{assertion_fault, typed_assertion, inside_fault, governed};
ghost use Rattle.pale_vocabulary.specs.Connectives.{connected, chained, negated};
ghost use Rattle.pale_vocabulary.specs.Quantifiers.{bound_type, inside};

use crate::atoms::read_alone;
use crate::connectives::{connect, connect_all, negate, quantify};
use crate::quantifiers::bind;
use pale_syntax::{Assertion as SourceAssertion, Quantifier};
use pale_terms::Scope;
use pale_text::TextStop;
use pale_vocabulary::{Connective, Vocabulary};
use plain_data::Items;
use std::alloc::Global;
use store_core::TypeId;
use store_logic::Assertion;

/// Assertions, one after the other.
#[cycle(assertions)]
fn read_each(
    alloc: Global,
    vocabulary: &Vocabulary,
    scope: &mut Scope,
    assertions: &[SourceAssertion],
) -> Result<Items<Assertion>, TextStop>
    ensures met { OnOk result (first_of (assertion_fault vocabulary.now scope.old) assertions.now ≡ None) }
    ensures found { IfOk result (λ found. found ≡ map (typed_assertion vocabulary.now scope.old) assertions.now) }
    ensures scope { scope.new ≡ scope.old }
    ensures stop { IfErr result (IsStop (first_of (assertion_fault vocabulary.now scope.old) assertions.now)) }
{
    let mut found = Items::new(alloc);
    for assertion in assertions {
        let next = read_assertion(alloc, vocabulary, scope, assertion)?;
        found.push(next)?;
    }
    Ok(found)
}

/// What denies an assertion.
#[cycle(assertions)]
fn read_not(
    alloc: Global,
    vocabulary: &Vocabulary,
    scope: &mut Scope,
    inner: &SourceAssertion,
) -> Result<Assertion, TextStop>
    ensures met { OnOk result (assertion_fault vocabulary.now scope.old inner.now ≡ None) }
    ensures assertion { IfOk result (λ made. made ≡ negated (typed_assertion vocabulary.now scope.old inner.now)) }
    ensures scope { scope.new ≡ scope.old }
    ensures stop { IfErr result (IsStop (assertion_fault vocabulary.now scope.old inner.now)) }
{
    let inner = read_assertion(alloc, vocabulary, scope, inner)?;
    Ok(negate(alloc, inner)?)
}

/// The assertions of a chain, whose first was read before.
#[cycle(assertions)]
fn read_others(
    alloc: Global,
    vocabulary: &Vocabulary,
    scope: &mut Scope,
    others: &[SourceAssertion],
    connective: Connective,
    first: Assertion,
) -> Result<Assertion, TextStop>
    ensures met { OnOk result (first_of (assertion_fault vocabulary.now scope.old) others.now ≡ None) }
    ensures assertion { IfOk result (λ made. made ≡ chained connective first (map (typed_assertion vocabulary.now scope.old) others.now)) }
    ensures scope { scope.new ≡ scope.old }
    ensures stop { IfErr result (IsStop (first_of (assertion_fault vocabulary.now scope.old) others.now)) }
{
    let others = read_each(alloc, vocabulary, scope, others)?;
    Ok(connect_all(alloc, connective, first, others)?)
}

/// The right side of an implication, whose left side was read before.
#[cycle(assertions)]
fn read_right(
    alloc: Global,
    vocabulary: &Vocabulary,
    scope: &mut Scope,
    right: &SourceAssertion,
    left: Assertion,
) -> Result<Assertion, TextStop>
    ensures met { OnOk result (assertion_fault vocabulary.now scope.old right.now ≡ None) }
    ensures assertion { IfOk result (λ made. made ≡ connected Imp left (typed_assertion vocabulary.now scope.old right.now)) }
    ensures scope { scope.new ≡ scope.old }
    ensures stop { IfErr result (IsStop (assertion_fault vocabulary.now scope.old right.now)) }
{
    let right = read_assertion(alloc, vocabulary, scope, right)?;
    Ok(connect(alloc, Connective::Imp, left, right)?)
}

/// What a quantifier binds, and what it governs. The scope has kept the names that it had, and maybe more.
#[cycle(assertions)]
fn read_inside(
    alloc: Global,
    vocabulary: &Vocabulary,
    scope: &mut Scope,
    quantifier: &Quantifier,
    inner: &SourceAssertion,
) -> Result<(TypeId, Assertion), TextStop>
    ensures met { OnOk result (inside_fault vocabulary.now scope.old quantifier.now inner.now ≡ None) }
    ensures ty { IfOk result (λ found. found.0 ≡ bound_type vocabulary.now.types quantifier.now) }
    ensures inner { IfOk result (λ found. found.1 ≡ typed_assertion vocabulary.now (inside vocabulary.now.types scope.old quantifier.now) inner.now) }
    ensures kept { take (length scope.old) scope.new ≡ scope.old }
    ensures stop { IfErr result (IsStop (inside_fault vocabulary.now scope.old quantifier.now inner.now)) }
{
    let ty = bind(scope, &vocabulary.types, quantifier)?;
    let inner = read_assertion(alloc, vocabulary, scope, inner)?;
    Ok((ty, inner))
}

/// A quantifier and what it governs.
#[cycle(assertions)]
fn read_quantified(
    alloc: Global,
    vocabulary: &Vocabulary,
    scope: &mut Scope,
    quantifier: &Quantifier,
    inner: &SourceAssertion,
) -> Result<Assertion, TextStop>
    ensures met { OnOk result (inside_fault vocabulary.now scope.old quantifier.now inner.now ≡ None) }
    ensures assertion { IfOk result (λ made. made ≡ governed vocabulary.now scope.old quantifier.now inner.now) }
    ensures scope { scope.new ≡ scope.old }
    ensures stop { IfErr result (IsStop (inside_fault vocabulary.now scope.old quantifier.now inner.now)) }
{
    let before = scope.len();
    let read = read_inside(alloc, vocabulary, scope, quantifier, inner);
    scope.close(before);
    let (ty, inner) = read?;
    Ok(quantify(alloc, quantifier, ty, inner)?)
}

/// An assertion with its names looked up. Nothing is put in for predicates. The scope is used for what quantifiers bind, and is in
/// the end as it was.
///
/// # Errors
///
/// `Refused` is the first fault from the left.
#[cycle(assertions)]
#[tactic(auto, using(pale_vocabulary::proofs::AssertionLemmas::assertion_forms, crate::proofs::FirstFault::faults))]
pub fn read_assertion(
    alloc: Global,
    vocabulary: &Vocabulary,
    scope: &mut Scope,
    assertion: &SourceAssertion,
) -> Result<Assertion, TextStop>
    ensures met { OnOk result (assertion_fault vocabulary.now scope.old assertion.now ≡ None) }
    ensures assertion { IfOk result (λ made. made ≡ typed_assertion vocabulary.now scope.old assertion.now) }
    ensures scope { scope.new ≡ scope.old }
    ensures stop { IfErr result (IsStop (assertion_fault vocabulary.now scope.old assertion.now)) }
{
    match assertion {
        SourceAssertion::Not(_, inner) => read_not(alloc, vocabulary, scope, inner.get()),
        SourceAssertion::And(first, others) => {
            let first = read_assertion(alloc, vocabulary, scope, first.get())?;
            let others = others.as_slice();
            read_others(alloc, vocabulary, scope, others, Connective::And, first)
        }
        SourceAssertion::Or(first, others) => {
            let first = read_assertion(alloc, vocabulary, scope, first.get())?;
            let others = others.as_slice();
            read_others(alloc, vocabulary, scope, others, Connective::Or, first)
        }
        SourceAssertion::Imp(left, _, right) => {
            let left = read_assertion(alloc, vocabulary, scope, left.get())?;
            read_right(alloc, vocabulary, scope, right.get(), left)
        }
        SourceAssertion::Iff(first, others) => {
            let first = read_assertion(alloc, vocabulary, scope, first.get())?;
            let others = others.as_slice();
            read_others(alloc, vocabulary, scope, others, Connective::Iff, first)
        }
        SourceAssertion::Quantified(quantifier, inner) => {
            read_quantified(alloc, vocabulary, scope, quantifier, inner.get())
        }
        _ => read_alone(alloc, vocabulary, scope, assertion),
    }
}
