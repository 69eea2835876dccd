//! Assertions that have no others in them.

ghost use Rattle.std.specs.Prelude.{◌≡◌, false, None, IfOk, IfErr, OnOk};
ghost use Rattle.pale_tables.specs.Faults.{IsStop};
ghost use Rattle.pale_terms.specs.Terms.{compared_fault, variant_test_fault};
ghost use Rattle.pale_vocabulary.specs.Atoms.{truth_fault, truth_of, member_fault, member_of, subset_fault, subset_of, walk_fault, walk_of};
ghost use Rattle.pale_vocabulary.specs.Atoms.{sets_fault, sets_of, same_of, is_of, is_in_type};
ghost use Rattle.pale_vocabulary.specs.Assertions.{assertion_fault, typed_assertion};
ghost use Rattle.pale_assertions.specs.Parts.{has_parts};

use crate::arguments::read_use;
use crate::connectives::negate;
use pale_syntax::{
    Assertion as SourceAssertion, Name, Path, Route as SourceRoute, Term as SourceTerm,
};
use pale_tables::{Followed, need, read_route};
use pale_terms::{
    Scope, Sort, read_cell, read_compared, read_path, read_reference, read_set, read_set_path,
    read_variant_test,
};
use pale_text::{Pos, Refusal, RefusalKind, TextStop};
use pale_vocabulary::Vocabulary;
use std::alloc::Global;
use store_core::{TypeId, TypeTable};
use store_logic::Assertion;

/// A path alone, whose truth is asked.
#[tactic(auto, unfolding(pale_vocabulary::specs::Atoms::truth_fault, pale_vocabulary::specs::Atoms::truth_of))]
fn read_truth(
    alloc: Global,
    types: &TypeTable,
    scope: &Scope,
    path: &Path,
) -> Result<Assertion, TextStop>
    ensures met { OnOk result (truth_fault types.now scope.now path.now ≡ None) }
    ensures assertion { IfOk result (λ made. made ≡ truth_of types.now scope.now path.now) }
    ensures stop { IfErr result (IsStop (truth_fault types.now scope.now path.now)) }
{
    let typed = read_path(alloc, types, scope, path)?;
    need(typed.sort.is_truth(), RefusalKind::Type, path.base.place)?;
    Ok(Assertion::Truth(typed.into_term()))
}

/// `t = u`
#[tactic(auto, unfolding(pale_vocabulary::specs::Atoms::same_of))]
fn read_same(
    alloc: Global,
    types: &TypeTable,
    scope: &Scope,
    left: &SourceTerm,
    operator: Pos,
    right: &SourceTerm,
) -> Result<Assertion, TextStop>
    ensures met { OnOk result (compared_fault types.now scope.now left.now operator right.now ≡ None) }
    ensures assertion { IfOk result (λ made. made ≡ same_of types.now scope.now left.now right.now) }
    ensures stop { IfErr result (IsStop (compared_fault types.now scope.now left.now operator right.now)) }
{
    let (left, right) = read_compared(alloc, types, scope, left, operator, right)?;
    Ok(Assertion::Same(left.into_term(), right.into_term()))
}

/// Whether a set is of cells of the type.
fn is_in_type(ty: Option<TypeId>, set: Sort) -> bool
    ensures { result ≡ is_in_type ty set }
{
    match ty {
        Some(ty) => set.is_of_type_of(Sort::Cell(ty)),
        None => false,
    }
}

/// `t in S`
#[tactic(auto, unfolding(pale_vocabulary::specs::Atoms::member_fault, pale_vocabulary::specs::Atoms::member_of))]
fn read_member(
    alloc: Global,
    types: &TypeTable,
    scope: &Scope,
    term: &SourceTerm,
    word: Pos,
    set: &Name,
) -> Result<Assertion, TextStop>
    ensures met { OnOk result (member_fault types.now scope.now term.now word set.now ≡ None) }
    ensures assertion { IfOk result (λ made. made ≡ member_of types.now scope.now term.now set.now) }
    ensures stop { IfErr result (IsStop (member_fault types.now scope.now term.now word set.now)) }
{
    let term = read_cell(alloc, types, scope, term, word)?;
    let set = read_set(scope, set)?;
    need(
        is_in_type(term.cell_type(), set.sort),
        RefusalKind::Type,
        word,
    )?;
    Ok(Assertion::Member(term.into_term(), set.base))
}

/// `S sub U` of two names.
#[tactic(auto, unfolding(pale_vocabulary::specs::Atoms::sets_fault, pale_vocabulary::specs::Atoms::sets_of))]
fn read_subset_of(
    scope: &Scope,
    path: &Path,
    word: Pos,
    other: &Name,
) -> Result<Assertion, TextStop>
    ensures met { OnOk result (sets_fault scope.now path.now word other.now ≡ None) }
    ensures assertion { IfOk result (λ made. made ≡ sets_of scope.now path.now other.now) }
    ensures stop { IfErr result (IsStop (sets_fault scope.now path.now word other.now)) }
{
    let one = read_set_path(scope, path)?;
    let other = read_set(scope, other)?;
    need(one.sort.is_of_type_of(other.sort), RefusalKind::Type, word)?;
    Ok(Assertion::Subset(one.base, other.base))
}

/// `S sub U`
fn read_subset(
    scope: &Scope,
    term: &SourceTerm,
    word: Pos,
    other: &Name,
) -> Result<Assertion, TextStop>
    ensures met { OnOk result (subset_fault scope.now term.now word other.now ≡ None) }
    ensures assertion { IfOk result (λ made. made ≡ subset_of scope.now term.now other.now) }
    ensures stop { IfErr result (IsStop (subset_fault scope.now term.now word other.now)) }
{
    match term {
        SourceTerm::Null(_) => Err(TextStop::Refused(Refusal::at(word, RefusalKind::Type))),
        SourceTerm::Path(path) => read_subset_of(scope, path, word, other),
    }
}

/// `t <R> u`
#[tactic(auto, unfolding(pale_vocabulary::specs::Atoms::walk_fault, pale_vocabulary::specs::Atoms::walk_of))]
fn read_walk(
    alloc: Global,
    vocabulary: &Vocabulary,
    scope: &Scope,
    from: &SourceTerm,
    angle: Pos,
    route: &SourceRoute,
    to: &SourceTerm,
) -> Result<Assertion, TextStop>
    ensures met { OnOk result (walk_fault vocabulary.now scope.now from.now angle route.now to.now ≡ None) }
    ensures assertion { IfOk result (λ made. made ≡ walk_of vocabulary.now scope.now from.now route.now to.now) }
    ensures stop { IfErr result (IsStop (walk_fault vocabulary.now scope.now from.now angle route.now to.now)) }
{
    let from = read_reference(alloc, &vocabulary.types, scope, from, angle)?;
    let followed = Followed::DataAndPointers;
    let route = read_route(alloc, &vocabulary.names, followed, angle, route)?;
    let to = read_reference(alloc, &vocabulary.types, scope, to, angle)?;
    Ok(Assertion::Walk(from.into_term(), route, to.into_term()))
}

/// `t : v`
#[tactic(auto, unfolding(pale_vocabulary::specs::Atoms::is_of))]
fn read_is(
    alloc: Global,
    types: &TypeTable,
    scope: &Scope,
    term: &SourceTerm,
    colon: Pos,
    v: &Name,
) -> Result<Assertion, TextStop>
    ensures met { OnOk result (variant_test_fault types.now scope.now term.now colon v.now ≡ None) }
    ensures assertion { IfOk result (λ made. made ≡ is_of types.now scope.now term.now v.now) }
    ensures stop { IfErr result (IsStop (variant_test_fault types.now scope.now term.now colon v.now)) }
{
    let (term, variant) = read_variant_test(alloc, types, scope, term, colon, v)?;
    Ok(Assertion::Is(term.into_term(), variant))
}

/// An assertion that has no others in it, of any form.
#[tactic(auto, using(pale_vocabulary::proofs::AssertionLemmas::assertion_forms, pale_tables::proofs::FaultLemmas::stops))]
pub fn read_alone(
    alloc: Global,
    vocabulary: &Vocabulary,
    scope: &Scope,
    assertion: &SourceAssertion,
) -> Result<Assertion, TextStop>
    requires { has_parts assertion.now ≡ false }
    ensures met { OnOk result (assertion_fault vocabulary.now scope.now assertion.now ≡ None) }
    ensures assertion { IfOk result (λ made. made ≡ typed_assertion vocabulary.now scope.now assertion.now) }
    ensures stop { IfErr result (IsStop (assertion_fault vocabulary.now scope.now assertion.now)) }
{
    let types = &vocabulary.types;
    match assertion {
        SourceAssertion::True => Ok(Assertion::True),
        SourceAssertion::False => Ok(Assertion::False),
        SourceAssertion::Truth(path) => read_truth(alloc, types, scope, path),
        SourceAssertion::Same(left, operator, right) => {
            read_same(alloc, types, scope, left, *operator, right)
        }
        SourceAssertion::Differ(left, operator, right) => {
            let same = read_same(alloc, types, scope, left, *operator, right)?;
            Ok(negate(alloc, same)?)
        }
        SourceAssertion::Member(term, word, set) => {
            read_member(alloc, types, scope, term, *word, set)
        }
        SourceAssertion::Subset(term, word, other) => read_subset(scope, term, *word, other),
        SourceAssertion::Walk(from, angle, route, to) => {
            read_walk(alloc, vocabulary, scope, from, *angle, route, to)
        }
        SourceAssertion::Is(term, colon, v) => read_is(alloc, types, scope, term, *colon, v),
        SourceAssertion::Use(name, paths) => {
            read_use(alloc, vocabulary, scope, name, paths.as_slice())
        }
        _ => unreachable!(),
    }
}
