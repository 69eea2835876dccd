//! Predicates, in order.

ghost use Rattle.std.specs.Prelude.{◌≡◌, [], None, length, map, IfOk, IfErr, OnOk};
ghost use Rattle.store_core.specs.Tables.{place_of};
ghost use Rattle.pale_tables.specs.Faults.{need, IsStop};
ghost use Rattle.pale_tables.specs.Names.{is_new, repeated_fault};
ghost use Rattle.pale_vocabulary.specs.Heads.{head_names};
ghost use Rattle.pale_vocabulary.specs.Assertions.{typed_assertion};
ghost use Rattle.pale_text.specs.declared.refusal.RefusalKind.TheVariants as kind;
ghost use Rattle.pale_vocabulary.specs.Predicates.{bracketed_fault, with_parts, with_pred, predicate_fault};
ghost use Rattle.pale_vocabulary.specs.Predicates.{predicates_fault, declared_by, nothing_with};

use crate::parameters::read_parameters;
use pale_assertions::read_assertion;
use pale_syntax::{Bracketed, Name, PredicateDeclaration};
use pale_tables::{Names, TypeNames, need};
use pale_terms::{Scope, Sort};
use pale_text::{Refusal, RefusalKind, TextStop};
use pale_vocabulary::{Declared, PredHeads, Vocabulary};
use plain_data::Items;
use std::alloc::{AllocError, Global};
use store_core::TypeTable;
use store_expand::SizedPreds;
use store_logic::{Assertion, PredDef};

/// Looks at a name after those before it.
fn need_new(before: &Names, name: &Name) -> Result<(), TextStop>
    ensures met { OnOk result (need (is_new before.now name.now.bytes) kind.Duplicate name.now.place ≡ None) }
    ensures new { OnOk result (place_of name.now.bytes before.now ≡ None) }
    ensures stop { IfErr result (IsStop (need (is_new before.now name.now.bytes) kind.Duplicate name.now.place)) }
{
    match before.find(name.bytes.as_slice()) {
        None => Ok(()),
        Some(_) => Err(TextStop::Refused(Refusal::at(name.place, RefusalKind::Duplicate))),
    }
}

/// Looks at the names of predicates, in order of the text.
///
/// # Errors
///
/// `Refused` is `duplicate` at the second predicate of a name.
pub fn check_predicate_names(
    alloc: Global,
    predicates: &[&PredicateDeclaration],
) -> Result<(), TextStop>
    ensures met { OnOk result (repeated_fault [] (map (λ p. p.now.name) predicates.now) ≡ None) }
    ensures stop { IfErr result (IsStop (repeated_fault [] (map (λ p. p.now.name) predicates.now))) }
{
    let mut before = Names::new(alloc);
    for predicate in predicates {
        let name = predicate.name.bytes.as_slice();
        need_new(&before, &predicate.name)?;
        before.add(name)?;
    }
    Ok(())
}

/// An assertion in its brackets, with its names looked up. Nothing is put in for predicates. The scope is in the end as it was.
///
/// # Errors
///
/// `Refused` is the first fault of the assertion, and then `big-formula` at its `[` where it has more than 65,536 nodes with its
/// predicates put in, the nodes of each side of a `<=>` counted twice. Its size is found before anything is built.
#[tactic(auto, unfolding(pale_vocabulary::specs::Predicates::bracketed_fault))]
pub fn read_bracketed(
    alloc: Global,
    declared: &Declared,
    scope: &mut Scope,
    bracketed: &Bracketed,
) -> Result<Assertion, TextStop>
    ensures met { OnOk result (bracketed_fault declared.now scope.old bracketed.now ≡ None) }
    ensures assertion { IfOk result (λ made. made ≡ typed_assertion declared.now.vocabulary scope.old bracketed.now.assertion) }
    ensures scope { scope.new ≡ scope.old }
    ensures stop { IfErr result (IsStop (bracketed_fault declared.now scope.old bracketed.now)) }
{
    let assertion = read_assertion(alloc, &declared.vocabulary, scope, &bracketed.assertion)?;
    let is_too_big = declared.preds.is_too_big(alloc, &assertion)?;
    need(!is_too_big, RefusalKind::BigFormula, bracketed.place)?;
    Ok(assertion)
}

/// Adds a predicate of a name that is new. Want of memory may leave its head alone.
fn add_predicate(
    declared: &mut Declared,
    name: &Name,
    params: Items<Sort>,
    body: Assertion,
) -> Result<(), AllocError>
    requires { place_of name.now.bytes (head_names declared.old.vocabulary.preds) ≡ None }
    ensures { OnOk result (declared.new ≡ with_parts declared.old name.now.bytes params body) }
{
    let Ok(count) = u32::try_from(params.len()) else {
        return Err(AllocError);
    };
    declared
        .vocabulary
        .preds
        .add(name.bytes.as_slice(), params)?;
    declared.preds.add(PredDef {
        params: count,
        body,
    })
}

/// A predicate after those before it.
#[tactic(auto, unfolding(pale_vocabulary::specs::Predicates::predicate_fault, pale_vocabulary::specs::Predicates::with_pred))]
fn read_predicate(
    alloc: Global,
    declared: &mut Declared,
    predicate: &PredicateDeclaration,
) -> Result<(), TextStop>
    requires { place_of predicate.now.name.bytes (head_names declared.old.vocabulary.preds) ≡ None }
    ensures met { OnOk result (predicate_fault declared.old predicate.now ≡ None) }
    ensures declared { OnOk result (declared.new ≡ with_pred declared.old predicate.now) }
    ensures stop { IfErr result (IsStop (predicate_fault declared.old predicate.now)) }
{
    let (mut scope, params) = read_parameters(
        alloc,
        &declared.vocabulary.types,
        predicate.parameters.as_slice(),
    )?;
    let body = read_bracketed(alloc, declared, &mut scope, &predicate.body)?;
    Ok(add_predicate(declared, &predicate.name, params, body)?)
}

/// The predicates in order, whose names have no fault, over these types.
///
/// # Errors
///
/// `Refused` is the first fault: in each predicate its parameters and then its body, as `read_parameters` and `read_bracketed`
/// say. A body may use only the predicates before it.
pub fn read_predicates(
    alloc: Global,
    types: TypeTable,
    names: TypeNames,
    predicates: &[&PredicateDeclaration],
) -> Result<Declared, TextStop>
    requires { repeated_fault [] (map (λ p. p.now.name) predicates.now) ≡ None }
    ensures met { OnOk result (predicates_fault (nothing_with types names) (map (λ p. p.now) predicates.now) ≡ None) }
    ensures declared { IfOk result (λ declared. declared ≡ declared_by types names (map (λ p. p.now) predicates.now)) }
    ensures stop { IfErr result (IsStop (predicates_fault (nothing_with types names) (map (λ p. p.now) predicates.now))) }
{
    let vocabulary = Vocabulary {
        types,
        names,
        preds: PredHeads::new(alloc),
    };
    let mut declared = Declared {
        vocabulary,
        preds: SizedPreds::new(alloc),
    };
    for predicate in predicates {
        read_predicate(alloc, &mut declared, predicate)?;
    }
    Ok(declared)
}
