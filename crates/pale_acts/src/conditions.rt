//! Conditions.

ghost use Rattle.std.specs.Prelude.{◌≡◌, None, map, IfOk, IfErr, OnOk};
ghost use Rattle.pale_tables.specs.Faults.{first_of, IsStop};
ghost use Rattle.pale_terms.specs.Terms.{compared_fault, variant_test_fault};
ghost use Rattle.pale_acts.specs.Conditions.{is_truth_path, truth_fault, truth_in, truth_of, same_of, is_in, is_of, joined, chained, negated};
ghost use Rattle.pale_acts.specs.Conditions.{condition_fault, typed_condition};

use crate::operands::{first_place, operand_in, path_in};
use pale_syntax::{Condition, Name, Term as SourceTerm};
use pale_tables::need;
use pale_terms::{Scope, TypedTerm, read_compared, read_term, read_variant_test};
use pale_text::{Pos, RefusalKind, TextStop};
use plain_data::{Boxed, Items};
use std::alloc::{AllocError, Global};
use store_core::{TypeTable, VariantId};
use store_logic::Cond;

/// How a chain of conditions is joined.
#[derive(Clone, Copy, Debug, PartialEq, Eq)]
pub enum Junction {
    And,
    Or,
}

/// Two conditions joined.
fn join(alloc: Global, junction: Junction, left: Cond, right: Cond) -> Result<Cond, AllocError>
    ensures { IfOk result (λ made. made ≡ joined junction left right) }
{
    let left = Boxed::new(alloc, left)?;
    let right = Boxed::new(alloc, right)?;
    match junction {
        Junction::And => Ok(Cond::And(left, right)),
        Junction::Or => Ok(Cond::Or(left, right)),
    }
}

/// A chain, which groups to the left.
fn join_all(
    alloc: Global,
    junction: Junction,
    first: Cond,
    others: Items<Cond>,
) -> Result<Cond, AllocError>
    ensures { IfOk result (λ made. made ≡ chained junction first others) }
{
    let mut made = first;
    for next in others.into_vec() {
        made = join(alloc, junction, made, next)?;
    }
    Ok(made)
}

fn negate(alloc: Global, inner: Cond) -> Result<Cond, AllocError>
    ensures { IfOk result (λ made. made ≡ negated inner) }
{
    Ok(Cond::Not(Boxed::new(alloc, inner)?))
}

/// Whether a term is a path to a truth value.
fn is_truth_path(term: &TypedTerm) -> bool
    ensures { result ≡ is_truth_path term.now }
{
    match term {
        TypedTerm::Null => false,
        TypedTerm::Path(path) => path.sort.is_truth(),
    }
}

fn truth_in(term: TypedTerm) -> Cond
    ensures { result ≡ truth_in term }
{
    match term {
        TypedTerm::Null => Cond::False,
        TypedTerm::Path(path) => Cond::Bool(path_in(path)),
    }
}

/// A term alone, whose truth is asked.
#[tactic(auto, unfolding(crate::specs::Conditions::truth_fault, crate::specs::Conditions::truth_of))]
fn read_truth(
    alloc: Global,
    types: &TypeTable,
    scope: &Scope,
    term: &SourceTerm,
) -> Result<Cond, TextStop>
    ensures met { OnOk result (truth_fault types.now scope.now term.now ≡ None) }
    ensures condition { IfOk result (λ made. made ≡ truth_of types.now scope.now term.now) }
    ensures stop { IfErr result (IsStop (truth_fault types.now scope.now term.now)) }
{
    let place = first_place(term);
    let typed = read_term(alloc, types, scope, term)?;
    need(is_truth_path(&typed), RefusalKind::Type, place)?;
    Ok(truth_in(typed))
}

/// `t == u`
#[tactic(auto, unfolding(crate::specs::Conditions::same_of))]
fn read_same(
    alloc: Global,
    types: &TypeTable,
    scope: &Scope,
    left: &SourceTerm,
    operator: Pos,
    right: &SourceTerm,
) -> Result<Cond, TextStop>
    ensures met { OnOk result (compared_fault types.now scope.now left.now operator right.now ≡ None) }
    ensures condition { IfOk result (λ made. made ≡ same_of types.now scope.now left.now right.now) }
    ensures stop { IfErr result (IsStop (compared_fault types.now scope.now left.now operator right.now)) }
{
    let (left, right) = read_compared(alloc, types, scope, left, operator, right)?;
    Ok(Cond::Same(operand_in(left), operand_in(right)))
}

fn is_in(term: TypedTerm, variant: VariantId) -> Cond
    ensures { result ≡ is_in term variant }
{
    match term {
        TypedTerm::Null => Cond::False,
        TypedTerm::Path(path) => Cond::Is(path_in(path), variant),
    }
}

/// `t : v`
#[tactic(auto, unfolding(crate::specs::Conditions::is_of))]
fn read_is(
    alloc: Global,
    types: &TypeTable,
    scope: &Scope,
    term: &SourceTerm,
    colon: Pos,
    v: &Name,
) -> Result<Cond, TextStop>
    ensures met { OnOk result (variant_test_fault types.now scope.now term.now colon v.now ≡ None) }
    ensures condition { IfOk result (λ made. made ≡ is_of types.now scope.now term.now v.now) }
    ensures stop { IfErr result (IsStop (variant_test_fault types.now scope.now term.now colon v.now)) }
{
    let (term, variant) = read_variant_test(alloc, types, scope, term, colon, v)?;
    Ok(is_in(term, variant))
}

/// Conditions, one after the other.
#[cycle(conditions)]
fn read_each(
    alloc: Global,
    types: &TypeTable,
    scope: &Scope,
    conditions: &[Condition],
) -> Result<Items<Cond>, TextStop>
    ensures met { OnOk result (first_of (condition_fault types.now scope.now) conditions.now ≡ None) }
    ensures found { IfOk result (λ found. found ≡ map (typed_condition types.now scope.now) conditions.now) }
    ensures stop { IfErr result (IsStop (first_of (condition_fault types.now scope.now) conditions.now)) }
{
    let mut found = Items::new(alloc);
    for condition in conditions {
        let next = read_condition(alloc, types, scope, condition)?;
        found.push(next)?;
    }
    Ok(found)
}

/// The conditions of a chain, whose first was read before.
#[cycle(conditions)]
fn read_others(
    alloc: Global,
    types: &TypeTable,
    scope: &Scope,
    others: &[Condition],
    junction: Junction,
    first: Cond,
) -> Result<Cond, TextStop>
    ensures met { OnOk result (first_of (condition_fault types.now scope.now) others.now ≡ None) }
    ensures condition { IfOk result (λ made. made ≡ chained junction first (map (typed_condition types.now scope.now) others.now)) }
    ensures stop { IfErr result (IsStop (first_of (condition_fault types.now scope.now) others.now)) }
{
    let others = read_each(alloc, types, scope, others)?;
    Ok(join_all(alloc, junction, first, others)?)
}

/// A condition with its names looked up.
///
/// # Errors
///
/// `Refused` is the first fault from the left.
#[cycle(conditions)]
#[tactic(auto, using(crate::proofs::ConditionLemmas::condition_forms, pale_tables::proofs::FaultLemmas::stops, pale_tables::proofs::FaultLemmas::tails))]
pub fn read_condition(
    alloc: Global,
    types: &TypeTable,
    scope: &Scope,
    condition: &Condition,
) -> Result<Cond, TextStop>
    ensures met { OnOk result (condition_fault types.now scope.now condition.now ≡ None) }
    ensures condition { IfOk result (λ made. made ≡ typed_condition types.now scope.now condition.now) }
    ensures stop { IfErr result (IsStop (condition_fault types.now scope.now condition.now)) }
{
    match condition {
        Condition::True(_) => Ok(Cond::True),
        Condition::False(_) => Ok(Cond::False),
        Condition::Truth(term) => read_truth(alloc, types, scope, term),
        Condition::Same(left, operator, right) => {
            read_same(alloc, types, scope, left, *operator, right)
        }
        Condition::Differ(left, operator, right) => {
            let same = read_same(alloc, types, scope, left, *operator, right)?;
            Ok(negate(alloc, same)?)
        }
        Condition::Is(term, colon, v) => read_is(alloc, types, scope, term, *colon, v),
        Condition::Not(_, inner) => {
            let inner = read_condition(alloc, types, scope, inner.get())?;
            Ok(negate(alloc, inner)?)
        }
        Condition::And(first, others) => {
            let first = read_condition(alloc, types, scope, first.get())?;
            read_others(alloc, types, scope, others.as_slice(), Junction::And, first)
        }
        Condition::Or(first, others) => {
            let first = read_condition(alloc, types, scope, first.get())?;
            read_others(alloc, types, scope, others.as_slice(), Junction::Or, first)
        }
    }
}
