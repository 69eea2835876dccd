//! The truth of conditions.

ghost use Rattle.std.specs.Prelude.{◌≡◌, ◌+◌, ◌<◌, Ok, Err, MatchResult, IfOk};
ghost use Rattle.store_core.specs.Stores.{StoreMap};
ghost use Rattle.store_logic.specs.PostfixConds.{form_count};
ghost use Rattle.store_logic.specs.Terms.{null, cell_in, truth_in};
ghost use Rattle.store_exec.specs.declared.cause.Cause.{Cause};
ghost use Rattle.store_exec.specs.declared.halt.Halt.TheVariants.{Fails};
ghost use Rattle.store_exec.specs.Steps as steps;
ghost use Rattle.store_exec.specs.Steps.{and_then, made_of, truth_of, is_same};
ghost use Rattle.store_runner.specs.Conditions.{IsTold, resumed, weight_of, Resumes};

use crate::reading::{cell_through, operand_value, path_value};
use plain_data::Stack;
use std::alloc::Global;
use store_core::{CellId, Store, Value, VariantId};
use store_exec::{Cause, Halt};
use store_logic::{Cond, Operand, Path};

/// What waits for the truth of a part.
#[derive(Clone, Copy)]
pub(crate) enum Waiting<'a> {
    /// It is turned over.
    Not,
    /// The right side of `&&`, read where the part is true.
    And(&'a Cond),
    /// The right side of `||`, read where the part is false.
    Or(&'a Cond),
}

/// What comes after a part's truth is known.
#[derive(Clone, Copy)]
enum Next<'a> {
    /// The whole has this truth.
    Told(bool),
    /// This condition is read.
    Read(&'a Cond),
}

/// The truth of a condition, however deep it is. It is read from the left, and `&&` and `||` stop early.
pub(crate) fn truth(
    alloc: Global,
    store: &Store,
    nothing: &Value,
    cond: &Cond,
) -> Result<bool, Halt>
    requires { nothing.now ≡ null }
    ensures { IsTold (truth_of store.now cond.now) result }
{
    let mut waiting = Stack::new(alloc);
    let mut cond = cond;
    loop {
        let part = first_part(store, nothing, cond, &mut waiting)?;
        match resume(part, &mut waiting) {
            Next::Told(truth) => return Ok(truth),
            Next::Read(next) => cond = next,
        }
    }
}

/// The truth of the part of a condition that is read first; what waits for it is put on the stack.
#[tactic(auto, using(crate::proofs::TruthLemmas::resumed_err))]
fn first_part<'a>(
    store: &Store,
    nothing: &Value,
    cond: &'a Cond,
    waiting: &mut Stack<Waiting<'a>>,
) -> Result<bool, Halt>
    requires { nothing.now ≡ null }
    ensures told { MatchResult result (λ part. resumed store.now waiting.new (Ok part) ≡ resumed store.now waiting.old (truth_of store.now cond.now))
        (λ why. (cause : Cause) → why ≡ Fails cause → resumed store.now waiting.old (truth_of store.now cond.now) ≡ Err cause) }
    ensures less { IfOk result (λ part. weight_of waiting.new < form_count cond.now + weight_of waiting.old) }
{
    let mut cond = cond;
    loop {
        match cond {
            Cond::Not(part) => {
                waiting.push(Waiting::Not)?;
                cond = part.get();
            }
            Cond::And(part, right) => {
                waiting.push(Waiting::And(right.get()))?;
                cond = part.get();
            }
            Cond::Or(part, right) => {
                waiting.push(Waiting::Or(right.get()))?;
                cond = part.get();
            }
            Cond::True => return Ok(true),
            Cond::False => return Ok(false),
            Cond::Bool(path) => return answer(truth_at(store, nothing, path)),
            Cond::Is(path, variant) => return answer(is_of(store, nothing, path, *variant)),
            Cond::Same(one, other) => return answer(are_same(store, nothing, one, other)),
        }
    }
}

/// The truth of a part, or what stops all.
fn answer(part: Result<bool, Cause>) -> Result<bool, Halt>
    ensures { MatchResult result (λ truth. part ≡ Ok truth) (λ why. (cause : Cause) → why ≡ Fails cause → part ≡ Err cause) }
{
    match part {
        Ok(truth) => Ok(truth),
        Err(cause) => Err(Halt::Fails(cause)),
    }
}

/// Hands the truth of a part to what waits for it, until a condition is to be read or the whole is told.
fn resume<'a>(part: bool, waiting: &mut Stack<Waiting<'a>>) -> Next<'a>
    ensures { (s : StoreMap) → Resumes s waiting.old part waiting.new result }
{
    let mut truth = part;
    while let Some(next) = waiting.pop() {
        match next {
            Waiting::Not => truth = !truth,
            Waiting::And(right) => {
                if truth {
                    return Next::Read(right);
                }
            }
            Waiting::Or(right) => {
                if !truth {
                    return Next::Read(right);
                }
            }
        }
    }
    Next::Told(truth)
}

/// Whether what stands at the path is true.
fn truth_at(store: &Store, nothing: &Value, path: &Path) -> Result<bool, Cause>
    requires { nothing.now ≡ null }
    ensures { result ≡ made_of truth_in (steps.path_value store.now path.now) }
{
    match path_value(store, nothing, path)? {
        Value::Bool(truth) => Ok(*truth),
        Value::Cell(_) | Value::Cells(_) => Ok(false),
    }
}

/// Whether the cell at the path is of the variant.
fn is_of(store: &Store, nothing: &Value, path: &Path, variant: VariantId) -> Result<bool, Cause>
    requires { nothing.now ≡ null }
    ensures { result ≡ made_of (steps.is_of store.now variant) (and_then (steps.cell_through store.now) (steps.path_value store.now path.now)) }
{
    let cell = cell_through(store, path_value(store, nothing, path)?)?;
    Ok(store.variant_of(cell) == Some(variant))
}

/// Whether both operands are null, or both one cell.
fn are_same(store: &Store, nothing: &Value, one: &Operand, other: &Operand) -> Result<bool, Cause>
    requires { nothing.now ≡ null }
    ensures { result ≡ and_then (λ x. made_of (λ y. is_same (cell_in x) (cell_in y)) (steps.operand_value store.now other.now))
        (steps.operand_value store.now one.now) }
{
    let one = operand_value(store, nothing, one)?;
    let other = operand_value(store, nothing, other)?;
    Ok(cell_of(one) == cell_of(other))
}

/// The cell, where the value is one.
pub(crate) fn cell_of(value: &Value) -> Option<CellId>
    ensures { result ≡ cell_in value.now }
{
    match value {
        Value::Cell(cell) => *cell,
        Value::Bool(_) | Value::Cells(_) => None,
    }
}
