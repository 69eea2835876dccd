//! What stands after a return: the callee's cells beside the rest.

ghost use Rattle.std.specs.Prelude.{◌≡◌, ◌==◌, ◌≤◌, List, option_map, IfOk};
ghost use Rattle.std.specs.List.{find, zip};
ghost use Rattle.hoare_split.specs.Picking.{class_at, is_spent};
ghost use Rattle.store_exec.specs.Steps as steps;
ghost use Rattle.whole_run.specs.Handing as calls;
ghost use Rattle.whole_handing.specs.Beside.{AreApart};

use crate::beside::beside;
use crate::restricting::restricted;
use hoare_split::{class_at, is_argument, is_listed};
use pale_typed::CallParts;
use plain_data::Items;
use std::alloc::{AllocError, Global};
use store_core::{Store, Value, VarId, VarTable};

/// The result of the callee that is assigned to the variable.
fn result_for(awaited: &[VarId], results: &[VarId], var: VarId) -> Option<VarId>
    ensures { result ≡ option_map (λ pair. pair.1) (find (λ pair. pair.0.0 == var.0) (zip awaited.now results.now)) }
{
    for (own, theirs) in awaited.iter().zip(results) {
        if own.0 == var.0 {
            return Some(*theirs);
        }
    }
    None
}

/// Whether the variable is null after the call: a data or pointer argument that is no result.
fn is_spent(vars: &VarTable, call: &CallParts, var: VarId) -> bool
    ensures { result ≡ is_spent call.now (class_at vars.now var) var }
{
    class_at(vars, var).holds_cell()
        && is_argument(call.args.as_slice(), var)
        && !is_listed(call.results.as_slice(), var)
}

/// What a variable holds; an unknown one is null.
fn copied(alloc: Global, store: &Store, var: VarId) -> Result<Value, AllocError>
    ensures { IfOk result (λ value. value ≡ steps.variable store.now var) }
{
    match store.var(var) {
        Some(value) => value.copy(alloc),
        None => Ok(Value::Cell(None)),
    }
}

/// A variable of the caller after the return.
fn value_after(
    alloc: Global,
    vars: &VarTable,
    call: &CallParts,
    results: &[VarId],
    rest: &Store,
    exited: &Store,
    var: VarId,
) -> Result<Value, AllocError>
    ensures { IfOk result (λ value. value ≡ calls.value_after vars.now call.now results.now rest.now exited.now var) }
{
    match result_for(call.results.as_slice(), results, var) {
        Some(theirs) => copied(alloc, exited, theirs),
        None => {
            if is_spent(vars, call, var) {
                Ok(Value::Cell(None))
            } else {
                copied(alloc, rest, var)
            }
        }
    }
}

/// The variables of the caller after the return, in their order.
fn values_after(
    alloc: Global,
    vars: &VarTable,
    call: &CallParts,
    results: &[VarId],
    rest: &Store,
    exited: &Store,
) -> Result<Items<Value>, AllocError>
    ensures { IfOk result (λ values. values ≡ (calls.beside_rest vars.now call.now results.now rest.now exited.now).vars) }
{
    let mut values = Items::new(alloc);
    for index in 0..vars.vars() {
        values.push(value_after(alloc, vars, call, results, rest, exited, VarId(index))?)?;
    }
    Ok(values)
}

/// The caller's store after the return.
pub fn returned_store(
    alloc: Global,
    vars: &VarTable,
    call: &CallParts,
    results: &[VarId],
    rest: &Store,
    exited: &Store,
) -> Result<Store, AllocError>
    requires apart { AreApart exited.now rest.now }
    requires later { rest.now.next ≤ exited.now.next }
    ensures { IfOk result (λ after. after ≡ calls.returned_store vars.now call.now results.now rest.now exited.now) }
{
    let values = values_after(alloc, vars, call, results, rest, exited)?;
    let both = beside(alloc, exited, rest, values)?;
    restricted(alloc, vars, both)
}
