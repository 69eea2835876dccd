//! What a call hands over, and what stays behind.

ghost use Rattle.std.specs.Prelude.{◌≡◌, ◌++◌, IfOk, OnOk, map, filter};
ghost use Rattle.store_core.specs.CellLists.{AreRising};
ghost use Rattle.store_core.specs.Stores.{blank, var_class};
ghost use Rattle.routing_walks.specs.Regions.{has_number};
ghost use Rattle.routing_walks.specs.Pieces as regions;
ghost use Rattle.whole_run.specs.Handing as calls;
ghost use Rattle.store_exec.specs.Steps as steps;

use crate::cells::{is_member, store_of};
use pale_calls::Actual;
use pale_typed::{CallParts, TypedProc};
use plain_data::Items;
use std::alloc::{AllocError, Global};
use store_core::{CellId, CellList, Store, Value, VarId, VarKind, VarTable, copy_values};

/// The cells among others that are among these. The numbers of both rise.
fn cells_on(alloc: Global, cells: &[CellId], others: &[CellId]) -> Result<CellList, AllocError>
    requires own { AreRising cells.now }
    requires others { AreRising others.now }
    ensures { IfOk result (λ on. on ≡ filter (λ c. has_number cells.now c.0) others.now) }
{
    let mut on = CellList::new(alloc);
    for cell in others {
        if is_member(cells, cell.0) {
            on.push(*cell)?;
        }
    }
    Ok(on)
}

/// The cell where it is among these.
fn cell_on(cells: &[CellId], cell: CellId) -> Option<CellId>
    requires { AreRising cells.now }
    ensures { result ≡ regions.cell_on cells.now cell }
{
    if is_member(cells, cell.0) {
        Some(cell)
    } else {
        None
    }
}

/// The value with null for a cell outside these, and a logic set without its cells outside.
fn value_on(alloc: Global, cells: &[CellId], value: &Value) -> Result<Value, AllocError>
    requires { AreRising cells.now }
    ensures { IfOk result (λ on. on ≡ regions.value_on cells.now value.now) }
{
    match value {
        Value::Bool(truth) => Ok(Value::Bool(*truth)),
        Value::Cell(None) => Ok(Value::Cell(None)),
        Value::Cell(Some(cell)) => Ok(Value::Cell(cell_on(cells, *cell))),
        Value::Cells(others) => Ok(Value::Cells(cells_on(alloc, cells, others.as_slice())?)),
    }
}

/// What a variable holds of these cells; an unknown one is null.
fn variable_on(
    alloc: Global,
    store: &Store,
    cells: &[CellId],
    var: VarId,
) -> Result<Value, AllocError>
    requires { AreRising cells.now }
    ensures { IfOk result (λ value. value ≡ regions.value_on cells.now (steps.variable store.now var)) }
{
    match store.var(var) {
        Some(value) => value_on(alloc, cells, value),
        None => Ok(Value::Cell(None)),
    }
}

/// What is handed over, on these cells.
fn handed_value(
    alloc: Global,
    store: &Store,
    cells: &[CellId],
    actual: Actual,
) -> Result<Value, AllocError>
    requires { AreRising cells.now }
    ensures { IfOk result (λ value. value ≡ calls.handed_value store.now cells.now actual) }
{
    match actual {
        Actual::Var(var) => variable_on(alloc, store, cells, var),
        Actual::Null => Ok(Value::Cell(None)),
        Actual::Truth(truth) => Ok(Value::Bool(truth)),
    }
}

/// Puts what is handed over at the end of the values.
fn push_handed(
    alloc: Global,
    store: &Store,
    cells: &[CellId],
    actuals: &[Actual],
    values: &mut Items<Value>,
) -> Result<(), AllocError>
    requires { AreRising cells.now }
    ensures { OnOk result (values.new ≡ values.old ++ map (calls.handed_value store.now cells.now) actuals.now) }
{
    for actual in actuals {
        values.push(handed_value(alloc, store, cells, *actual)?)?;
    }
    Ok(())
}

/// Null, false or the empty set, as what a variable of this kind holds.
fn blank_of(alloc: Global, kind: VarKind) -> Value
    ensures { result ≡ blank (var_class kind) }
{
    match kind {
        VarKind::Bool | VarKind::LogicBool => Value::Bool(false),
        VarKind::Data(_) | VarKind::Pointer(_) => Value::Cell(None),
        VarKind::LogicSet(_) => Value::Cells(CellList::new(alloc)),
    }
}

/// The same of a variable; an unknown one is null.
fn blank_at(alloc: Global, vars: &VarTable, var: VarId) -> Value
    ensures { result ≡ calls.blank_at vars.now var }
{
    match vars.kind(var) {
        Some(kind) => blank_of(alloc, *kind),
        None => Value::Cell(None),
    }
}

/// Puts null or false for each of the variables at the end of the values.
fn push_blank(
    alloc: Global,
    vars: &VarTable,
    listed: &[VarId],
    values: &mut Items<Value>,
) -> Result<(), AllocError>
    ensures { OnOk result (values.new ≡ values.old ++ map (calls.blank_at vars.now) listed.now) }
{
    for var in listed {
        values.push(blank_at(alloc, vars, *var))?;
    }
    Ok(())
}

/// The values of the callee's variables, in their order.
fn handed_vars(
    alloc: Global,
    vars: &VarTable,
    callee: &TypedProc,
    call: &CallParts,
    store: &Store,
    cells: &[CellId],
) -> Result<Items<Value>, AllocError>
    requires { AreRising cells.now }
    ensures { IfOk result (λ values. values ≡ calls.handed_vars (record { vars = vars.now; proc = callee.now }) call.now store.now cells.now) }
{
    let mut values = Items::new(alloc);
    push_handed(alloc, store, cells, call.args.as_slice(), &mut values)?;
    push_blank(alloc, vars, callee.results.as_slice(), &mut values)?;
    push_blank(alloc, vars, callee.locals.as_slice(), &mut values)?;
    push_handed(alloc, store, cells, call.logics.as_slice(), &mut values)?;
    Ok(values)
}

/// The store that is handed to the callee, with these variables.
pub fn handed_store(
    alloc: Global,
    vars: &VarTable,
    callee: &TypedProc,
    call: &CallParts,
    store: &Store,
    cells: &[CellId],
) -> Result<Store, AllocError>
    requires { AreRising cells.now }
    ensures { IfOk result (λ made. made ≡ calls.handed_store (record { vars = vars.now; proc = callee.now }) call.now store.now cells.now) }
{
    let values = handed_vars(alloc, vars, callee, call, store, cells)?;
    store_of(alloc, store, cells, true, values)
}

/// What stays behind: the store without these cells.
pub fn rest_store(alloc: Global, store: &Store, cells: &[CellId]) -> Result<Store, AllocError>
    requires { AreRising cells.now }
    ensures { IfOk result (λ rest. rest ≡ calls.rest_store store.now cells.now) }
{
    let values = copy_values(alloc, store.values())?;
    store_of(alloc, store, cells, false, values)
}
