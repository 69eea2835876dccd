//! Acts on a store.

ghost use Rattle.std.specs.Prelude.{◌≡◌, ◌<◌, IfSome, Some};
ghost use Rattle.store_core.specs.declared.value.Class.TheVariants.{Reference};
ghost use Rattle.store_core.specs.declared.value.Value.TheVariants as value;
ghost use Rattle.store_core.specs.Stores.{IsFresh, class_of, field_value, put_cell};
ghost use Rattle.store_logic.specs.declared.act.Rhs.TheVariants as rhs;
ghost use Rattle.store_logic.specs.Terms.{null, cell_in};
ghost use Rattle.store_exec.specs.Steps as steps;
ghost use Rattle.store_exec.specs.Steps.{assigned, made_of, Step};
ghost use Rattle.store_runner.specs.Conditions.{IsTold, IsToldBy, Leads, cell_written};
ghost use Rattle.store_runner.specs.Recordings.{IsKept};
ghost use Rattle.store_exec.specs.Ready.{IsKnownRhs, TakesClass, TakesFieldClass, field_assigned, IsReady, Steps, Asserts};
ghost use Rattle.store_runner.specs.Assigning.{MakesNothing, GivesClass, cell_assigned};

use crate::reading::{cell_through, operand_value, read_along, variable};
use crate::truth::{cell_of, truth};
use plain_data::Stack;
use std::alloc::{AllocError, Global};
use store_core::{CellId, FieldId, Store, TypeTable, Value, VarId, VariantId};
use store_exec::{Cause, Halt};
use store_logic::{Act, Assertion, Path, Region, Rhs};
use store_sat::sat;

/// The value of what is assigned. A new cell is made in the store.
fn evaluate(
    alloc: Global,
    types: &TypeTable,
    nothing: &Value,
    rhs: &Rhs,
    store: &mut Store,
) -> Result<Value, Halt>
    requires nothing { nothing.now ≡ null }
    requires known { IsKnownRhs types.now store.old rhs.now }
    ensures told { IsToldBy (λ x. (store.new, x)) (steps.evaluated types.now store.old rhs.now) result }
    ensures same { MakesNothing rhs.now → store.new ≡ store.old }
    ensures kept { IsKept store.old store.new result }
{
    match rhs {
        Rhs::Cell(operand) => Ok(operand_value(store, nothing, operand)?.copy(alloc)?),
        Rhs::New(variant) => Ok(Value::Cell(Some(store.put_cell(types, *variant)?))),
        Rhs::Truth(cond) => Ok(Value::Bool(truth(alloc, store, nothing, cond)?)),
    }
}

/// The live cell of which a field is written, which has it.
fn written_cell(store: &Store, through: Option<CellId>, field: FieldId) -> Result<CellId, Cause>
    ensures { result ≡ cell_written store.now through field }
{
    let cell = cell_through(store, &Value::Cell(through))?;
    match store.field(cell, field) {
        Some(_) => Ok(cell),
        None => Err(Cause::Variant),
    }
}

/// Stores a value in a field of what is written through, which has a field of its class or none.
fn write(
    store: &mut Store,
    through: Option<CellId>,
    field: FieldId,
    stored: Value,
) -> Result<(), Halt>
    requires { IfSome through (λ c. IfSome (field_value store.old c field) (λ old. class_of stored ≡ class_of old)) }
    ensures leads { Leads store.new (steps.written store.old (value.Cell through) field stored) result }
    ensures kept { IsKept store.old store.new result }
{
    match written_cell(store, through, field) {
        Ok(cell) => {
            store.set_field(cell, field, stored);
            Ok(())
        }
        Err(cause) => Err(Halt::Fails(cause)),
    }
}

/// Makes a cell and stores it in a field of what is written through. Where that can't be done no cell is made.
fn write_new(
    types: &TypeTable,
    store: &mut Store,
    through: Option<CellId>,
    field: FieldId,
    variant: VariantId,
) -> Result<(), Halt>
    requires known { IsKnownRhs types.now store.old (rhs.New variant) }
    requires below { IfSome through (λ c. c.0 < store.old.next) }
    requires class { IfSome through (λ c. IfSome (field_value store.old c field) (λ old. class_of old ≡ Reference)) }
    ensures leads { Leads store.new (steps.written (put_cell store.old types.now variant) (value.Cell through) field
        (value.Cell (Some (record { 0 = store.old.next })))) result }
    ensures kept { IsKept store.old store.new result }
{
    match written_cell(store, through, field) {
        Ok(cell) => {
            let made = store.put_cell(types, variant)?;
            store.set_field(cell, field, Value::Cell(Some(made)));
            Ok(())
        }
        Err(cause) => Err(Halt::Fails(cause)),
    }
}

/// Assigns what is no new cell to a field of what is written through.
fn assign_given(
    alloc: Global,
    types: &TypeTable,
    nothing: &Value,
    through: Option<CellId>,
    last: FieldId,
    rhs: &Rhs,
    store: &mut Store,
) -> Result<(), Halt>
    requires nothing { nothing.now ≡ null }
    requires known { IsKnownRhs types.now store.old rhs.now }
    requires old { MakesNothing rhs.now }
    requires class { GivesClass types.now store.old through last rhs.now }
    ensures leads { Leads store.new (cell_assigned types.now store.old through last rhs.now) result }
    ensures kept { IsKept store.old store.new result }
{
    let value = evaluate(alloc, types, nothing, rhs, store)?;
    write(store, through, last, value)
}

/// Assigns to a field: the cells before it are read, then what is assigned, and then the field is written. Where that fails no cell is
/// made.
fn assign_field(
    alloc: Global,
    types: &TypeTable,
    nothing: &Value,
    var: VarId,
    before: &[FieldId],
    last: FieldId,
    rhs: &Rhs,
    store: &mut Store,
) -> Result<(), Halt>
    requires nothing { nothing.now ≡ null }
    requires fresh { IsFresh store.old }
    requires known { IsKnownRhs types.now store.old rhs.now }
    requires class { TakesFieldClass types.now store.old var before.now last rhs.now }
    ensures leads { Leads store.new (field_assigned types.now store.old var before.now last rhs.now) result }
    ensures kept { IsKept store.old store.new result }
{
    let through = cell_at(store, nothing, var, before)?;
    match rhs {
        Rhs::New(variant) => write_new(types, store, through, last, *variant),
        Rhs::Cell(_) | Rhs::Truth(_) => {
            assign_given(alloc, types, nothing, through, last, rhs, store)
        }
    }
}

/// The cell to which the fields lead from a variable, null for a truth value.
fn cell_at(
    store: &Store,
    nothing: &Value,
    var: VarId,
    fields: &[FieldId],
) -> Result<Option<CellId>, Halt>
    requires nothing { nothing.now ≡ null }
    ensures { IsTold (made_of cell_in (steps.read_along store.now (steps.variable store.now var) fields.now)) result }
{
    match read_along(store, variable(store, nothing, var), fields) {
        Ok(value) => Ok(cell_of(value)),
        Err(cause) => Err(Halt::Fails(cause)),
    }
}

/// Assigns to a place: its cells but the last step are read, then what is assigned, and then the place is written.
fn assign(
    alloc: Global,
    types: &TypeTable,
    nothing: &Value,
    place: &Path,
    rhs: &Rhs,
    store: &mut Store,
) -> Result<(), Halt>
    requires nothing { nothing.now ≡ null }
    requires fresh { IsFresh store.old }
    requires known { IsKnownRhs types.now store.old rhs.now }
    requires class { TakesClass types.now store.old place.now rhs.now }
    ensures leads { Leads store.new (assigned types.now store.old place.now.var place.now.fields rhs.now) result }
    ensures kept { IsKept store.old store.new result }
{
    match place.fields.as_slice().split_last() {
        None => {
            let value = evaluate(alloc, types, nothing, rhs, store)?;
            store.set_var(place.var, value);
            Ok(())
        }
        Some((last, before)) => assign_field(
            alloc, types, nothing, place.var, before, *last, rhs, store,
        ),
    }
}

/// Frees the cell that a value is.
fn free(store: &mut Store, freed: Option<CellId>) -> Result<(), Halt>
    ensures leads { Leads store.new (steps.freed store.old (value.Cell freed)) result }
    ensures kept { IsKept store.old store.new result }
{
    let Some(cell) = freed else {
        return Err(Halt::Fails(Cause::Null));
    };
    if store.type_of(cell).is_none() {
        return Err(Halt::Fails(Cause::DoubleFree));
    }
    store.remove(cell);
    Ok(())
}

/// Executes an act on a store, which is the same where it fails.
pub(crate) fn step(
    alloc: Global,
    types: &TypeTable,
    nothing: &Value,
    act: &Act,
    store: &mut Store,
) -> Result<(), Halt>
    requires nothing { nothing.now ≡ null }
    requires fresh { IsFresh store.old }
    requires ready { IsReady types.now store.old act.now }
    ensures steps { Steps types.now store.old act.now store.new result }
    ensures kept { IsKept store.old store.new result }
{
    match act {
        Act::Assign(place, rhs) => assign(alloc, types, nothing, place, rhs, store),
        Act::Free(var) => free(store, cell_of(variable(store, nothing, *var))),
        Act::Assert(assertion) => check(alloc, types, assertion, store),
    }
}

/// Stops where an assertion is false. The store is the same.
///
/// Before an assertion that may go over the cells the freed ones are let go, so that it goes over them once and not once for
/// each place. Letting them go is one pass over the cells, no more than such an assertion may take anyway, and only behind a
/// `free`; where cells are freed and variables and fields compared in turn, there is none. So an act takes no more time than
/// a pass over the cells and what it says itself: 10,000 acts on 10,000 cells let cells go 5,000 times at most.
fn check(
    alloc: Global,
    types: &TypeTable,
    assertion: &Assertion,
    store: &mut Store,
) -> Result<(), Halt>
    ensures asserts { Asserts types.now store.old assertion.now result }
    ensures kept { store.new ≡ store.old }
{
    if may_go_over_cells(alloc, assertion)? {
        store.settle();
    }
    if sat(alloc, types, store, &Region::All, assertion)? {
        Ok(())
    } else {
        Err(Halt::Fails(Cause::Assert))
    }
}

/// Whether a store is to be settled before an assertion is read: it has a quantifier or a walk. No contract rests on the answer,
/// since a settled store is the same.
fn may_go_over_cells(alloc: Global, assertion: &Assertion) -> Result<bool, AllocError> {
    let mut waiting = Stack::new(alloc);
    let mut part = assertion;
    loop {
        match part {
            Assertion::Walk(_, _, _)
            | Assertion::Ex(_, _)
            | Assertion::All(_, _)
            | Assertion::ExSet(_, _)
            | Assertion::AllSet(_, _) => return Ok(true),
            Assertion::Not(inner) => part = inner.get(),
            Assertion::And(left, right)
            | Assertion::Or(left, right)
            | Assertion::Imp(left, right)
            | Assertion::Iff(left, right) => {
                waiting.push(right.get())?;
                part = left.get();
            }
            _ => match waiting.pop() {
                Some(next) => part = next,
                None => return Ok(false),
            },
        }
    }
}
