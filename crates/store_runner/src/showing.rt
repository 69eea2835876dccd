//! What an act and a condition show.

ghost use Rattle.std.specs.Prelude.{◌≡◌, ◌++◌, IfOk, OnOk, Some};
ghost use Rattle.store_logic.specs.Terms.{null};
ghost use Rattle.store_exec.specs.Steps as steps;
ghost use Rattle.store_exec.specs.Steps.{variable, truth_of};
ghost use Rattle.store_runner.specs.Conditions.{IsToldBy};
ghost use Rattle.store_runner.specs.Recordings.{IsGiven};
ghost use Rattle.store_trace.specs.Showing.{made_events, set_events, freed_events, events_of, truth_events};

use crate::reading::{operand_value, variable};
use crate::truth::truth;
use std::alloc::{AllocError, Global};
use store_core::{CellId, Store, TypeTable, Value};
use store_exec::Halt;
use store_logic::{Act, Cond, Path, Rhs};
use store_trace::{Event, EventList};

/// The value that is assigned, and no cell is made for it yet.
fn given(
    alloc: Global,
    types: &TypeTable,
    nothing: &Value,
    rhs: &Rhs,
    store: &Store,
) -> Result<Value, Halt>
    requires { nothing.now ≡ null }
    ensures { IsGiven types.now store.now rhs.now result }
{
    match rhs {
        Rhs::Cell(operand) => Ok(operand_value(store, nothing, operand)?.copy(alloc)?),
        Rhs::New(_) => Ok(Value::Cell(Some(CellId(store.next())))),
        Rhs::Truth(cond) => Ok(Value::Bool(truth(alloc, store, nothing, cond)?)),
    }
}

/// Shows the cell that is made.
fn push_made(line: u32, rhs: &Rhs, store: &Store, events: &mut EventList) -> Result<(), AllocError>
    ensures { OnOk result (events.new ≡ events.old ++ made_events line store.now rhs.now) }
{
    match rhs {
        Rhs::New(variant) => events.push(Event::New(line, CellId(store.next()), *variant)),
        Rhs::Cell(_) | Rhs::Truth(_) => Ok(()),
    }
}

/// Shows the place with the value that it gets.
fn push_set(
    alloc: Global,
    types: &TypeTable,
    line: u32,
    place: &Path,
    rhs: &Rhs,
    store: &Store,
    events: &mut EventList,
) -> Result<(), AllocError>
    ensures { OnOk result (events.new ≡ events.old ++ set_events line place.now (steps.evaluated types.now store.now rhs.now)) }
{
    let nothing = Value::Cell(None);
    match given(alloc, types, &nothing, rhs, store) {
        Ok(value) => events.push(Event::Assign(line, place.copy(alloc)?, value)),
        Err(Halt::Fails(_)) => Ok(()),
        Err(Halt::NoMemory) => Err(AllocError),
    }
}

/// Shows the cell that is freed.
fn push_freed(line: u32, freed: &Value, events: &mut EventList) -> Result<(), AllocError>
    ensures { OnOk result (events.new ≡ events.old ++ freed_events line freed.now) }
{
    match freed {
        Value::Cell(Some(cell)) => events.push(Event::Free(line, *cell)),
        Value::Cell(None) | Value::Bool(_) | Value::Cells(_) => Ok(()),
    }
}

/// What an act of this line shows where it succeeds on the store.
pub fn act_events(
    alloc: Global,
    types: &TypeTable,
    line: u32,
    act: &Act,
    store: &Store,
) -> Result<EventList, AllocError>
    ensures { IfOk result (λ shown. shown ≡ events_of types.now line store.now act.now) }
{
    let mut events = EventList::new(alloc);
    match act {
        Act::Assign(place, rhs) => {
            push_made(line, rhs, store, &mut events)?;
            push_set(alloc, types, line, place, rhs, store, &mut events)?;
        }
        Act::Free(var) => {
            let nothing = Value::Cell(None);
            push_freed(line, variable(store, &nothing, *var), &mut events)?;
        }
        Act::Assert(_) => events.push(Event::Truth(line, true))?,
    }
    Ok(events)
}

/// What a whole condition of this line shows; nothing where it can't be read.
pub fn truth_events(
    alloc: Global,
    line: u32,
    cond: &Cond,
    store: &Store,
) -> Result<EventList, AllocError>
    ensures { IfOk result (λ shown. shown ≡ truth_events line (truth_of store.now cond.now)) }
{
    let mut events = EventList::new(alloc);
    let nothing = Value::Cell(None);
    match truth(alloc, store, &nothing, cond) {
        Ok(truth) => events.push(Event::Truth(line, truth))?,
        Err(Halt::Fails(_)) => {}
        Err(Halt::NoMemory) => return Err(AllocError),
    }
    Ok(events)
}
