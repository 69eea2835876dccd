//! Items of code, one after the other.

ghost use Rattle.std.specs.Prelude.{◌≡◌, [], ◌∷◌, OnOk};
ghost use Rattle.store_core.specs.Stores.{IsFresh};
ghost use Rattle.store_logic.specs.Terms.{null};
ghost use Rattle.store_exec.specs.Ready.{IsReady};
ghost use Rattle.store_exec.specs.Going.{CanRun, AtLine, IsTruthAt, left_over, weight_left};
ghost use Rattle.store_trace.specs.declared.event.Event.TheVariants as event;
ghost use Rattle.store_trace.specs.Recording.{recorded};
ghost use Rattle.store_trace.specs.Tracing.{Does, TracesItems};
ghost use Rattle.store_runner.specs.Recordings.{DoesWell, Records, Tells, Chooses, Enters};

use crate::acts::step;
use crate::showing::act_events;
use crate::truth::truth;
use plain_data::Stack;
use std::alloc::{AllocError, Global};
use store_core::{Store, TypeTable, Value};
use store_exec::{Fault, Halt, Item};
use store_logic::{Act, Cond};
use store_trace::{Event, EventList, Recorder};

/// What is done, with the line where it stops.
pub(crate) fn at_line<T>(line: u32, done: Result<T, Halt>) -> Result<Result<T, Fault>, AllocError>
    ensures { AtLine line done result }
{
    match done {
        Ok(value) => Ok(Ok(value)),
        Err(Halt::Fails(cause)) => Ok(Err(Fault { cause, line })),
        Err(Halt::NoMemory) => Err(AllocError),
    }
}

/// Executes an act, with the line where it stops.
pub(crate) fn do_act(
    alloc: Global,
    types: &TypeTable,
    nothing: &Value,
    line: u32,
    act: &Act,
    store: &mut Store,
) -> Result<Result<(), Fault>, AllocError>
    requires nothing { nothing.now ≡ null }
    requires fresh { IsFresh store.old }
    requires ready { IsReady types.now store.old act.now }
    ensures { DoesWell types.now line act.now store.old store.new result }
{
    at_line(line, step(alloc, types, nothing, act, store))
}

/// Executes an act and records what it shows.
pub(crate) fn show_act(
    alloc: Global,
    types: &TypeTable,
    nothing: &Value,
    line: u32,
    act: &Act,
    store: &mut Store,
    recorder: &mut Recorder,
) -> Result<Result<(), Fault>, AllocError>
    requires nothing { nothing.now ≡ null }
    requires fresh { IsFresh store.old }
    requires ready { IsReady types.now store.old act.now }
    ensures { Records (Does types.now line act.now) store.old store.new recorder.old recorder.new result }
{
    if !recorder.is_on() {
        return do_act(alloc, types, nothing, line, act, store);
    }
    let shown = act_events(alloc, types, line, act, store)?;
    match do_act(alloc, types, nothing, line, act, store)? {
        Ok(()) => {
            recorder.add(shown)?;
            Ok(Ok(()))
        }
        Err(fault) => Ok(Err(fault)),
    }
}

/// The truth of a condition, with the line where it can't be told.
pub(crate) fn truth_at(
    alloc: Global,
    store: &Store,
    nothing: &Value,
    line: u32,
    cond: &Cond,
) -> Result<Result<bool, Fault>, AllocError>
    requires { nothing.now ≡ null }
    ensures { IsTruthAt store.now line cond.now result }
{
    at_line(line, truth(alloc, store, nothing, cond))
}

/// The truth of a condition, which is recorded.
pub(crate) fn tell(
    alloc: Global,
    store: &Store,
    nothing: &Value,
    line: u32,
    cond: &Cond,
    recorder: &mut Recorder,
) -> Result<Result<bool, Fault>, AllocError>
    requires { nothing.now ≡ null }
    ensures { Tells store.now line cond.now recorder.old recorder.new result }
{
    match truth_at(alloc, store, nothing, line, cond)? {
        Ok(truth) => {
            record_truth(alloc, line, truth, recorder)?;
            Ok(Ok(truth))
        }
        Err(fault) => Ok(Err(fault)),
    }
}

/// Records the truth of a condition.
fn record_truth(
    alloc: Global,
    line: u32,
    truth: bool,
    recorder: &mut Recorder,
) -> Result<(), AllocError>
    ensures { OnOk result (recorder.new ≡ recorded recorder.old (event.Truth line truth ∷ [])) }
{
    if !recorder.is_on() {
        return Ok(());
    }
    let mut shown = EventList::new(alloc);
    shown.push(Event::Truth(line, truth))?;
    recorder.add(shown)
}

/// The items that the truth of a condition chooses, with the line where that can't be told.
fn choose<'a>(
    alloc: Global,
    store: &Store,
    nothing: &Value,
    line: u32,
    cond: &Cond,
    taken: &'a [Item],
    other: &'a [Item],
    recorder: &mut Recorder,
) -> Result<Result<&'a [Item], Fault>, AllocError>
    requires { nothing.now ≡ null }
    ensures { Chooses store.now line cond.now taken.now other.now recorder.old recorder.new result }
{
    match tell(alloc, store, nothing, line, cond, recorder)? {
        Ok(true) => Ok(Ok(taken)),
        Ok(false) => Ok(Ok(other)),
        Err(fault) => Ok(Err(fault)),
    }
}

/// Executes an item, or what of it comes first: an act, or the choice of a list. Gives the items that come next; those behind a
/// chosen list wait on the stack.
fn enter<'a>(
    alloc: Global,
    types: &TypeTable,
    nothing: &Value,
    item: &'a Item,
    more: &'a [Item],
    waiting: &mut Stack<&'a [Item]>,
    store: &mut Store,
    recorder: &mut Recorder,
) -> Result<Result<&'a [Item], Fault>, AllocError>
    requires nothing { nothing.now ≡ null }
    requires can { CanRun types.now store.old (item.now ∷ left_over more.now waiting.old) }
    ensures { Enters types.now (item.now ∷ left_over more.now waiting.old) store.old recorder.old (weight_left (item.now ∷ more.now) waiting.old)
        store.new waiting.new recorder.new result }
{
    match item {
        Item::Do(line, act) => {
            match show_act(alloc, types, nothing, *line, act, store, recorder)? {
                Ok(()) => Ok(Ok(more)),
                Err(fault) => Ok(Err(fault)),
            }
        }
        Item::If(line, cond, taken, other) => {
            waiting.push(more)?;
            choose(
                alloc,
                store,
                nothing,
                *line,
                cond,
                taken.as_slice(),
                other.as_slice(),
                recorder,
            )
        }
    }
}

/// Executes items on a store, one after the other, and records what they show. Nested lists wait on a stack.
pub(crate) fn run_items(
    alloc: Global,
    types: &TypeTable,
    nothing: &Value,
    items: &[Item],
    store: &mut Store,
    recorder: &mut Recorder,
) -> Result<Result<(), Fault>, AllocError>
    requires nothing { nothing.now ≡ null }
    requires can { CanRun types.now store.old items.now }
    ensures { Records (TracesItems types.now items.now) store.old store.new recorder.old recorder.new result }
{
    let mut waiting = Stack::new(alloc);
    let mut rest = items;
    loop {
        match rest.split_first() {
            Some((item, more)) => {
                match enter(
                    alloc,
                    types,
                    nothing,
                    item,
                    more,
                    &mut waiting,
                    store,
                    recorder,
                )? {
                    Ok(next) => rest = next,
                    Err(fault) => return Ok(Err(fault)),
                }
            }
            None => match waiting.pop() {
                Some(next) => rest = next,
                None => return Ok(Ok(())),
            },
        }
    }
}
