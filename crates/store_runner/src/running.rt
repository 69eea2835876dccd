//! Execution of code.

ghost use Rattle.std.specs.Prelude.{◌≡◌, IfOk};
ghost use Rattle.store_logic.specs.Terms.{null};
ghost use Rattle.store_exec.specs.declared.outcome.Outcome.TheVariants as outcome;
ghost use Rattle.store_exec.specs.Runs.{RunsCode};
ghost use Rattle.store_exec.specs.Fits.{CanRunCode};
ghost use Rattle.store_trace.specs.Tracing.{TracesCode};
ghost use Rattle.store_runner.specs.Recordings.{Records};

use crate::items::{run_items, tell};
use std::alloc::{AllocError, Global};
use store_core::{Store, TypeTable, Value};
use store_exec::{Code, Fault, Outcome, Tail};
use store_trace::{Recorder, Traced, traces_are_runs};

/// Executes a code on a store and records what it shows: to the place of a cut, or to a fault.
fn go(
    alloc: Global,
    types: &TypeTable,
    code: &Code,
    store: &mut Store,
    recorder: &mut Recorder,
) -> Result<Result<u32, Fault>, AllocError>
    requires { CanRunCode types.now store.old code.now }
    ensures { Records (TracesCode types.now code.now) store.old store.new recorder.old recorder.new result }
{
    let nothing = Value::Cell(None);
    let mut rest = code;
    loop {
        match run_items(
            alloc,
            types,
            &nothing,
            rest.items.as_slice(),
            store,
            recorder,
        )? {
            Ok(()) => {}
            Err(fault) => return Ok(Err(fault)),
        }
        match &rest.tail {
            Tail::Cut(place) => return Ok(Ok(*place)),
            Tail::Branch(line, cond, taken, other) => {
                match tell(alloc, store, &nothing, *line, cond, recorder)? {
                    Ok(true) => rest = taken.get(),
                    Ok(false) => rest = other.get(),
                    Err(fault) => return Ok(Err(fault)),
                }
            }
        }
    }
}

/// Executes a code on a store: to a cut, or to a cause with its line. The store fits the tables and is fresh, and its next number
/// and the count of `new` in the code are together below 4,294,967,295. (Møller and Schwartzbach, PLDI 2001.)
pub fn run(
    alloc: Global,
    types: &TypeTable,
    code: &Code,
    store: Store,
) -> Result<Outcome, AllocError>
    requires { CanRunCode types.now store code.now }
    ensures { IfOk result (RunsCode types.now code.now store) }
{
    traces_are_runs();
    let mut at = store;
    match go(alloc, types, code, &mut at, &mut Recorder::off(alloc))? {
        Ok(place) => {
            // The freed cells are let go, so that each cell of the store is a look-up again.
            at.settle();
            Ok(Outcome::End(place, at))
        }
        Err(fault) => Ok(Outcome::Fail(fault.cause, fault.line)),
    }
}

/// The same, and what it shows: each act and each whole condition that was done, in order. Where it fails, `at` is the store before the
/// act or condition that fails; and where it ends at a cut, whose place is the end, it is the store with which it arrives there.
pub fn trace(
    alloc: Global,
    types: &TypeTable,
    code: &Code,
    store: Store,
) -> Result<Traced, AllocError>
    requires { CanRunCode types.now store code.now }
    ensures { IfOk result (λ traced. TracesCode types.now code.now store traced.events traced.at traced.end) }
{
    let mut at = store;
    let mut recorder = Recorder::on(alloc);
    let end = go(alloc, types, code, &mut at, &mut recorder)?;
    at.settle();
    let events = recorder.into_events();
    Ok(Traced { events, at, end })
}
