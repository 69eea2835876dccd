//! Whole runs.

ghost use Rattle.std.specs.Prelude.{◌≡◌, IfOk, [], List, IsSomeAnd, slice_get};
ghost use Rattle.store_core.specs.Stores.{StoreMap, Fits};
ghost use Rattle.pale_typed.specs.Fitting.{ProgramFits};
ghost use Rattle.pale_typed.specs.TypedPrograms.{TypedProgram};
ghost use Rattle.store_trace.specs.declared.event.Event.{Event};
ghost use Rattle.store_trace.specs.Recording.{recorded};
ghost use Rattle.whole_run.specs.States.{runs, exited};
ghost use Rattle.whole_run.specs.Runs.{WholeRun};
ghost use Rattle.whole_trace.specs.Traces.{Traces, TracedRun, proc_at};
ghost use Rattle.whole_exec.specs.Answers.{answer_of, answer_with, stand_of};
ghost use Rattle.whole_exec.specs.Starting.{CanStart};
ghost use Rattle.whole_turns.specs.Standings.{frame_of, all_waiting, state_of};

use crate::answer::Answer;
use crate::traced::RunTrace;
use claim_laws::claims_with_actuals_put_in_fit;
use pale_typed::Typed;
use plain_data::Stack;
use std::alloc::{AllocError, Global};
use store_core::Store;
use store_trace::Recorder;
use whole_run::{handed_stores_meet_the_entry, returned_stores_are_well_formed};
use whole_trace::traces_are_whole_runs;
use whole_turns::{Activation, At, RunEnd, Suspended, Turned, entered, turn};

/// Where a run stands.
#[derive(Drop)]
struct Stood {
    /// The number of the procedure whose variables the store has.
    proc: u32,
    at: Store,
    end: RunEnd,
}

/// The number of the procedure that runs or has exited, by the calls that wait; `first` is that of the first one.
fn proc_at(first: u32, waiting: Stack<Suspended<'_>>) -> u32
    ensures { result ≡ proc_at first (all_waiting waiting.entry) }
{
    let mut waiting = waiting;
    match waiting.pop() {
        Some(suspended) => suspended.call.callee,
        None => first,
    }
}

/// Where a run stands behind the exit of a procedure, which is its end where no call waits.
fn exited_at(first: u32, at: Store, waiting: Stack<Suspended<'_>>) -> Stood
    ensures { (program : TypedProgram) → Traces program first 0 (exited at (all_waiting waiting.entry)) [] (stand_of result.proc result.at)
        (answer_with result.at result.end) }
{
    let mut waiting = waiting;
    match waiting.pop() {
        Some(suspended) => Stood {
            proc: suspended.call.callee,
            at,
            end: RunEnd::Running,
        },
        None => Stood {
            proc: first,
            at,
            end: RunEnd::Exit,
        },
    }
}

/// Where a run stands while a procedure runs.
fn running_at(
    first: u32,
    activation: Activation<'_>,
    at: Store,
    waiting: Stack<Suspended<'_>>,
) -> Stood
    ensures { (program : TypedProgram) → Traces program first 0 (runs (frame_of activation.entry at) (all_waiting waiting.entry)) []
        (stand_of result.proc result.at) (answer_with result.at result.end) }
{
    let proc = proc_at(first, waiting);
    drop(activation);
    Stood {
        proc,
        at,
        end: RunEnd::Running,
    }
}

/// Where a run stands that has no step left.
fn rest_at(first: u32, at: At<'_>, waiting: Stack<Suspended<'_>>) -> Stood
    ensures { (program : TypedProgram) → Traces program first 0 (state_of at.entry (all_waiting waiting.entry)) [] (stand_of result.proc result.at)
        (answer_with result.at result.end) }
{
    match at {
        At::Running(activation, store) => running_at(first, activation, store, waiting),
        At::Exited(store) => exited_at(first, store, waiting),
    }
}

/// Runs the procedure with this number from its entry with the store, for at most so many steps, and records what it shows.
fn go(
    alloc: Global,
    program: &Typed,
    number: u32,
    store: Store,
    steps: u32,
    recorder: &mut Recorder,
) -> Result<Stood, AllocError>
    requires program { ProgramFits program.now }
    requires start { CanStart program.now number store steps }
    ensures traced { IfOk result (λ stood. (shown : List Event) × TracedRun program.now number store steps shown (stand_of stood.proc stood.at)
        (answer_with stood.at stood.end) × (recorder.new ≡ recorded recorder.old shown)) }
    ensures fits { IfOk result (λ stood. IsSomeAnd (slice_get program.now.procs stood.proc) (λ e. Fits program.now.types e.vars stood.at)) }
{
    claims_with_actuals_put_in_fit();
    handed_stores_meet_the_entry();
    returned_stores_are_well_formed();
    let mut at = At::Running(entered(alloc, program, number)?, store);
    let mut waiting = Stack::new(alloc);
    for _step in 0..steps {
        match turn(alloc, program, at, &mut waiting, recorder)? {
            Turned::Goes(after) => at = after,
            Turned::Ends(end, at) => {
                let proc = proc_at(number, waiting);
                return Ok(Stood { proc, at, end });
            }
        }
    }
    Ok(rest_at(number, at, waiting))
}

/// What comes of a run of the procedure with this number from its entry with the store, for at most so many steps: it needs more of
/// them, it fails, or the procedure exits. The program fits; the store fits the procedure's variables and is fresh, and its next
/// number and the count of the steps are together below 4,294,967,295, so that each step finds a number for a new cell.
///
/// But for want of memory there is an answer, whatever the program does, and a run has one answer alone. The store of an exit fits the
/// procedure's variables. (Møller and Schwartzbach, PLDI 2001: procedures, loops and calls.)
pub fn run_procedure(
    alloc: Global,
    program: &Typed,
    number: u32,
    store: Store,
    steps: u32,
) -> Result<Answer, AllocError>
    requires program { ProgramFits program.now }
    requires start { CanStart program.now number store steps }
    ensures ran { IfOk result (λ answer. WholeRun program.now number store steps (answer_of answer)) }
    ensures fits { IfOk result (λ answer. (t : StoreMap) → answer ≡ Answer.Exit t →
        IsSomeAnd (slice_get program.now.procs number) (λ e. Fits program.now.types e.vars t)) }
{
    traces_are_whole_runs();
    let stood = go(
        alloc,
        program,
        number,
        store,
        steps,
        &mut Recorder::off(alloc),
    )?;
    match stood.end {
        RunEnd::Running => Ok(Answer::Running),
        RunEnd::Fail(cause, line) => Ok(Answer::Fail(cause, line)),
        RunEnd::Exit => Ok(Answer::Exit(stood.at)),
    }
}

/// The same, with what the run shows: each step that was done, in order, and where it stands when it has its answer. Where it fails at
/// an act or a condition that is the store before it, and at a cut the one that arrives there; while a callee runs it is the callee's.
/// The settings to null or false before a call and at an exit take no step and show nothing. The store fits the variables of that
/// procedure.
pub fn trace_procedure(
    alloc: Global,
    program: &Typed,
    number: u32,
    store: Store,
    steps: u32,
) -> Result<RunTrace, AllocError>
    requires program { ProgramFits program.now }
    requires start { CanStart program.now number store steps }
    ensures traced { IfOk result (λ run. TracedRun program.now number store steps run.events (stand_of run.proc run.at) (answer_with run.at run.end)) }
    ensures fits { IfOk result (λ run. IsSomeAnd (slice_get program.now.procs run.proc) (λ e. Fits program.now.types e.vars run.at)) }
{
    let mut recorder = Recorder::on(alloc);
    let stood = go(alloc, program, number, store, steps, &mut recorder)?;
    let Stood { proc, at, end } = stood;
    let mut at = at;
    at.settle();
    Ok(RunTrace {
        events: recorder.into_events(),
        proc,
        at,
        end,
    })
}
