//! One step of a run.

ghost use Rattle.std.specs.Prelude.{◌≡◌, List, [], ◌∷◌, ◌++◌, if◌then◌else◌, IfOk, IfErr, OnOk};
ghost use Rattle.store_logic.specs.FitsCode.{ActFits};
ghost use Rattle.store_logic.specs.Fits.{AssertionFits};
ghost use Rattle.pale_typed.specs.declared.typed.Stmt.TheOpen.{Stmt-F};
ghost use Rattle.pale_typed.specs.TypedPrograms.{TypedProgram};
ghost use Rattle.pale_typed.specs.Fitting.{ProgramFits};
ghost use Rattle.whole_run.specs.States.{Waiting};
ghost use Rattle.whole_run.specs.Turns.{Exits, Takes};
ghost use Rattle.whole_turns.specs.declared.pieces.Next.TheVariants as next;
ghost use Rattle.whole_turns.specs.Standings.{loop_of, left_of, form_of, entry_of, all_waiting, state_of};
ghost use Rattle.whole_turns.specs.Turning.{FormFits, IsReady, CanTake, CanTurn, turn_of, GoesAs, HaltsAs, ShowsAs, TurnsAs};
ghost use Rattle.whole_trace.specs.Shown.{left_shows};
ghost use Rattle.whole_trace.specs.Stopping.{LeftStops};

use crate::activation::{Activation, At, Suspended};
use crate::arriving::{arrive, set_and_arrive};
use crate::calling::take_call;
use crate::ending::RunEnd;
use crate::halted::Halted;
use crate::pieces::{Loop, Next, Piece, next_statement};
use crate::plain::run_act;
use crate::returning::give_back;
use crate::showing::{note_return, note_shown, shown_exit, shown_next};
use hoare_split::{Caller, Pick, plain_cut};
use pale_text::Pos;
use pale_typed::{Stmt, Typed};
use plain_data::Stack;
use std::alloc::{AllocError, Global};
use store_core::Store;
use store_logic::{Act, Assertion, Cond};
use store_runner::read_truth;
use store_trace::Recorder;

/// What a step leads to.
#[derive(Drop)]
pub enum Turned<'a> {
    /// The run goes on from here.
    Goes(At<'a>),
    /// The run ends so, and stands at this store.
    Ends(RunEnd, Store),
}

/// An assignment, `free` or `assert`.
fn take_act<'a>(
    alloc: Global,
    program: &Typed,
    activation: Activation<'a>,
    store: Store,
    line: u32,
    act: &Act,
) -> Result<Result<At<'a>, Halted>, AllocError>
    requires ready { IsReady program.now (entry_of activation) store }
    requires act { ActFits program.now.types activation.vars.now act.now }
    ensures goes { IfOk result (λ end. (waiting : List Waiting) →
        GoesAs program.now activation.entry store (Stmt-F.Do line act.now) waiting (turn_of waiting end)) }
    ensures stops { IfOk result (HaltsAs program.now activation.entry store (Stmt-F.Do line act.now)) }
{
    match run_act(alloc, program.types(), line, act, store)? {
        Ok(after) => Ok(Ok(At::Running(activation, after))),
        Err(fault) => Ok(Err(fault)),
    }
}

/// Puts the block that the truth of a condition chooses before what is left.
fn push_block<'a>(
    truth: bool,
    yes: &'a [Stmt],
    no: &'a [Stmt],
    left: &mut Stack<Piece<'a>>,
) -> Result<(), AllocError>
    ensures { OnOk result (left_of left.new ≡ (if truth then yes.now else no.now) ++ left_of left.old) }
{
    if truth {
        left.push(Piece::Block(yes))
    } else {
        left.push(Piece::Block(no))
    }
}

/// Puts the body of a loop, and then the loop again, before what is left where the condition is true.
fn push_body<'a>(
    truth: bool,
    behind: Loop<'a>,
    left: &mut Stack<Piece<'a>>,
) -> Result<(), AllocError>
    ensures { OnOk result (left_of left.new ≡ (if truth then behind.entry.body.now ++ loop_of behind.entry ∷ [] else []) ++ left_of left.old) }
{
    if !truth {
        return Ok(());
    }
    left.push(Piece::Again(behind))?;
    left.push(Piece::Block(behind.body))
}

/// The condition of an `if`.
fn take_if<'a>(
    alloc: Global,
    activation: Activation<'a>,
    store: Store,
    line: u32,
    cond: &Cond,
    yes: &'a [Stmt],
    no: &'a [Stmt],
) -> Result<Result<At<'a>, Halted>, AllocError>
    ensures goes { IfOk result (λ end. (program : TypedProgram) (waiting : List Waiting) →
        GoesAs program activation.entry store (Stmt-F.If line cond.now yes.now no.now) waiting (turn_of waiting end)) }
    ensures stops { IfOk result (λ end. (program : TypedProgram) → HaltsAs program activation.entry store (Stmt-F.If line cond.now yes.now no.now) end) }
{
    let mut activation = activation;
    match read_truth(alloc, line, cond, &store)? {
        Ok(truth) => {
            push_block(truth, yes, no, &mut activation.left)?;
            Ok(Ok(At::Running(activation, store)))
        }
        Err(fault) => Ok(Err(Halted {
            cause: fault.cause,
            line: fault.line,
            at: store,
        })),
    }
}

/// The condition of a loop, behind its cut.
fn take_behind<'a>(
    alloc: Global,
    activation: Activation<'a>,
    store: Store,
    behind: Loop<'a>,
) -> Result<Result<At<'a>, Halted>, AllocError>
    ensures goes { IfOk result (λ end. (program : TypedProgram) (waiting : List Waiting) →
        GoesAs program activation.entry store (form_of (next.Behind behind.entry)) waiting (turn_of waiting end)) }
    ensures stops { IfOk result (λ end. (program : TypedProgram) → HaltsAs program activation.entry store (form_of (next.Behind behind.entry)) end) }
{
    let mut activation = activation;
    match read_truth(alloc, behind.place.line, behind.test, &store)? {
        Ok(truth) => {
            push_body(truth, behind, &mut activation.left)?;
            Ok(Ok(At::Running(activation, store)))
        }
        Err(fault) => Ok(Err(Halted {
            cause: fault.cause,
            line: fault.line,
            at: store,
        })),
    }
}

/// The cut of a loop.
fn take_while<'a>(
    alloc: Global,
    program: &Typed,
    activation: Activation<'a>,
    store: Store,
    met: Loop<'a>,
) -> Result<Result<At<'a>, Halted>, AllocError>
    requires ready { IsReady program.now (entry_of activation) store }
    requires invariant { AssertionFits program.now.types activation.vars.now met.invariant.now }
    ensures goes { IfOk result (λ end. (waiting : List Waiting) →
        GoesAs program.now activation.entry store (form_of (next.While met.entry)) waiting (turn_of waiting end)) }
    ensures stops { IfOk result (HaltsAs program.now activation.entry store (form_of (next.While met.entry))) }
{
    let mut activation = activation;
    let cut = plain_cut(alloc, met.place.line, met.invariant)?;
    match arrive(alloc, program.types(), activation.vars, &cut, store)? {
        Ok(after) => {
            activation.left.push(Piece::Behind(met))?;
            Ok(Ok(At::Running(activation, after)))
        }
        Err(fault) => Ok(Err(fault)),
    }
}

/// A `split`.
fn take_split<'a>(
    alloc: Global,
    program: &Typed,
    activation: Activation<'a>,
    store: Store,
    place: Pos,
    assertion: &Assertion,
) -> Result<Result<At<'a>, Halted>, AllocError>
    requires ready { IsReady program.now (entry_of activation) store }
    requires assertion { AssertionFits program.now.types activation.vars.now assertion.now }
    ensures goes { IfOk result (λ end. (waiting : List Waiting) →
        GoesAs program.now activation.entry store (Stmt-F.Split place assertion.now) waiting (turn_of waiting end)) }
    ensures stops { IfOk result (HaltsAs program.now activation.entry store (Stmt-F.Split place assertion.now)) }
{
    let cut = plain_cut(alloc, place.line, assertion)?;
    match arrive(alloc, program.types(), activation.vars, &cut, store)? {
        Ok(after) => Ok(Ok(At::Running(activation, after))),
        Err(fault) => Ok(Err(fault)),
    }
}

/// The exit: data and pointer variables that are no results are set to null, and then its cut is arrived at.
fn take_exit<'a>(
    alloc: Global,
    program: &'a Typed,
    activation: Activation<'a>,
    store: Store,
) -> Result<Result<At<'a>, Halted>, AllocError>
    requires { IsReady program.now (entry_of activation) store }
    ensures goes { IfOk result (λ end. (waiting : List Waiting) →
        Exits program.now (entry_of activation.entry) waiting store (turn_of waiting end)) }
    ensures stops { IfOk result (λ end. IfErr end (λ halted. LeftStops program.now (entry_of activation.entry) store [] halted.at)) }
{
    let caller = Caller {
        program,
        number: activation.number,
        vars: activation.vars,
        proc: activation.proc,
    };
    let last = activation.proc.last;
    let cut = plain_cut(alloc, last, &activation.proc.post)?;
    match set_and_arrive(alloc, caller, Pick::Left(activation.proc), &cut, store)? {
        Ok(after) => Ok(Ok(At::Exited(after))),
        Err(fault) => Ok(Err(fault)),
    }
}

/// The statement that comes next.
fn take_next<'a>(
    alloc: Global,
    program: &'a Typed,
    activation: Activation<'a>,
    store: Store,
    found: Next<'a>,
    waiting: &mut Stack<Suspended<'a>>,
) -> Result<Result<At<'a>, Halted>, AllocError>
    requires program { ProgramFits program.now }
    requires ready { IsReady program.now (entry_of activation) store }
    requires fits { FormFits program.now activation.vars.now (form_of found) }
    ensures goes { IfOk result (λ end. GoesAs program.now activation.entry store (form_of found.entry) (all_waiting waiting.old)
        (turn_of (all_waiting waiting.new) end)) }
    ensures stops { IfOk result (HaltsAs program.now activation.entry store (form_of found.entry)) }
    ensures kept { IfOk result (λ end. IfErr end (λ halted. all_waiting waiting.new ≡ all_waiting waiting.old)) }
{
    match found {
        Next::Do(line, act) => take_act(alloc, program, activation, store, line, act),
        Next::If(line, cond, yes, no) => { take_if(alloc, activation, store, line, cond, yes, no) }
        Next::While(met) => take_while(alloc, program, activation, store, met),
        Next::Behind(behind) => take_behind(alloc, activation, store, behind),
        Next::Split(place, assertion) => {
            take_split(alloc, program, activation, store, place, assertion)
        }
        Next::Call(place, call) => take_call(
            alloc, program, activation, store, place, call, waiting,
        ),
    }
}

/// One step of a procedure, by the statements that are left; what it shows is recorded where it doesn't fail.
fn take<'a>(
    alloc: Global,
    program: &'a Typed,
    activation: Activation<'a>,
    store: Store,
    waiting: &mut Stack<Suspended<'a>>,
    recorder: &mut Recorder,
) -> Result<Result<At<'a>, Halted>, AllocError>
    requires program { ProgramFits program.now }
    requires can { CanTake program.now (entry_of activation) store (left_of activation.left) }
    ensures goes { IfOk result (λ end. Takes program.now (entry_of activation.entry) (all_waiting waiting.old) store (left_of activation.entry.left)
        (turn_of (all_waiting waiting.new) end)) }
    ensures stops { IfOk result (λ end. IfErr end (λ halted. LeftStops program.now (entry_of activation.entry) store (left_of activation.entry.left)
        halted.at)) }
    ensures kept { IfOk result (λ end. IfErr end (λ halted. all_waiting waiting.new ≡ all_waiting waiting.old)) }
    ensures shows { IfOk result (ShowsAs recorder.old recorder.new
        (left_shows program.now.types activation.entry.proc.now.last store (left_of activation.entry.left))) }
{
    let mut activation = activation;
    match next_statement(&mut activation.left)? {
        Some(found) => {
            let shown = shown_next(alloc, program.types(), found, &store, recorder)?;
            let end = take_next(alloc, program, activation, store, found, waiting)?;
            note_shown(end, shown, recorder)
        }
        None => {
            let shown = shown_exit(alloc, activation.proc.last, recorder)?;
            let end = take_exit(alloc, program, activation, store)?;
            note_shown(end, shown, recorder)
        }
    }
}

/// One step of a run, or its end where it has one here; what the step shows is recorded. A run of which the procedure has exited and no
/// call waits takes no step. (Møller and Schwartzbach, PLDI 2001: procedures, loops and calls.)
///
/// # Errors
///
/// Want of memory.
pub fn turn<'a>(
    alloc: Global,
    program: &'a Typed,
    at: At<'a>,
    waiting: &mut Stack<Suspended<'a>>,
    recorder: &mut Recorder,
) -> Result<Turned<'a>, AllocError>
    requires program { ProgramFits program.now }
    requires can { CanTurn program.now (state_of at (all_waiting waiting.old)) }
    ensures { IfOk result (TurnsAs program.now (state_of at.entry (all_waiting waiting.old)) (all_waiting waiting.new) recorder.old recorder.new) }
{
    match at {
        At::Running(activation, store) => {
            match take(alloc, program, activation, store, waiting, recorder)? {
                Ok(after) => Ok(Turned::Goes(after)),
                Err(halted) => Ok(Turned::Ends(RunEnd::Fail(halted.cause, halted.line), halted.at)),
            }
        }
        At::Exited(store) => match waiting.pop() {
            Some(suspended) => {
                let after = give_back(alloc, program, store, suspended)?;
                note_return(alloc, recorder)?;
                Ok(Turned::Goes(after))
            }
            None => Ok(Turned::Ends(RunEnd::Exit, store)),
        },
    }
}
