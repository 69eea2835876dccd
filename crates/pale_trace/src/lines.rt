//! The text that is written of a trace.

ghost use Rattle.std.specs.Prelude.{◌≡◌, codes, slice_get, IfOk, IsSomeAnd};
ghost use Rattle.store_core.specs.Stores.{Fits};
ghost use Rattle.whole_exec.specs.Answers.{answer_with, stand_of};
ghost use Rattle.pale_starts.specs.Lines as starts;
ghost use Rattle.pale_trace.specs.Lines as lines;

use crate::ending::{Ending, Trace};
use pale_replay::end_line;
use pale_starts::{fail_line, fault_line, refused_line, start_false_line};
use pale_typed::Typed;
use routing_walks::WfFault;
use std::alloc::{AllocError, Global};
use store_core::{ByteList, Store, TypeTable, VarTable};
use store_exec::Fault;
use store_text::StoreKind;
use store_trace::{Event, Traced};
use trace_text::{push_events, push_stand};
use whole_exec::{RunEnd, RunTrace};

/// A text, and how it ends.
fn told(ending: Ending, text: Vec<u8>) -> Trace
    ensures { (result.ending ≡ ending) × (result.text ≡ text.items) }
{
    Trace {
        ending,
        text: ByteList::from_vec(text),
    }
}

/// `store refused N KIND`
pub(crate) fn store_refused(alloc: Global, line: u64, kind: StoreKind) -> Result<Trace, AllocError>
    ensures { IfOk result (λ t. (t.ending ≡ Ending.StoreRefused line kind) × (t.text ≡ starts.store_refused_line line kind)) }
{
    let text = refused_line(alloc, line, kind)?;
    Ok(told(Ending::StoreRefused(line, kind), text))
}

/// `not-well-formed FAULT`
pub(crate) fn ill(
    alloc: Global,
    types: &TypeTable,
    vars: &VarTable,
    fault: WfFault,
) -> Result<Trace, AllocError>
    ensures { IfOk result (λ t. (t.ending ≡ Ending.NotWellFormed fault) × (t.text ≡ starts.not_well_formed_line types.now vars.now fault)) }
{
    let text = fault_line(alloc, types, vars, fault)?;
    Ok(told(Ending::NotWellFormed(fault), text))
}

/// `start condition false`
pub(crate) fn start_false(alloc: Global) -> Result<Trace, AllocError>
    ensures { IfOk result (λ t. (t.ending ≡ Ending.StartFalse) × (t.text ≡ starts.start_false_line)) }
{
    let text = start_false_line(alloc)?;
    Ok(told(Ending::StartFalse, text))
}

/// What was shown from the first procedure on, the last line, and the store where it stands, over the variables of its procedure.
fn traced_text(
    alloc: Global,
    program: &Typed,
    first: u32,
    shown: &[Event],
    last: &[u8],
    proc: u32,
    at: &Store,
) -> Result<Vec<u8>, AllocError>
    requires { IsSomeAnd (slice_get program.now.procs proc) (λ e. Fits program.now.types e.vars at.now) }
    ensures { IfOk result (λ text. text.items ≡ lines.traced_text program.now first shown.now last.now (stand_of proc at.now)) }
{
    let mut text = Vec::new(alloc);
    push_events(alloc, program, first, shown, &mut text)?;
    text.extend_from_slice(last)?;
    push_stand(alloc, program, proc, at, &mut text)?;
    Ok(text)
}

/// `end line M` or `fail CAUSE line M`
fn end_of(alloc: Global, end: &Result<u32, Fault>) -> Result<Vec<u8>, AllocError>
    ensures { IfOk result (λ text. text.items ≡ lines.end_line end.now) }
{
    match end {
        Ok(line) => end_line(alloc, *line),
        Err(fault) => fail_line(alloc, fault.cause, fault.line),
    }
}

fn triple_ending(end: &Result<u32, Fault>) -> Ending
    ensures { result ≡ lines.triple_ending end.now }
{
    match end {
        Ok(line) => Ending::Ends(*line),
        Err(fault) => Ending::Fails(fault.cause, fault.line),
    }
}

/// What a triple of this procedure showed, how it ended, and where it stands.
pub(crate) fn triple_told(
    alloc: Global,
    program: &Typed,
    proc: u32,
    traced: &Traced,
) -> Result<Trace, AllocError>
    requires { IsSomeAnd (slice_get program.now.procs proc) (λ e. Fits program.now.types e.vars traced.now.at) }
    ensures { IfOk result (λ t. (t.ending ≡ lines.triple_ending traced.now.end)
        × (t.text ≡ lines.traced_text program.now proc traced.now.events (lines.end_line traced.now.end) (stand_of proc traced.now.at))) }
{
    let last = end_of(alloc, &traced.end)?;
    let events = traced.events.as_slice();
    let text = traced_text(
        alloc,
        program,
        proc,
        events,
        last.as_slice(),
        proc,
        &traced.at,
    )?;
    Ok(told(triple_ending(&traced.end), text))
}

/// `running`, `fail CAUSE line M` or `exit`
fn answer_line(alloc: Global, end: RunEnd, at: &Store) -> Result<Vec<u8>, AllocError>
    ensures { IfOk result (λ text. text.items ≡ lines.answer_line (answer_with at.now end)) }
{
    match end {
        RunEnd::Running => Vec::from_slice(alloc, b"running\n"),
        RunEnd::Fail(cause, line) => fail_line(alloc, cause, line),
        RunEnd::Exit => Vec::from_slice(alloc, b"exit\n"),
    }
}

fn run_ending(end: RunEnd, at: &Store) -> Ending
    ensures { result ≡ lines.run_ending (answer_with at.now end) }
{
    match end {
        RunEnd::Running => Ending::Running,
        RunEnd::Fail(cause, line) => Ending::Fails(cause, line),
        RunEnd::Exit => Ending::Exits,
    }
}

/// What a run of the procedure of this number showed, how it ended, and where it stands.
pub(crate) fn run_told(
    alloc: Global,
    program: &Typed,
    number: u32,
    run: &RunTrace,
) -> Result<Trace, AllocError>
    requires { IsSomeAnd (slice_get program.now.procs run.now.proc) (λ e. Fits program.now.types e.vars run.now.at) }
    ensures { IfOk result (λ t. (t.ending ≡ lines.run_ending (answer_with run.now.at run.now.end))
        × (t.text ≡ lines.run_text program.now number run.now.events (stand_of run.now.proc run.now.at) (answer_with run.now.at run.now.end))) }
{
    let last = answer_line(alloc, run.end, &run.at)?;
    let events = run.events.as_slice();
    let text = traced_text(
        alloc,
        program,
        number,
        events,
        last.as_slice(),
        run.proc,
        &run.at,
    )?;
    Ok(told(run_ending(run.end, &run.at), text))
}
