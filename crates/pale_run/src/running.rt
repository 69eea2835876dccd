//! A text run.

ghost use Rattle.std.specs.Prelude.{◌≡◌, ◌<◌, ◌≤◌, ◌∷◌, Some, length, slice_get, IfOk, IfErr, IsSome, List, ℕ};
ghost use Rattle.store_text.specs.Lines.{lines_of};
ghost use Rattle.pale_typed.specs.declared.typed.ProcEntry.{ProcEntry};
ghost use Rattle.pale_typed.specs.Fitting.{ProgramFits};
ghost use Rattle.hoare_split.specs.Starts as starts;
ghost use Rattle.pale_starts.specs.Begins.{Begins};
ghost use Rattle.pale_starts.specs.Stops.{IsPartStop};
ghost use Rattle.pale_run.specs.Running.{NamesRun, SaysOf, IsRunOf};

use crate::answer::{Answer, Run};
use crate::lines::{store_refused, told};
use crate::naming::{NamedRun, named_run};
use hoare_split::{caller_at, entry_start};
use pale_parts::{cut_text, split_line};
use pale_starts::{Begun, begin};
use pale_text::TextStop;
use pale_typed::Typed;
use std::alloc::{AllocError, Global};
use store_text::StoreKind;
use whole_exec::run_procedure;
use whole_program::{WholeProgram, read_program};

/// What comes of a store text at the entry of the procedure with this number, which is there.
///
/// # Errors
///
/// Want of memory.
pub fn begin_run(
    alloc: Global,
    program: &Typed,
    number: u32,
    text: &[u8],
) -> Result<Begun, AllocError>
    requires short { length text.now < u32.MAX }
    requires program { ProgramFits program.now }
    requires there { IsSome (slice_get program.now.procs number) }
    ensures { IfOk result (λ b. (e : ProcEntry) → slice_get program.now.procs number ≡ Some e →
        Begins program.now.types e.vars (starts.entry_start e.vars e.proc) (lines_of text.now) b) }
{
    let Some(caller) = caller_at(program, number) else {
        unreachable!()
    };
    let start = entry_start(alloc, &caller)?;
    begin(alloc, program.types(), caller.vars, &start, text)
}

/// What is said of a store text in the run of a procedure. The text begins at line 2 of its part.
fn run_text(alloc: Global, program: &Typed, named: NamedRun, text: &[u8]) -> Result<Run, AllocError>
    requires short { length text.now < u32.MAX }
    requires program { ProgramFits program.now }
    requires there { IsSome (slice_get program.now.procs named.number) }
    requires few { named.steps ≤ 100000 }
    ensures { IfOk result (λ r. (first : List ℕ) → (e : ProcEntry) → NamesRun program.now first named.number named.steps e →
        SaysOf program.now (first ∷ lines_of text.now) r.answer r.text) }
{
    let types = program.types();
    let Some(vars) = program.vars(named.number) else {
        unreachable!()
    };
    match begin_run(alloc, program, named.number, text)? {
        Begun::Refused(fault) => store_refused(alloc, u64::from(fault.line) + 1, fault.kind),
        Begun::NotWellFormed(fault) => told(alloc, types, vars, Answer::NotWellFormed(fault)),
        Begun::StartFalse => told(alloc, types, vars, Answer::StartFalse),
        Begun::Meets(store) => {
            let answer = run_procedure(alloc, program, named.number, store, named.steps)?;
            told(alloc, types, vars, Answer::Ran(answer))
        }
    }
}

/// What is said of the part after `---`.
fn run_part(alloc: Global, program: &Typed, part: &[u8]) -> Result<Run, AllocError>
    requires short { length part.now < u32.MAX }
    requires program { ProgramFits program.now }
    ensures { IfOk result (λ r. SaysOf program.now (lines_of part.now) r.answer r.text) }
{
    if part.is_empty() {
        return store_refused(alloc, 1, StoreKind::Missing);
    }
    let (line, text) = split_line(part);
    match named_run(program, line)? {
        Ok(named) => run_text(alloc, program, named, text),
        Err(kind) => store_refused(alloc, 1, kind),
    }
}

/// What is said of a program, a line `---`, a line `run PROC STEPS` and a store text. The text has fewer bytes than the greatest `u32`.
///
/// # Errors
///
/// `Refused` is the first refusal of the program's part, before the line `---`; the other part is looked at after it.
pub fn run(alloc: Global, text: &[u8]) -> Result<Run, TextStop>
    requires { length text.now < u32.MAX }
    ensures run { IfOk result (λ r. IsRunOf text.now r.answer r.text) }
    ensures stop { IfErr result (IsPartStop text.now) }
{
    let (program, part) = cut_text(text);
    let whole = read_program(alloc, program)?;
    match part {
        Some(part) => Ok(run_part(alloc, &whole.typed, part)?),
        None => Ok(store_refused(alloc, 0, StoreKind::Missing)?),
    }
}
