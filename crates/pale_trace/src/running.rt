//! A store in the run of a procedure.

ghost use Rattle.std.specs.Prelude.{◌<◌, ◌≤◌, ◌∷◌, length, slice_get, IfOk, IsSome, List, ℕ};
ghost use Rattle.store_exec.specs.declared.triple.Triple as exec;
ghost use Rattle.store_text.specs.Lines.{lines_of};
ghost use Rattle.pale_typed.specs.declared.typed.ProcEntry.{ProcEntry};
ghost use Rattle.pale_typed.specs.Fitting.{ProgramFits};
ghost use Rattle.pale_run.specs.Running.{NamesRun};
ghost use Rattle.pale_trace.specs.Tracing.{SaysOf};

use crate::ending::Trace;
use crate::lines::{ill, run_told, start_false, store_refused};
use pale_run::{NamedRun, begin_run};
use pale_starts::Begun;
use pale_typed::Typed;
use std::alloc::{AllocError, Global};
use whole_exec::trace_procedure;

/// What is said of a store text in the run of a procedure. The text begins at line 2 of its part.
pub(crate) fn trace_in_run(
    alloc: Global,
    program: &Typed,
    named: NamedRun,
    text: &[u8],
) -> Result<Trace, AllocError>
    requires short { length text.now < u32.MAX }
    requires program { ProgramFits program.now }
    requires there { IsSome (slice_get program.now.procs named.number) }
    requires few { named.steps ≤ 100000 }
    ensures { IfOk result (λ r. (triples : List exec.Triple) (first : List ℕ) → (e : ProcEntry) → NamesRun program.now first named.number named.steps e →
        SaysOf program.now triples (first ∷ lines_of text.now) r.ending r.text) }
{
    let types = program.types();
    let Some(vars) = program.vars(named.number) else {
        unreachable!()
    };
    match begin_run(alloc, program, named.number, text)? {
        Begun::Refused(fault) => store_refused(alloc, u64::from(fault.line) + 1, fault.kind),
        Begun::NotWellFormed(fault) => ill(alloc, types, vars, fault),
        Begun::StartFalse => start_false(alloc),
        Begun::Meets(store) => {
            let run = trace_procedure(alloc, program, named.number, store, named.steps)?;
            run_told(alloc, program, named.number, &run)
        }
    }
}
