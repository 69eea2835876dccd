//! A store in a triple.

ghost use Rattle.std.specs.Prelude.{◌<◌, ◌≤◌, ◌∷◌, length, IfOk, List, ℕ};
ghost use Rattle.store_core.specs.Stores.{Fits};
ghost use Rattle.store_exec.specs.Failing.{Meets};
ghost use Rattle.store_text.specs.Lines.{lines_of};
ghost use Rattle.store_trace.specs.Tracing.{TracesTriple};
ghost use Rattle.pale_typed.specs.declared.typed.ProcEntry.{ProcEntry};
ghost use Rattle.hoare_split.specs.Fitting.{FitsProgram, IsShort};
ghost use Rattle.pale_replay.specs.Replaying.{NamesTriple};
ghost use Rattle.pale_replay.specs.Running.{CanBeRun};
ghost use Rattle.pale_trace.specs.Tracing.{SaysOf};

use crate::ending::Trace;
use crate::lines::{ill, start_false, store_refused, triple_told};
use pale_starts::{Begun, begin};
use routing_walks::well_formed_stores_are_fresh;
use std::alloc::{AllocError, Global};
use store_core::{Store, TypeTable, VarTable};
use store_exec::Triple;
use store_runner::trace_triple;
use store_trace::Traced;
use whole_program::WholeProgram;

/// What is shown from a store that meets the triple.
fn execute(
    alloc: Global,
    types: &TypeTable,
    vars: &VarTable,
    triple: &Triple,
    store: Store,
) -> Result<Traced, AllocError>
    requires triple { CanBeRun types.now vars.now triple.now }
    requires meets { Meets types.now vars.now triple.now store }
    requires numbers { store.next ≤ 1000001 }
    ensures traced { IfOk result (λ traced. TracesTriple types.now vars.now triple.now store traced.events traced.at traced.end) }
    ensures fits { IfOk result (λ traced. Fits types.now vars.now traced.at) }
{
    well_formed_stores_are_fresh();
    trace_triple(alloc, types, vars, triple, store)
}

/// What is said of a store text in a triple of the program. The text begins at line 2 of its part.
pub(crate) fn trace_in_triple(
    alloc: Global,
    whole: &WholeProgram,
    triple: &Triple,
    text: &[u8],
) -> Result<Trace, AllocError>
    requires short { length text.now < u32.MAX }
    requires fits { FitsProgram whole.now.typed triple.now }
    requires news { IsShort triple.now }
    ensures { IfOk result (λ r. (first : List ℕ) → (e : ProcEntry) → NamesTriple whole.now.typed whole.now.triples first triple.now e →
        SaysOf whole.now.typed whole.now.triples (first ∷ lines_of text.now) r.ending r.text) }
{
    let types = whole.typed.types();
    let Some(vars) = whole.typed.vars(triple.proc) else {
        unreachable!()
    };
    match begin(alloc, types, vars, &triple.start, text)? {
        Begun::Refused(fault) => store_refused(alloc, u64::from(fault.line) + 1, fault.kind),
        Begun::NotWellFormed(fault) => ill(alloc, types, vars, fault),
        Begun::StartFalse => start_false(alloc),
        Begun::Meets(store) => {
            let traced = execute(alloc, types, vars, triple, store)?;
            triple_told(alloc, &whole.typed, triple.proc, &traced)
        }
    }
}
