//! What holds of traces of whole runs, each law the contract of a function that does nothing.

ghost use Rattle.std.specs.Prelude.{◌≡◌, ℕ, List};
ghost use Rattle.store_core.specs.Stores.{StoreMap};
ghost use Rattle.pale_typed.specs.TypedPrograms.{TypedProgram};
ghost use Rattle.store_trace.specs.declared.event.Event.{Event};
ghost use Rattle.whole_run.specs.States.{Answer, Exit};
ghost use Rattle.whole_run.specs.Runs.{WholeRun};
ghost use Rattle.whole_trace.specs.Traces.{Stand, TracedRun};

/// The answer of a trace is the run's; each run has a trace; and it has one trace alone. One that exits stands at the store of
/// its exit, in the procedure that was run.
pub fn traces_are_whole_runs()
    ensures answers { (program : TypedProgram) (number : ℕ) (s : StoreMap) (n : ℕ) (shown : List Event) (stand : Stand) (answer : Answer) →
        TracedRun program number s n shown stand answer → WholeRun program number s n answer }
    ensures traces { (program : TypedProgram) (number : ℕ) (s : StoreMap) (n : ℕ) (answer : Answer) → WholeRun program number s n answer →
        (shown : List Event) × (stand : Stand) × TracedRun program number s n shown stand answer }
    ensures one { (program : TypedProgram) (number : ℕ) (s : StoreMap) (n : ℕ) (shown other : List Event) (stand also : Stand) (answer reply : Answer) →
        TracedRun program number s n shown stand answer → TracedRun program number s n other also reply →
        (shown ≡ other) × (stand ≡ also) × (answer ≡ reply) }
    ensures exits { (program : TypedProgram) (number : ℕ) (s : StoreMap) (n : ℕ) (shown : List Event) (stand : Stand) (t : StoreMap) →
        TracedRun program number s n shown stand (Exit t) → stand ≡ record { proc = number; store = t } }
{}
