//! What holds of traces, each law the contract of a function that does nothing.

ghost use Rattle.std.specs.Prelude.{◌≡◌, ℕ, List, Result, Ok, Err, Some, None, slice_get};
ghost use Rattle.store_core.specs.Tables.{TypeEntry, VarEntry};
ghost use Rattle.store_core.specs.Stores.{StoreMap, Fits, IsFresh};
ghost use Rattle.store_exec.specs.declared.code.Code.{Code};
ghost use Rattle.store_exec.specs.declared.fault.Fault.{Fault};
ghost use Rattle.store_exec.specs.declared.outcome.Outcome.{Outcome};
ghost use Rattle.store_exec.specs.declared.outcome.Outcome.TheVariants as outcome;
ghost use Rattle.store_exec.specs.declared.triple.Cut.{Cut};
ghost use Rattle.store_exec.specs.declared.triple.Triple.{Triple};
ghost use Rattle.store_exec.specs.Runs.{RunsCode};
ghost use Rattle.store_exec.specs.Cuts.{AtCut};
ghost use Rattle.store_exec.specs.Failing.{Fails};
ghost use Rattle.store_exec.specs.Fits.{CodeFits};
ghost use Rattle.store_trace.specs.declared.event.Event.{Event};
ghost use Rattle.store_trace.specs.Tracing.{TracesCode, TracesTriple, outcome_of};

/// The outcome of a trace is the code's outcome; a code with an outcome has a trace with it; and it has one trace alone.
pub fn traces_are_runs()
    ensures outcomes { (types : List TypeEntry) (code : Code) (s t : StoreMap) (shown : List Event) (end : Result ℕ Fault) →
        TracesCode types code s shown t end → RunsCode types code s (outcome_of t end) }
    ensures traces { (types : List TypeEntry) (code : Code) (s : StoreMap) (out : Outcome) → RunsCode types code s out →
        (shown : List Event) × (t : StoreMap) × (end : Result ℕ Fault) × TracesCode types code s shown t end × (out ≡ outcome_of t end) }
    ensures one { (types : List TypeEntry) (code : Code) (s t u : StoreMap) (shown other : List Event) (end also : Result ℕ Fault) →
        TracesCode types code s shown t end → TracesCode types code s other u also → (shown ≡ other) × (t ≡ u) × (end ≡ also) }
{}

/// A code that fits its tables stands at a store that fits them and is fresh, where it does so from one, also where it stops.
pub fn traces_keep_stores_fitting()
    ensures { (types : List TypeEntry) (vars : List VarEntry) (code : Code) (s t : StoreMap) (shown : List Event) (end : Result ℕ Fault) →
        Fits types vars s → IsFresh s → CodeFits types vars code → TracesCode types code s shown t end → Fits types vars t × IsFresh t }
{}

/// A triple whose trace ends with a fault fails so; and one whose trace ends at a line arrives at a cut with this line, where nothing is
/// wrong.
pub fn triples_end_as_traced()
    ensures fails { (types : List TypeEntry) (vars : List VarEntry) (triple : Triple) (s t : StoreMap) (shown : List Event) (fault : Fault) →
        TracesTriple types vars triple s shown t (Err fault) → Fails types vars triple s fault.cause fault.line }
    ensures ends { (types : List TypeEntry) (vars : List VarEntry) (triple : Triple) (s t : StoreMap) (shown : List Event) (line : ℕ) →
        TracesTriple types vars triple s shown t (Ok line) → (place : ℕ) × (cut : Cut) × RunsCode types triple.code s (outcome.End place t)
        × (slice_get triple.cuts place ≡ Some cut) × AtCut types vars cut t None × (cut.line ≡ line) }
{}
