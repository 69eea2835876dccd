//! What holds of whole runs, each law the contract of a function that does nothing.

ghost use Rattle.std.specs.Prelude.{◌≡◌, ℕ};
ghost use Rattle.store_core.specs.Stores.{StoreMap};
ghost use Rattle.pale_typed.specs.TypedPrograms.{TypedProgram};
ghost use Rattle.whole_run.specs.States.{Answer, Running};
ghost use Rattle.whole_run.specs.Runs.{WholeRun};

/// With no step left a run is still running.
pub fn runs_without_steps_are_running()
    ensures { (program : TypedProgram) (number : ℕ) (s : StoreMap) (answer : Answer) → WholeRun program number s 0 answer → answer ≡ Running }
{}

/// A run has one answer after so many steps at most.
pub fn runs_have_one_answer()
    ensures { (program : TypedProgram) (number : ℕ) (s : StoreMap) (n : ℕ) (answer other : Answer) →
        WholeRun program number s n answer → WholeRun program number s n other → answer ≡ other }
{}
