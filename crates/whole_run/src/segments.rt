//! Whole runs and flows.

ghost use Rattle.std.specs.Prelude.{◌≡◌, ◌⊎◌, ℕ, List};
ghost use Rattle.store_core.specs.Stores.{StoreMap};
ghost use Rattle.pale_typed.specs.declared.typed.ProcEntry.{ProcEntry};
ghost use Rattle.pale_typed.specs.declared.typed.Stmt.{Stmt};
ghost use Rattle.pale_typed.specs.TypedPrograms.{TypedProgram};
ghost use Rattle.whole_run.specs.States.{Waiting, Turn, Answer, Running};
ghost use Rattle.whole_run.specs.Turns.{on_with};
ghost use Rattle.whole_run.specs.Runs.{EndsBy, Ends};
ghost use Rattle.whole_run.specs.FlowRuns.{Leading, RunsFlow};
ghost use Rattle.whole_run.specs.Segments.{flow_left, EndsLead};

/// Up to the next cut a run goes where the flow of the statements that are left leads: it is still running, or it comes to the step
/// where that flow arrives at the cut, or stops, and has from there on the answer of that step.
pub fn runs_go_as_their_flows()
    ensures { (program : TypedProgram) (entry : ProcEntry) (waiting : List Waiting) (left : List Stmt) (s : StoreMap) (lead : Leading) (n : ℕ)
        (answer : Answer) → RunsFlow program.types (flow_left program entry left) s lead → Ends program n (on_with entry waiting left s) answer →
        (answer ≡ Running) ⊎ ((m : ℕ) × (turn : Turn) × EndsLead program.types entry.vars lead turn × EndsBy (Ends program m) turn answer) }
{}
