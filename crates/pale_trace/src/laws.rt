//! What holds of traces, the contract of a function that does nothing.

ghost use Rattle.std.specs.Prelude.{◌≡◌, ℕ, List};
ghost use Rattle.store_core.specs.Stores.{StoreMap};
ghost use Rattle.store_exec.specs.declared.triple.Triple.{Triple};
ghost use Rattle.pale_typed.specs.declared.typed.ProcEntry.{ProcEntry};
ghost use Rattle.pale_typed.specs.TypedPrograms.{TypedProgram};
ghost use Rattle.pale_replay.specs.Replays.{Replays};
ghost use Rattle.pale_replay.specs.Lines.{line_of};
ghost use Rattle.pale_replay.specs.declared.answer.Answer as replay;
ghost use Rattle.pale_run.specs.Runs.{RunsFrom};
ghost use Rattle.pale_run.specs.declared.answer.Answer as run;
ghost use Rattle.pale_trace.specs.declared.ending.Ending.{Ending};
ghost use Rattle.pale_trace.specs.Endings.{ends_as_replay, ends_as_run, run_line, Has};
ghost use Rattle.pale_trace.specs.Traces.{TripleSays, RunSays};

use store_trace::triples_end_as_traced;
use whole_trace::traces_are_whole_runs;

/// How a trace ends is what a replay answers of the same store, and what a run answers of it; and the line of that answer stands in the
/// text.
pub fn traces_end_as_executions()
    ensures replays { (program : TypedProgram) (t : Triple) (e : ProcEntry) (s : StoreMap) (how : Ending) (written : List ℕ) →
        TripleSays program t e s how written → (a : replay.Answer) × Replays program.types e.vars t s a × (how ≡ ends_as_replay a)
        × Has (line_of program.types e.vars a) written }
    ensures runs { (program : TypedProgram) (number steps : ℕ) (e : ProcEntry) (s : StoreMap) (how : Ending) (written : List ℕ) →
        RunSays program number steps e s how written → (a : run.Answer) × RunsFrom program number steps e s a × (how ≡ ends_as_run a)
        × Has (run_line program.types e.vars a) written }
{
    triples_end_as_traced();
    traces_are_whole_runs();
}
