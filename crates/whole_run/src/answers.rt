//! Whole runs and their answers.

ghost use Rattle.std.specs.Prelude.{◌≡◌, ℕ, Some, slice_get};
ghost use Rattle.store_core.specs.Stores.{StoreMap, Fits, IsFresh};
ghost use Rattle.pale_typed.specs.declared.typed.ProcEntry.{ProcEntry};
ghost use Rattle.pale_typed.specs.TypedPrograms.{TypedProgram};
ghost use Rattle.pale_typed.specs.Fitting.{ProgramFits};
ghost use Rattle.whole_run.specs.States.{Answer};
ghost use Rattle.whole_run.specs.Runs.{WholeRun};

use crate::{handed_stores_meet_the_entry, returned_stores_are_well_formed};
use claim_laws::claims_with_actuals_put_in_fit;

/// A program that fits has an answer for each of its procedures, each store that fits the procedure's variables and is fresh, and each
/// number of steps. It needs no triple to be valid, nor the store to be well-formed or to meet `pre`.
pub fn runs_have_an_answer()
    ensures { (program : TypedProgram) → ProgramFits program → (number : ℕ) (entry : ProcEntry) (s : StoreMap) (n : ℕ) →
        slice_get program.procs number ≡ Some entry → Fits program.types entry.vars s → IsFresh s →
        (answer : Answer) × WholeRun program number s n answer }
{
    claims_with_actuals_put_in_fit();
    handed_stores_meet_the_entry();
    returned_stores_are_well_formed();
}
