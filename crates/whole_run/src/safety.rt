//! Whole runs and triples.

ghost use Rattle.std.specs.Prelude.{ℕ};
ghost use Rattle.store_core.specs.Stores.{StoreMap};
ghost use Rattle.store_exec.specs.declared.cause.Cause.{Cause};
ghost use Rattle.pale_typed.specs.TypedPrograms.{TypedProgram};
ghost use Rattle.pale_typed.specs.Fitting.{ProgramFits};
ghost use Rattle.whole_run.specs.States.{Fail};
ghost use Rattle.whole_run.specs.Runs.{WholeRun};
ghost use Rattle.whole_run.specs.Places.{PlacesAreDistinct};
ghost use Rattle.whole_run.specs.Safety.{NoTripleFails, MeetsEntry};

use crate::{
    handed_stores_meet_the_entry, returned_stores_are_well_formed, returned_stores_meet_the_start,
};
use claim_laws::claims_with_actuals_put_in_fit;

/// Where no store that meets a triple of the program fails, no run of a procedure fails that starts from a store that meets its
/// entry triple, however many steps it has, with whatever calls and loops.
pub fn whole_runs_never_fail()
    ensures { (program : TypedProgram) → ProgramFits program → PlacesAreDistinct program → NoTripleFails program →
        (number : ℕ) (s : StoreMap) (n : ℕ) (why : Cause) (line : ℕ) → MeetsEntry program number s →
        WholeRun program number s n (Fail why line) → ⊥ }
{
    claims_with_actuals_put_in_fit();
    handed_stores_meet_the_entry();
    returned_stores_are_well_formed();
    returned_stores_meet_the_start();
}
