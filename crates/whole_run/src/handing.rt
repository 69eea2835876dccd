//! What a call hands over.

ghost use Rattle.std.specs.Prelude.{◌≡◌, ℕ, List, Some, None, slice_get};
ghost use Rattle.store_core.specs.declared.ids.CellId.{CellId};
ghost use Rattle.store_core.specs.Tables.{VarEntry};
ghost use Rattle.store_core.specs.Stores.{StoreMap, Fits};
ghost use Rattle.routing_walks.specs.Regions.{IsPart};
ghost use Rattle.routing_walks.specs.WellFormed.{IsWellFormed};
ghost use Rattle.store_exec.specs.Restricted.{restricted};
ghost use Rattle.store_exec.specs.Cuts.{AreMet, AtCut};
ghost use Rattle.store_exec.specs.Failing.{StartHolds};
ghost use Rattle.pale_typed.specs.declared.typed.CallParts.{CallParts};
ghost use Rattle.pale_typed.specs.declared.typed.ProcEntry.{ProcEntry};
ghost use Rattle.pale_typed.specs.TypedPrograms.{TypedProgram};
ghost use Rattle.pale_typed.specs.Fitting.{CallFits, ProgramFits};
ghost use Rattle.hoare_split.specs.Calls.{handed_by};
ghost use Rattle.hoare_split.specs.Cuts.{call_cut};
ghost use Rattle.hoare_split.specs.Starts.{entry_start};
ghost use Rattle.whole_run.specs.Handing.{handed_store};

/// Where the cut of a call has no cause, the store that is handed to the callee is well-formed, and where the claims of that cut are
/// met, the callee's entry start holds there.
pub fn handed_stores_meet_the_entry()
    ensures { (program : TypedProgram) (vars : List VarEntry) (callee : ProcEntry) (call : CallParts) (line : ℕ) (s : StoreMap) (cells : List CellId) →
        ProgramFits program → CallFits program.types program.procs vars call → slice_get program.procs call.callee ≡ Some callee →
        Fits program.types vars s → AtCut program.types vars (call_cut program.procs vars line call) s None →
        IsPart program.types vars (restricted s) (handed_by vars call.args) cells →
        IsWellFormed program.types callee.vars (handed_store callee call (restricted s) cells)
        × (AreMet program.types vars s (call_cut program.procs vars line call).asserts →
        StartHolds program.types callee.vars (entry_start callee.vars callee.proc) (handed_store callee call (restricted s) cells)) }
{}
