//! What stands after a call.

ghost use Rattle.std.specs.Prelude.{◌≡◌, ℕ, List, Some, None, slice_get};
ghost use Rattle.store_core.specs.declared.ids.CellId.{CellId};
ghost use Rattle.store_core.specs.Tables.{VarEntry};
ghost use Rattle.store_core.specs.Stores.{StoreMap, Fits};
ghost use Rattle.routing_walks.specs.Regions.{IsPart};
ghost use Rattle.routing_walks.specs.WellFormed.{IsWellFormed};
ghost use Rattle.store_exec.specs.Restricted.{restricted};
ghost use Rattle.store_exec.specs.Cuts.{AreMet, AtCut};
ghost use Rattle.store_exec.specs.Failing.{StartHolds};
ghost use Rattle.pale_typed.specs.declared.typed.CallParts.{CallParts};
ghost use Rattle.pale_typed.specs.declared.typed.ProcEntry.{ProcEntry};
ghost use Rattle.pale_typed.specs.TypedPrograms.{TypedProgram};
ghost use Rattle.pale_typed.specs.Fitting.{CallFits, ProgramFits};
ghost use Rattle.hoare_split.specs.Picking.{those, is_awaited, is_left};
ghost use Rattle.hoare_split.specs.Calls.{handed_by};
ghost use Rattle.hoare_split.specs.Cuts.{plain_cut, call_cut};
ghost use Rattle.hoare_split.specs.Starts.{call_start};
ghost use Rattle.whole_run.specs.Handing.{handed_store, rest_store, returned_store};
ghost use Rattle.whole_run.specs.Leaving.{CameOf, AreBlank, KeepsLogic};

/// Where the cut of a call has no cause, and then the callee's exit has none, the store after the return is well-formed: s is the store
/// at the call's cut, x that at the exit, which came of a run on the handed part.
pub fn returned_stores_are_well_formed()
    ensures { (program : TypedProgram) (vars : List VarEntry) (callee : ProcEntry) (call : CallParts) (line : ℕ) (s x : StoreMap) (cells : List CellId) →
        ProgramFits program → CallFits program.types program.procs vars call → slice_get program.procs call.callee ≡ Some callee →
        Fits program.types vars s → AtCut program.types vars (call_cut program.procs vars line call) s None → AreBlank s (those (is_awaited call) vars) →
        IsPart program.types vars (restricted s) (handed_by vars call.args) cells →
        Fits program.types callee.vars x → AtCut program.types callee.vars (plain_cut callee.proc.last callee.proc.post) x None →
        AreBlank x (those (is_left callee.proc) callee.vars) → CameOf (restricted s) cells (restricted x) →
        IsWellFormed program.types vars
        (returned_store vars call callee.proc.results (rest_store (restricted s) cells) (restricted x)) }
{}

/// Where then the claims of both cuts are met, and the callee's logic variables still hold what was handed over, the start of the triple
/// after the call holds there.
pub fn returned_stores_meet_the_start()
    ensures { (program : TypedProgram) (vars : List VarEntry) (callee : ProcEntry) (call : CallParts) (line : ℕ) (s x : StoreMap) (cells : List CellId) →
        ProgramFits program → CallFits program.types program.procs vars call → slice_get program.procs call.callee ≡ Some callee →
        Fits program.types vars s → AtCut program.types vars (call_cut program.procs vars line call) s None → AreBlank s (those (is_awaited call) vars) →
        IsPart program.types vars (restricted s) (handed_by vars call.args) cells →
        Fits program.types callee.vars x → AtCut program.types callee.vars (plain_cut callee.proc.last callee.proc.post) x None →
        AreBlank x (those (is_left callee.proc) callee.vars) → CameOf (restricted s) cells (restricted x) →
        KeepsLogic callee.proc.logics (handed_store callee call (restricted s) cells) (restricted x) →
        AreMet program.types vars s (call_cut program.procs vars line call).asserts →
        AreMet program.types callee.vars x (plain_cut callee.proc.last callee.proc.post).asserts →
        StartHolds program.types vars (call_start program.procs vars call)
        (returned_store vars call callee.proc.results (rest_store (restricted s) cells) (restricted x)) }
{}
