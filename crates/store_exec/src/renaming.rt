//! What a renaming of cells keeps of execution: laws, each the contract of a function that does nothing.

ghost use Rattle.std.specs.Prelude.{◌↔◌, ℕ, List, Option, Result};
ghost use Rattle.store_core.specs.declared.ids.CellId.{CellId};
ghost use Rattle.store_core.specs.Tables.{TypeEntry, VarEntry};
ghost use Rattle.store_core.specs.Stores.{StoreMap, IsAbove};
ghost use Rattle.routing_walks.specs.Pairing.{IsPair, ArePaired};
ghost use Rattle.store_logic.specs.declared.act.Act.{Act};
ghost use Rattle.store_exec.specs.declared.cause.Cause.{Cause};
ghost use Rattle.store_exec.specs.declared.code.Code.{Code};
ghost use Rattle.store_exec.specs.declared.outcome.Outcome.{Outcome};
ghost use Rattle.store_exec.specs.declared.triple.Cut.{Cut};
ghost use Rattle.store_exec.specs.declared.triple.Start.{Start};
ghost use Rattle.store_exec.specs.declared.triple.Triple.{Triple};
ghost use Rattle.store_exec.specs.Steps.{Step};
ghost use Rattle.store_exec.specs.Runs.{RunsCode};
ghost use Rattle.store_exec.specs.Cuts.{AtCut};
ghost use Rattle.store_exec.specs.Failing.{StartHolds, Meets, Fails};
ghost use Rattle.store_exec.specs.Renamed.{AreRenamed, StayRenamed, Alike, EndAlike};

/// Where two stores are the same but for the names of their cells, an act leads from both to the same cause, or to stores that are
/// so too: a new cell has the next number of its store, and these two are a new pair.
pub fn renaming_cells_keeps_steps()
    ensures { (types : List TypeEntry) (pairs : List (CellId × CellId)) (s t : StoreMap) → AreRenamed pairs s t → (a : Act) (r : Result StoreMap Cause) →
        Step types s a r → (q : Result StoreMap Cause) × Step types t a q × Alike (StayRenamed pairs s t) r q }
{}

/// The same of a code: it leads from both to the same cause at the same line, or to the same cut with stores that are so too.
pub fn renaming_cells_keeps_runs()
    ensures { (types : List TypeEntry) (pairs : List (CellId × CellId)) (s t : StoreMap) → AreRenamed pairs s t → (code : Code) (out : Outcome) →
        RunsCode types code s out → (other : Outcome) × RunsCode types code t other × EndAlike pairs s t out other }
{}

/// Where the cells that stand in two stores are paired one to one and the stores are the same but for that, both have the same first
/// cause at a cut, or both have none; a start holds in both or in neither; and both meet a triple, or neither does.
pub fn renaming_cells_keeps_cuts()
    ensures cuts { (types : List TypeEntry) (vars : List VarEntry) (pairs : List (CellId × CellId)) (s t : StoreMap) → ArePaired (IsPair pairs) s t →
        (cut : Cut) (why : Option Cause) → AtCut types vars cut s why ↔ AtCut types vars cut t why }
    ensures starts { (types : List TypeEntry) (vars : List VarEntry) (pairs : List (CellId × CellId)) (s t : StoreMap) → ArePaired (IsPair pairs) s t →
        (start : Start) → StartHolds types vars start s ↔ StartHolds types vars start t }
    ensures meets { (types : List TypeEntry) (vars : List VarEntry) (pairs : List (CellId × CellId)) (s t : StoreMap) → ArePaired (IsPair pairs) s t →
        IsAbove s → IsAbove t → (triple : Triple) → Meets types vars triple s ↔ Meets types vars triple t }
{}

/// A triple fails from both with the same cause at the same line, or from neither.
pub fn renaming_cells_keeps_failing()
    ensures { (types : List TypeEntry) (vars : List VarEntry) (pairs : List (CellId × CellId)) (s t : StoreMap) → AreRenamed pairs s t →
        (triple : Triple) (why : Cause) (line : ℕ) → Fails types vars triple s why line ↔ Fails types vars triple t why line }
{}
