//! What is finite and decided.

ghost use Rattle.std.specs.Prelude.{◌≡◌, ◌↔◌, ◌⊎◌, List};
ghost use Rattle.store_core.specs.declared.ids.FieldId.{FieldId};
ghost use Rattle.store_core.specs.declared.ids.VarId.{VarId};
ghost use Rattle.store_core.specs.declared.ids.CellId.{CellId};
ghost use Rattle.store_core.specs.declared.kind.Route.{Route};
ghost use Rattle.store_core.specs.declared.value.Value.{Value};
ghost use Rattle.store_core.specs.Tables.{TypeEntry, VarEntry};
ghost use Rattle.store_core.specs.Stores.{StoreMap, Fits};
ghost use Rattle.routing_walks.specs.Walks.{Fields, IsParent, Walk};
ghost use Rattle.routing_walks.specs.Destinations.{Dest, IsOnlyDestination};
ghost use Rattle.routing_walks.specs.WellFormed.{IsInTree, IsDangling, IsShared, IsLeaked, IsWrongField, IsWellFormed};
ghost use Rattle.routing_walks.specs.CutFaults.{IsSound, IsFirstCutFault};
ghost use Rattle.routing_walks.specs.Sets.{Lists};
ghost use Rattle.routing_walks.specs.Regions.{IsReachedFrom, IsPart, IsRest};
ghost use Rattle.routing_walks.specs.declared.fault.Place.{Place};
ghost use Rattle.routing_walks.specs.declared.fault.CutFault.{CutFault};
ghost use Rattle.routing_walks.specs.Deciding.{Decided};
ghost use Rattle.routing_walks.specs.Shown.{HasFault, HasCause, HasLeakSet, ShowsWrong};

/// There is a list of the cells at the ends of the walks from a cell, of its destinations, of the cells that are reached from
/// listed variables, and of the live cells outside a set.
pub fn walks_are_finite()
    ensures ends { (types : List TypeEntry) (s : StoreMap) (fields : Fields) (along : Route) (a : CellId) →
        (cells : List CellId) × Lists (Walk types s fields along a) cells }
    ensures destinations { (types : List TypeEntry) (s : StoreMap) (c : CellId) (f : FieldId) →
        (cells : List CellId) × Lists (Dest types s c f) cells }
    ensures parts { (types : List TypeEntry) (vars : List VarEntry) (s : StoreMap) (roots : List VarId) →
        (cells : List CellId) × IsPart types vars s roots cells }
    ensures rests { (s : StoreMap) (cells : List CellId) → (rest : List CellId) × IsRest s cells rest }
{}

/// Whether a route joins two cells is decided, and so is whether a data field does, and whether a cell is a destination.
pub fn walks_are_decided()
    ensures walks { (types : List TypeEntry) (s : StoreMap) (fields : Fields) (along : Route) (a b : CellId) →
        Decided (Walk types s fields along a b) }
    ensures parents { (types : List TypeEntry) (s : StoreMap) (a b : CellId) → Decided (IsParent types s a b) }
    ensures destinations { (types : List TypeEntry) (s : StoreMap) (c : CellId) (f : FieldId) (d : CellId) → Decided (Dest types s c f d) }
{}

/// Whether a cell is in a tree, or reached from listed variables, shared or leaked, whether a value is the only destination of
/// a cell and whether a pointer field is wrong is decided, and so is whether a reference or a set dangles.
pub fn stores_are_decided()
    ensures trees { (types : List TypeEntry) (vars : List VarEntry) (s : StoreMap) (v : VarId) (c : CellId) → Decided (IsInTree types vars s v c) }
    ensures reached { (types : List TypeEntry) (vars : List VarEntry) (s : StoreMap) (roots : List VarId) (c : CellId) →
        Decided (IsReachedFrom types vars s roots c) }
    ensures dangling { (s : StoreMap) (p : Place) → Decided (IsDangling s p) }
    ensures shared { (types : List TypeEntry) (vars : List VarEntry) (s : StoreMap) (c : CellId) → Decided (IsShared types vars s c) }
    ensures leaked { (types : List TypeEntry) (vars : List VarEntry) (s : StoreMap) (c : CellId) → Decided (IsLeaked types vars s c) }
    ensures only { (types : List TypeEntry) (s : StoreMap) (c : CellId) (f : FieldId) (x : Value) → Decided (IsOnlyDestination types s c f x) }
    ensures wrong { (types : List TypeEntry) (s : StoreMap) (c : CellId) (f : FieldId) → Decided (IsWrongField types s c f) }
{}

/// A store that fits its tables is well-formed or has a fault, and not both. It is a backbone with the right pointer fields,
/// or a cut there has a cause, and not both; and then one of the causes comes first.
pub fn faults_are_decided()
    ensures well_formed { (types : List TypeEntry) (vars : List VarEntry) (s : StoreMap) → Fits types vars s →
        IsWellFormed types vars s ⊎ HasFault types vars s }
    ensures no_fault { (types : List TypeEntry) (vars : List VarEntry) (s : StoreMap) → IsWellFormed types vars s → HasFault types vars s → ⊥ }
    ensures sound { (types : List TypeEntry) (vars : List VarEntry) (s : StoreMap) → Fits types vars s →
        IsSound types vars s ⊎ HasCause types vars s }
    ensures no_cause { (types : List TypeEntry) (vars : List VarEntry) (s : StoreMap) → Fits types vars s → IsSound types vars s → HasCause types vars s → ⊥ }
    ensures first { (types : List TypeEntry) (vars : List VarEntry) (s : StoreMap) → Fits types vars s → HasCause types vars s →
        (fault : CutFault) × IsFirstCutFault types vars s fault }
{}

/// A cell leaks exactly where some set shows it, closed under data fields, with the cells that data variables name and without
/// this one.
pub fn leaks_are_shown()
    ensures { (types : List TypeEntry) (vars : List VarEntry) (s : StoreMap) (c : CellId) → IsLeaked types vars s c ↔ HasLeakSet types vars s c }
{}

/// A value is the only destination of a cell, or null where there is none, or a cell shows that it isn't, and not both.
pub fn wrong_fields_are_shown()
    ensures either { (types : List TypeEntry) (s : StoreMap) (c : CellId) (f : FieldId) (x : Value) →
        IsOnlyDestination types s c f x ⊎ ShowsWrong types s c f x }
    ensures not_both { (types : List TypeEntry) (s : StoreMap) (c : CellId) (f : FieldId) (x : Value) →
        ShowsWrong types s c f x → IsOnlyDestination types s c f x → ⊥ }
{}
