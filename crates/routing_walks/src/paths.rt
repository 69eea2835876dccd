//! The paths to the cells of a store.

ghost use Rattle.std.specs.Prelude.{◌≡◌, ◌↔◌, List, []};
ghost use Rattle.store_core.specs.declared.ids.FieldId.{FieldId};
ghost use Rattle.store_core.specs.declared.ids.VarId.{VarId};
ghost use Rattle.store_core.specs.declared.ids.CellId.{CellId};
ghost use Rattle.store_core.specs.Tables.{TypeEntry, VarEntry};
ghost use Rattle.store_core.specs.Stores.{StoreMap, IsLive};
ghost use Rattle.routing_walks.specs.WellFormed.{IsInTree, IsBackbone};
ghost use Rattle.routing_walks.specs.Paths.{LeadsAlong, StandsAt, HasPath, HasOnePath};

/// On a backbone each live cell stands at exactly one path.
pub fn cells_have_one_path()
    ensures { (types : List TypeEntry) (vars : List VarEntry) (s : StoreMap) (c : CellId) →
        IsBackbone types vars s → IsLive s c → HasOnePath types vars s c }
{}

/// Two cells that stand at one path are one cell, on any store.
pub fn paths_lead_to_one_cell()
    ensures { (types : List TypeEntry) (vars : List VarEntry) (s : StoreMap) (v : VarId) (fields : List FieldId) (c d : CellId) →
        StandsAt types vars s v fields c → StandsAt types vars s v fields d → c ≡ d }
{}

/// The cells of a variable's tree are those that stand at a path which begins with the variable.
pub fn trees_are_paths()
    ensures { (types : List TypeEntry) (vars : List VarEntry) (s : StoreMap) (v : VarId) (c : CellId) →
        IsInTree types vars s v c ↔ HasPath types vars s v c }
{}

/// On a backbone data fields lead from no cell to itself, but none at all.
pub fn paths_have_no_cycle()
    ensures { (types : List TypeEntry) (vars : List VarEntry) (s : StoreMap) (fields : List FieldId) (c : CellId) →
        IsBackbone types vars s → LeadsAlong types s fields c c → fields ≡ [] }
{}
