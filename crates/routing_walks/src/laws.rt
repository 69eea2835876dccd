//! What holds of all walks, each law the contract of a function that does nothing.

ghost use Rattle.std.specs.Prelude.{◌≡◌, ◌↔◌, List};
ghost use Rattle.store_core.specs.declared.ids.CellId.{CellId};
ghost use Rattle.store_core.specs.declared.kind.Route.{Route};
ghost use Rattle.store_core.specs.Tables.{TypeEntry, VarEntry};
ghost use Rattle.store_core.specs.Stores.{StoreMap, IsLive, IsFresh, NamesNoDead};
ghost use Rattle.routing_walks.specs.Walks.{Fields, DataAlone, Walk};
ghost use Rattle.routing_walks.specs.WellFormed.{IsBackbone, IsWellFormed};
ghost use Rattle.routing_walks.specs.Laws.{GoesByCases, AreInOneTree};

/// A walk goes by the eleven cases of its route.
pub fn walks_go_by_cases()
    ensures { (types : List TypeEntry) (s : StoreMap) (fields : Fields) → GoesByCases types s fields }
{}

/// A walk joins live cells.
pub fn walks_join_live_cells()
    ensures { (types : List TypeEntry) (s : StoreMap) (fields : Fields) (along : Route) (a b : CellId) →
        Walk types s fields along a b → IsLive s a × IsLive s b }
{}

/// Walks are the same in stores with the same cells, whatever the variables, the logic sets and the next numbers are.
pub fn walks_see_cells_alone()
    ensures { (types : List TypeEntry) (s t : StoreMap) (fields : Fields) (along : Route) (a b : CellId) →
        s.cells ≡ t.cells → Walk types s fields along a b ↔ Walk types t fields along a b }
{}

/// On a backbone both ends of a walk over data fields are in the tree of the same data variable, and of no other.
pub fn data_walks_stay_in_one_tree()
    ensures { (types : List TypeEntry) (vars : List VarEntry) (s : StoreMap) (along : Route) (a b : CellId) →
        IsBackbone types vars s → Walk types s DataAlone along a b → AreInOneTree types vars s a b }
{}

/// The values of a well-formed store name live cells alone, and so it is fresh.
pub fn well_formed_stores_are_fresh()
    ensures { (types : List TypeEntry) (vars : List VarEntry) (s : StoreMap) → IsWellFormed types vars s → NamesNoDead s × IsFresh s }
{}
