//! Stores on sets of cells.

ghost use Rattle.std.specs.Prelude.{◌≡◌, ◌↔◌, List, Contains};
ghost use Rattle.store_core.specs.declared.ids.VarId.{VarId};
ghost use Rattle.store_core.specs.declared.ids.CellId.{CellId};
ghost use Rattle.store_core.specs.declared.kind.Route.{Route};
ghost use Rattle.store_core.specs.Tables.{TypeEntry, VarEntry};
ghost use Rattle.store_core.specs.Stores.{StoreMap, cell_of};
ghost use Rattle.routing_walks.specs.Walks.{Fields, DataAlone, DataAndPointers, Walk};
ghost use Rattle.routing_walks.specs.WellFormed.{IsBackbone};
ghost use Rattle.routing_walks.specs.Regions.{store_on, IsOn, IsPart, IsRest, IsClosedUnderFields, IsApart};
ghost use Rattle.routing_walks.specs.CutFaults.{IsSound};
ghost use Rattle.routing_walks.specs.Pieces.{IsLikeOn};

/// The store on a set of cells has the cells of the set and no others.
pub fn stores_on_sets_have_their_cells()
    ensures { (s : StoreMap) (cells : List CellId) → IsOn cells s (store_on s cells) }
{}

/// Walks and destinations of the cells of a set that no followed field leads into or out of are those of a store with these
/// cells alone.
pub fn regions_keep_walks()
    ensures { (types : List TypeEntry) (fields : Fields) (cells : List CellId) (s t : StoreMap) →
        IsOn cells s t → IsApart types s fields cells → IsLikeOn types fields cells s t }
{}

/// Walks from a cell of such a set are the same in all stores with the same cells in the set: what stands elsewhere doesn't
/// matter.
pub fn walks_see_their_set_alone()
    ensures { (types : List TypeEntry) (fields : Fields) (cells : List CellId) (s t : StoreMap) →
        ((c : CellId) → Contains cells c → cell_of t c ≡ cell_of s c) → IsApart types s fields cells → IsApart types t fields cells →
        (along : Route) (a b : CellId) → Contains cells a → Walk types s fields along a b ↔ Walk types t fields along a b }
{}

/// The part of listed data variables is closed under data fields. On a backbone no data field leads into it, and where pointer
/// fields are right no pointer field leads into it or out of it. What holds of a set so holds of its rest.
pub fn parts_are_apart()
    ensures closed { (types : List TypeEntry) (vars : List VarEntry) (s : StoreMap) (roots : List VarId) (cells : List CellId) →
        IsPart types vars s roots cells → IsClosedUnderFields types s cells }
    ensures fields { (types : List TypeEntry) (vars : List VarEntry) (s : StoreMap) (roots : List VarId) (cells : List CellId) →
        IsBackbone types vars s → IsPart types vars s roots cells → IsApart types s DataAlone cells }
    ensures pointers { (types : List TypeEntry) (vars : List VarEntry) (s : StoreMap) (cells : List CellId) →
        IsSound types vars s → IsApart types s DataAlone cells → IsApart types s DataAndPointers cells }
    ensures rest { (types : List TypeEntry) (fields : Fields) (s : StoreMap) (cells rest : List CellId) →
        IsRest s cells rest → IsApart types s fields cells → IsApart types s fields rest }
{}
