//! Parts of a store under other variables, and stores put together.

ghost use Rattle.std.specs.Prelude.{List};
ghost use Rattle.store_core.specs.declared.ids.CellId.{CellId};
ghost use Rattle.store_core.specs.Tables.{TypeEntry, VarEntry};
ghost use Rattle.store_core.specs.Stores.{StoreMap};
ghost use Rattle.routing_walks.specs.Walks.{DataAlone};
ghost use Rattle.routing_walks.specs.WellFormed.{IsBackbone, IsWellFormed};
ghost use Rattle.routing_walks.specs.CutFaults.{IsSound};
ghost use Rattle.routing_walks.specs.Regions.{IsOn, IsClosedUnderFields, IsApart};
ghost use Rattle.routing_walks.specs.Hanging.{NamesRoots, AreHeld, IsTogether};

/// A store with the cells of a set of a backbone is a backbone over any variables that name its roots, where the set is closed
/// under data fields. Its pointer fields are right, and it is well-formed, where the store was so, and where no data field
/// leads into the set either.
pub fn parts_hang_under_other_variables()
    ensures backbone { (types : List TypeEntry) (vars others : List VarEntry) (s t : StoreMap) (cells : List CellId) →
        IsOn cells s t → IsClosedUnderFields types s cells → NamesRoots types others t → IsBackbone types vars s → IsBackbone types others t }
    ensures sound { (types : List TypeEntry) (vars others : List VarEntry) (s t : StoreMap) (cells : List CellId) →
        IsOn cells s t → IsApart types s DataAlone cells → NamesRoots types others t → IsSound types vars s → IsSound types others t }
    ensures well_formed { (types : List TypeEntry) (vars others : List VarEntry) (s t : StoreMap) (cells : List CellId) →
        IsOn cells s t → IsApart types s DataAlone cells → NamesRoots types others t → AreHeld others t → IsWellFormed types vars s →
        IsWellFormed types others t }
{}

/// Two backbones without a common cell are together a backbone over any variables that name its roots; its pointer fields are
/// right where those of both are.
pub fn stores_are_put_together()
    ensures backbone { (types : List TypeEntry) (vars others all : List VarEntry) (s t u : StoreMap) →
        IsTogether s t u → NamesRoots types all u → IsBackbone types vars s → IsBackbone types others t → IsBackbone types all u }
    ensures sound { (types : List TypeEntry) (vars others all : List VarEntry) (s t u : StoreMap) →
        IsTogether s t u → NamesRoots types all u → IsSound types vars s → IsSound types others t → IsSound types all u }
{}
