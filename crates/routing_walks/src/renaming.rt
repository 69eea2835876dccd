//! What a renaming of cells keeps.

ghost use Rattle.std.specs.Prelude.{◌≡◌, List};
ghost use Rattle.store_core.specs.declared.ids.CellId.{CellId};
ghost use Rattle.store_core.specs.Tables.{TypeEntry};
ghost use Rattle.store_core.specs.Stores.{StoreMap, IsAbove};
ghost use Rattle.routing_walks.specs.Pairing.{IsPair, ArePaired, JoinAlike, FailAlike, FormAlike};

/// Where the cells that stand in two stores are paired one to one and the stores are the same but for that, walks,
/// destinations and trees go along with the pairs, and so do dangling references and sets, shared, leaked and wrong cells;
/// the stores are both backbones, and both well-formed, or neither is, and they break the same condition of a cut first.
pub fn renaming_cells_renames_all()
    ensures join { (types : List TypeEntry) (pairs : List (CellId × CellId)) (s t : StoreMap) →
        ArePaired (IsPair pairs) s t → JoinAlike types (IsPair pairs) s t }
    ensures fail { (types : List TypeEntry) (pairs : List (CellId × CellId)) (s t : StoreMap) →
        ArePaired (IsPair pairs) s t → FailAlike types (IsPair pairs) s t }
    ensures form { (types : List TypeEntry) (pairs : List (CellId × CellId)) (s t : StoreMap) →
        ArePaired (IsPair pairs) s t → IsAbove s → IsAbove t → FormAlike types s t }
{}
