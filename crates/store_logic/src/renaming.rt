//! A renaming of cells keeps satisfaction: a law, as the contract of a function that does nothing.

ghost use Rattle.std.specs.Prelude.{◌↔◌, List};
ghost use Rattle.store_core.specs.declared.ids.CellId.{CellId};
ghost use Rattle.store_core.specs.Tables.{TypeEntry, VarEntry};
ghost use Rattle.store_core.specs.Stores.{StoreMap};
ghost use Rattle.routing_walks.specs.Pairing.{IsPair, ArePaired};
ghost use Rattle.store_logic.specs.declared.assertion.Assertion.{Assertion};
ghost use Rattle.store_logic.specs.declared.pred.PredDef.{PredDef};
ghost use Rattle.store_logic.specs.declared.region.Region.{Region};
ghost use Rattle.store_logic.specs.Terms.{Environment};
ghost use Rattle.store_logic.specs.Satisfaction.{Sat};
ghost use Rattle.store_logic.specs.Renamed.{PairsStore, PairsEnvironment};

/// Where the cells that stand in two stores are paired one to one, the stores are the same but for that and for dead members of
/// sets, and two environments bind paired values, the stores satisfy the same assertions on the same regions. Stores whose dead
/// members are paired too are such stores.
pub fn renaming_cells_keeps_satisfaction()
    ensures kept { (types : List TypeEntry) (vars : List VarEntry) (preds : List PredDef) (pairs : List (CellId × CellId)) (s t : StoreMap) →
        PairsStore (IsPair pairs) s t → (e f : Environment) → PairsEnvironment (IsPair pairs) s t e f → (on : Region) (a : Assertion) →
        Sat types vars preds s on e a ↔ Sat types vars preds t on f a }
    ensures paired { (pairs : List (CellId × CellId)) (s t : StoreMap) → ArePaired (IsPair pairs) s t → PairsStore (IsPair pairs) s t }
{}
