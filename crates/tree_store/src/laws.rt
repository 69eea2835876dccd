//! What holds of the trees of stores.

ghost use Rattle.std.specs.Prelude.{◌≡◌, ℕ, List, length};
ghost use Rattle.std.specs.FinMap.{keys};
ghost use Rattle.gta_theory.specs.Assignments.{Assignment, Covers};
ghost use Rattle.gta_theory.specs.Weights.{weight};
ghost use Rattle.store_core.specs.Tables.{TypeEntry, VarEntry};
ghost use Rattle.store_core.specs.Stores.{StoreMap, Fits};
ghost use Rattle.routing_walks.specs.WellFormed.{IsBackbone};
ghost use Rattle.tree_store.specs.Encoding.{IsAssignmentOf};
ghost use Rattle.tree_store.specs.Weighing.{AreVariantTracks};

/// The weight of a backbone's assignment on the tracks of the variants is the number of its live cells.
pub fn weights_count_cells()
    ensures { (types : List TypeEntry) (vars : List VarEntry) (s : StoreMap) (a : Assignment) (tracks : List ℕ) (n : ℕ) →
        Fits types vars s → IsBackbone types vars s → IsAssignmentOf types vars s a → AreVariantTracks types tracks → Covers n a →
        weight tracks n a ≡ length (keys s.cells) }
{}
