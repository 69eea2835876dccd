//! What holds of stores that are read off trees.

ghost use Rattle.std.specs.Prelude.{ℕ, ◌≤◌, ◌↔◌, List};
ghost use Rattle.gta_theory.specs.Assignments.{Assignment, IsFinite};
ghost use Rattle.ws2s_core.specs.declared.label_tree.TreeNode.{TreeNode};
ghost use Rattle.ws2s_core.specs.LabelTrees.{assignment_of};
ghost use Rattle.ws2s_core.specs.Satisfaction.{WSat};
ghost use Rattle.store_core.specs.Tables.{TypeEntry, VarEntry};
ghost use Rattle.store_core.specs.Stores.{StoreMap};
ghost use Rattle.routing_walks.specs.WellFormed.{IsWellFormed};
ghost use Rattle.routing_walks.specs.Pairing.{ArePaired};
ghost use Rattle.tree_encode.specs.Tracks.{track_count};
ghost use Rattle.tree_store.specs.Encoding.{IsTreeOf};
ghost use Rattle.tree_formula.specs.WellEncoded.{well_encoded};
ghost use Rattle.tree_store.specs.Premises.{OwnersAreThere};
ghost use Rattle.tree_store.specs.Stores.{IsStoreOf};
ghost use Rattle.witness_store.specs.Pointers.{ArePointersSet};
ghost use Rattle.witness_store.specs.Alike.{AreSameBelow, AreFunctional, IsOfWellFormed, StandAlike};

/// The tree of a store that was read off an assignment has the positions of that assignment on the tracks of the layout.
pub fn trees_of_decoded_stores_are_the_same()
    ensures { (types : List TypeEntry) (vars : List VarEntry) (s : StoreMap) (a : Assignment) (nodes : List TreeNode) →
        IsStoreOf types vars a s → IsTreeOf types vars s nodes → AreSameBelow (track_count types vars) (assignment_of nodes) a }
{}

/// Where every pointer field is functional, a store that was read off an assignment and whose pointer fields are set is
/// well-formed.
pub fn decoded_stores_are_well_formed()
    ensures { (types : List TypeEntry) (vars : List VarEntry) (s : StoreMap) (a : Assignment) → AreFunctional types →
        IsStoreOf types vars a s → ArePointersSet types s → IsWellFormed types vars s }
{}

/// Where every pointer field is functional, finite sets satisfy the formula of trees exactly where they are the assignment of
/// a well-formed store. (Klarlund and Schwartzbach 1993.)
pub fn well_formed_stores_alone_satisfy_the_formula()
    ensures { (types : List TypeEntry) (vars : List VarEntry) (next : ℕ) (a : Assignment) → OwnersAreThere types →
        AreFunctional types → IsFinite a → track_count types vars ≤ next →
        WSat (well_encoded next types vars) a ↔ IsOfWellFormed types vars a }
{}

/// The store that is read off the tree of a well-formed store is that store, but for the numbers of the cells and the next
/// number: its cells are those that stand at the same positions, of the same variants and with the same values.
pub fn stores_come_back_from_their_trees()
    ensures { (types : List TypeEntry) (vars : List VarEntry) (s t : StoreMap) (nodes : List TreeNode) → IsWellFormed types vars s →
        IsTreeOf types vars s nodes → IsStoreOf types vars (assignment_of nodes) t → ArePointersSet types t →
        ArePaired (StandAlike types vars s t) s t }
{}
