//! What an assignment that lays out a backbone stands for.

ghost use Rattle.std.specs.Prelude.{ℕ, ◌≤◌, ◌↔◌, List};
ghost use Rattle.gta_theory.specs.Assignments.{Assignment, IsFinite};
ghost use Rattle.ws2s_core.specs.Satisfaction.{WSat};
ghost use Rattle.store_core.specs.Tables.{TypeEntry, VarEntry};
ghost use Rattle.store_core.specs.Stores.{StoreMap};
ghost use Rattle.tree_encode.specs.Tracks.{track_count};
ghost use Rattle.tree_formula.specs.WellEncoded.{well_encoded};
ghost use Rattle.tree_store.specs.Premises.{OwnersAreThere};
ghost use Rattle.tree_store.specs.Shapes.{LaysOut};
ghost use Rattle.tree_store.specs.Decoded.{Standing, AreCells, decoded};
ghost use Rattle.tree_store.specs.Stores.{IsStoreOf, IsOfBackbone};

/// The store that is read off the tracks of an assignment which lays out a backbone, its cells in preorder, fits its tables, is
/// fresh and a backbone with live logic sets, has this assignment, and is numbered in preorder. So each finite assignment that
/// lays out a backbone is that of some store.
pub fn laid_out_trees_are_trees_of_backbones()
    ensures some { (types : List TypeEntry) (vars : List VarEntry) (a : Assignment) →
        LaysOut types vars a → IsFinite a → (s : StoreMap) × IsStoreOf types vars a s }
    ensures decoded { (types : List TypeEntry) (vars : List VarEntry) (a : Assignment) (cells : List Standing) →
        LaysOut types vars a → AreCells types a cells → IsStoreOf types vars a (decoded types vars a cells) }
{}

/// Finite sets satisfy the formula of trees exactly where they are the assignment of a backbone that fits its tables and whose
/// logic sets hold live cells of their types. (Klarlund and Schwartzbach 1993.)
pub fn backbones_alone_satisfy_the_formula()
    ensures { (types : List TypeEntry) (vars : List VarEntry) (next : ℕ) (a : Assignment) → OwnersAreThere types →
        IsFinite a → track_count types vars ≤ next → WSat (well_encoded next types vars) a ↔ IsOfBackbone types vars a }
{}
