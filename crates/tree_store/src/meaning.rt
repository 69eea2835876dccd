//! What the formula says, and that the trees of backbones satisfy it.

ghost use Rattle.std.specs.Prelude.{◌≡◌, ◌≢◌, ℕ, ◌≤◌, ◌↔◌, List, Some};
ghost use Rattle.gta_theory.specs.Assignments.{Position, Assignment, IsFinite};
ghost use Rattle.ws2s_core.specs.declared.label_tree.TreeNode.{TreeNode};
ghost use Rattle.ws2s_core.specs.LabelTrees.{assignment_of};
ghost use Rattle.ws2s_core.specs.Satisfaction.{WSat};
ghost use Rattle.ws2s_forms.specs.Places.{child_of, slot_of};
ghost use Rattle.store_core.specs.declared.ids.VariantId.{VariantId};
ghost use Rattle.store_core.specs.declared.ids.FieldId.{FieldId};
ghost use Rattle.store_core.specs.declared.ids.VarId.{VarId};
ghost use Rattle.store_core.specs.Tables.{TypeEntry, VarEntry, IsTypeTable};
ghost use Rattle.store_core.specs.Stores.{StoreMap, Fits};
ghost use Rattle.routing_walks.specs.WellFormed.{IsBackbone};
ghost use Rattle.tree_encode.specs.Tracks.{track_count, slot_of_var, child_number};
ghost use Rattle.tree_formula.specs.WellEncoded.{well_encoded};
ghost use Rattle.tree_formula.specs.Worked.{list_types, list_vars, split_types, split_vars};
ghost use Rattle.tree_store.specs.Shapes.{IsCellOf, LaysOut};
ghost use Rattle.tree_store.specs.Encoding.{IsAssignmentOf, IsTreeOf};
ghost use Rattle.tree_store.specs.Premises.{OwnersAreThere, SetsHoldLive};
ghost use Rattle.tree_store.specs.Worked.{IsList, IsSplit};

/// Finite sets satisfy the formula exactly where they lay out a backbone. (Klarlund and Schwartzbach 1993: the
/// well-formed labelings of a tree.)
pub fn the_formula_lays_out_backbones()
    ensures { (types : List TypeEntry) (vars : List VarEntry) (next : ℕ) (a : Assignment) → OwnersAreThere types →
        IsFinite a → track_count types vars ≤ next → WSat (well_encoded next types vars) a ↔ LaysOut types vars a }
{}

/// The assignment of a backbone whose logic sets hold live cells of their types lays it out.
pub fn backbones_are_laid_out()
    ensures { (types : List TypeEntry) (vars : List VarEntry) (s : StoreMap) (a : Assignment) → Fits types vars s →
        IsBackbone types vars s → SetsHoldLive vars s → IsAssignmentOf types vars s a → LaysOut types vars a }
{}

/// The assignment of a backbone whose logic sets hold live cells of their types satisfies the formula, and so does
/// its tree.
pub fn trees_of_backbones_satisfy_the_formula()
    ensures assignment { (types : List TypeEntry) (vars : List VarEntry) (next : ℕ) (s : StoreMap) (a : Assignment) →
        OwnersAreThere types → Fits types vars s → IsBackbone types vars s → SetsHoldLive vars s →
        IsAssignmentOf types vars s a → IsFinite a → track_count types vars ≤ next →
        WSat (well_encoded next types vars) a }
    ensures tree { (types : List TypeEntry) (vars : List VarEntry) (next : ℕ) (s : StoreMap) (nodes : List TreeNode) →
        OwnersAreThere types → Fits types vars s → IsBackbone types vars s → SetsHoldLive vars s →
        IsTreeOf types vars s nodes → track_count types vars ≤ next →
        WSat (well_encoded next types vars) (assignment_of nodes) }
{}

/// Where a backbone is laid out, a position has a cell of one variant alone. No two slots are one position, no slot is
/// the child of a cell, and a child has one parent and one number.
pub fn cells_stand_where_they_are_marked()
    ensures one_variant { (types : List TypeEntry) (vars : List VarEntry) (a : Assignment) (v w : VariantId)
        (p : Position) → LaysOut types vars a → IsCellOf types a v p → IsCellOf types a w p → v ≡ w }
    ensures slots { (i j : ℕ) → slot_of i ≡ slot_of j → i ≡ j }
    ensures slot_or_child { (types : List TypeEntry) (vars : List VarEntry) (a : Assignment) (v : VariantId) (i j : ℕ)
        (p : Position) → LaysOut types vars a → IsCellOf types a v p → slot_of i ≢ child_of j p }
    ensures one_parent { (types : List TypeEntry) (vars : List VarEntry) (a : Assignment) (v w : VariantId) (j k : ℕ)
        (p q : Position) → LaysOut types vars a → IsCellOf types a v p → IsCellOf types a w q →
        child_of j p ≡ child_of k q → (j ≡ k) × (p ≡ q) }
{}

/// The data fields of a type have different numbers, and data variables different slots.
pub fn numbers_tell_fields_and_variables_apart()
    ensures fields { (types : List TypeEntry) (f g : FieldId) (j : ℕ) → f.ty ≡ g.ty → child_number types f ≡ Some j →
        child_number types g ≡ Some j → f ≡ g }
    ensures variables { (vars : List VarEntry) (v w : VarId) (i : ℕ) → slot_of_var vars v ≡ Some i →
        slot_of_var vars w ≡ Some i → v ≡ w }
{}

/// What it is to be laid out over the tables of two small layouts.
pub fn small_layouts_are_laid_out()
    ensures list { (a : Assignment) → LaysOut list_types list_vars a ↔ IsList a }
    ensures split { (a : Assignment) → LaysOut split_types split_vars a ↔ IsSplit a }
{}

/// Each type table has the variants of its fields.
pub fn tables_have_their_owners()
    ensures { (types : List TypeEntry) → IsTypeTable types → OwnersAreThere types }
{}
