//! What the formula by field says of trees.

ghost use Rattle.std.specs.Prelude.{◌≡◌, ℕ, ◌≤◌, List};
ghost use Rattle.gta_theory.specs.Assignments.{Assignment, IsFinite};
ghost use Rattle.ws2s_core.specs.Satisfaction.{WSat};
ghost use Rattle.store_core.specs.declared.ids.TypeId.{TypeId};
ghost use Rattle.store_core.specs.Tables.{TypeEntry, VarEntry};
ghost use Rattle.tree_encode.specs.Tracks.{track_count};
ghost use Rattle.tree_formula.specs.WellEncoded.{are_reached, type_id};
ghost use Rattle.tree_formula.specs.Worked.{list_types, list_vars};
ghost use Rattle.tree_store.specs.Premises.{OwnersAreThere};
ghost use Rattle.tree_store.specs.Shapes.{LaysOut};
ghost use Rattle.tree_reached.specs.ByField.{ways, are_at_ends, reached_by_field};
ghost use Rattle.tree_reached.specs.Worked.{list_by_field, pair_types, pair_by_field};

/// Finite sets that satisfy the formula by field satisfy that each live cell of the type is at one of its places, whatever tracks the
/// quantifiers of the two formulas bind behind those of the layout; and those that lay out a backbone satisfy it.
pub fn places_are_told_by_field()
    ensures within { (types : List TypeEntry) (vars : List VarEntry) (next bound : ℕ) (a : Assignment) (ty : TypeId) → OwnersAreThere types →
        track_count types vars ≤ next → track_count types vars ≤ bound → IsFinite a →
        WSat (reached_by_field next types vars ty) a → WSat (are_reached bound types vars ty) a }
    ensures laid { (types : List TypeEntry) (vars : List VarEntry) (next : ℕ) (a : Assignment) (ty : TypeId) → OwnersAreThere types →
        track_count types vars ≤ next → IsFinite a → LaysOut types vars a → WSat (reached_by_field next types vars ty) a }
{}

/// The formula of trees that each live cell of a type is at one of its places is that it is at the end of one of the ways.
pub fn places_are_at_the_ends_of_ways()
    ensures { (types : List TypeEntry) (vars : List VarEntry) (next : ℕ) (ty : TypeId) →
        are_reached next types vars ty ≡ are_at_ends next types ty (ways types vars ty) }
{}

/// The formulas of a list with one variable, and of a type with two data fields.
pub fn small_tables_are_told_by_field()
    ensures list { reached_by_field 2 list_types list_vars (type_id 0) ≡ list_by_field }
    ensures pair { reached_by_field 2 pair_types list_vars (type_id 0) ≡ pair_by_field }
{}
