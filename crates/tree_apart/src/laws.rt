//! What the formula says of trees.

ghost use Rattle.std.specs.Prelude.{◌≡◌, ℕ, ◌≤◌, List};
ghost use Rattle.gta_theory.specs.Assignments.{Assignment, IsFinite};
ghost use Rattle.ws2s_core.specs.Satisfaction.{WSat};
ghost use Rattle.ws2s_forms.specs.Forms.{true_at};
ghost use Rattle.store_core.specs.Tables.{TypeEntry, VarEntry};
ghost use Rattle.tree_encode.specs.Tracks.{track_count};
ghost use Rattle.tree_formula.specs.WellEncoded.{well_encoded};
ghost use Rattle.tree_formula.specs.Worked.{list_types, split_types, split_apart};
ghost use Rattle.tree_store.specs.Premises.{OwnersAreThere};
ghost use Rattle.tree_apart.specs.Apart.{cells_apart};
ghost use Rattle.tree_apart.specs.Worked.{two_types, two_apart};

/// Finite sets that satisfy the formula of trees keep the cells of each two variants apart, whatever tracks the quantifiers of the
/// two formulas bind behind those of the layout.
pub fn trees_keep_their_cells_apart()
    ensures { (types : List TypeEntry) (vars : List VarEntry) (next bound : ℕ) (a : Assignment) → OwnersAreThere types →
        track_count types vars ≤ next → track_count types vars ≤ bound → IsFinite a → WSat (well_encoded next types vars) a →
        WSat (cells_apart bound types) a }
{}

/// The formulas of three small tables: of one variant, of two variants of a type, and of two types.
pub fn small_tables_have_their_formulas()
    ensures one { cells_apart 2 list_types ≡ true_at 2 }
    ensures variants { cells_apart 4 split_types ≡ split_apart }
    ensures types { cells_apart 2 two_types ≡ two_apart }
{}
