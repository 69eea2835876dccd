//! The formulas of small layouts, written out by hand.

ghost use Rattle.std.specs.Prelude.{◌≡◌};
ghost use Rattle.tree_formula.specs.WellEncoded.{well_encoded};
ghost use Rattle.tree_formula.specs.Worked.{list_types, list_vars, list_formula, split_types, split_vars, split_formula};

/// The formula of a list with one variable, and of a type with two variants and a bool field beside a bool variable.
pub fn small_layouts_have_their_formulas()
    ensures list { well_encoded 2 list_types list_vars ≡ list_formula }
    ensures split { well_encoded 4 split_types split_vars ≡ split_formula }
{}
