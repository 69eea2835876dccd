//! Every formula has a lightest model, or none.

ghost use Rattle.std.specs.Prelude.{◌⊎◌, ℕ, List};
ghost use Rattle.gta_theory.specs.Assignments.{Assignment};
ghost use Rattle.ws2s_core.specs.declared.formula.Formula.{Formula};
ghost use Rattle.ws2s_least.specs.Lightest.{HasNoModel, IsLightestFor};

/// No finite sets satisfy the formula, or some do that have the fewest positions on the tracks. (A product of the formula's automaton
/// with one that counts to a bound tells whether any has fewer.)
pub fn formulas_have_lightest_models()
    ensures { (f : Formula) (tracks : List ℕ) → HasNoModel f ⊎ ((depth : ℕ) × (a : Assignment) × IsLightestFor tracks f depth a) }
{}
