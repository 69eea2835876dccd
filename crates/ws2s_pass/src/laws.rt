//! What no part of a rewritten formula is.

ghost use Rattle.std.specs.Prelude.{◌≡◌, ◌⊎◌, Bool, IsTrue};
ghost use Rattle.ws2s_core.specs.declared.track.Track.{Track};
ghost use Rattle.ws2s_core.specs.declared.formula.Formula.{Formula};
ghost use Rattle.ws2s_core.specs.declared.formula.Formula.TheVariants.{Not, Ex2};
ghost use Rattle.ws2s_core.specs.Parts.{IsPart};
ghost use Rattle.ws2s_core.specs.Tracks.{IsFree};
ghost use Rattle.ws2s_pass.specs.Constants.{is_constant, constant_formula, without_constants};
ghost use Rattle.ws2s_pass.specs.Flattening.{flattened};
ghost use Rattle.ws2s_pass.specs.Using.{without_unused};

/// Where `flatten_not` went no negation of a negation stands anywhere.
pub fn flattened_formulas_negate_no_negation()
    ensures { (f g : Formula) → ¬ IsPart (flattened f) (Not (Not g)) }
{}

/// Where `drop_unused` went every quantifier's track is free under it.
pub fn left_quantifiers_are_used()
    ensures { (f g : Formula) (t : Track) → IsPart (without_unused f) (Ex2 t g) → IsFree t.0 g }
{}

/// Where `fold_constants` went a constant is left only where it is the whole formula, or where the whole formula is one of
/// the two constants of two nodes.
pub fn left_constants_are_whole()
    ensures { (f g : Formula) → IsPart (without_constants f) g → IsTrue (is_constant g) →
        (without_constants f ≡ g) ⊎ ((truth : Bool) × (without_constants f ≡ constant_formula truth)) }
{}
