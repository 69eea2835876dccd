//! Worked examples: each atom on an assignment on which it holds and on one on which it doesn't, a quantifier, and
//! the size of a formula that no memory holds.

ghost use Rattle.std.specs.Prelude.{◌≡◌, ◌-◌, ◌^◌, min, List, [], ◌∷◌, true, false};
ghost use Rattle.gta_theory.specs.Assignments.{listed};
ghost use Rattle.ws2s_core.specs.declared.formula.Formula.TheVariants.{Sub, Single, Succ0, Succ1, Root};
ghost use Rattle.ws2s_core.specs.Satisfaction.{WSat};
ghost use Rattle.ws2s_core.specs.Sizes.{node_count};
ghost use Rattle.ws2s_core.specs.Examples.{track, has_root, doubled, none};

/// `Sub` says that the first set is within the second.
pub fn sub_is_inclusion()
    ensures holds { WSat (Sub (track 0) (track 1)) (listed ((0, []) ∷ (1, []) ∷ (1, false ∷ []) ∷ [])) }
    ensures fails { ¬ WSat (Sub (track 1) (track 0)) (listed ((0, []) ∷ (1, []) ∷ (1, false ∷ []) ∷ [])) }
{}

/// `Single` says that the set has one position.
pub fn single_is_one_position()
    ensures holds { WSat (Single (track 0)) (listed ((0, true ∷ []) ∷ [])) }
    ensures fails_with_none { ¬ WSat (Single (track 0)) none }
    ensures fails_with_two { ¬ WSat (Single (track 0)) (listed ((0, true ∷ []) ∷ (0, []) ∷ [])) }
{}

/// `Succ0` says that the second position is the child of the first that 0 leads to.
pub fn succ0_is_the_left_child()
    ensures holds { WSat (Succ0 (track 0) (track 1)) (listed ((0, true ∷ []) ∷ (1, true ∷ false ∷ []) ∷ [])) }
    ensures fails { ¬ WSat (Succ0 (track 0) (track 1)) (listed ((0, true ∷ []) ∷ (1, true ∷ true ∷ []) ∷ [])) }
{}

/// `Succ1` says that the second position is the child of the first that 1 leads to.
pub fn succ1_is_the_right_child()
    ensures holds { WSat (Succ1 (track 0) (track 1)) (listed ((0, false ∷ []) ∷ (1, false ∷ true ∷ []) ∷ [])) }
    ensures fails { ¬ WSat (Succ1 (track 0) (track 1)) (listed ((0, false ∷ []) ∷ (1, true ∷ false ∷ []) ∷ [])) }
{}

/// `Root` says that the set is the root alone.
pub fn root_is_the_empty_word()
    ensures holds { WSat (Root (track 0)) (listed ((0, []) ∷ [])) }
    ensures fails { ¬ WSat (Root (track 0)) (listed ((0, false ∷ []) ∷ [])) }
{}

/// Some set that is the root alone is within track 0 exactly where track 0 has the root.
pub fn quantifier_finds_a_set()
    ensures holds { WSat has_root (listed ((0, []) ∷ [])) }
    ensures fails { ¬ WSat has_root none }
{}

/// A formula that was doubled k times has 2 ^ (k + 1) - 1 nodes; doubled 64 times it has more than are counted.
pub fn doubled_formulas_saturate()
    ensures twelve { node_count (doubled 12) ≡ 8191 }
    ensures sixty_four { node_count (doubled 64) ≡ 2 ^ 65 - 1 }
    ensures saturated { min (node_count (doubled 64)) 18446744073709551615 ≡ 18446744073709551615 }
{}
