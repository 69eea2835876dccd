//! Worked reductions.

ghost use Rattle.std.specs.Prelude.{◌≡◌};
ghost use Rattle.ws2s_core.specs.declared.formula.Formula.TheVariants.{Sub, Single, Succ0, Succ1, Root, And, Not, Ex2};
ghost use Rattle.ws2s_core.specs.Sizes.{node_count};
ghost use Rattle.ws2s_forms.specs.Forms.{track};
ghost use Rattle.ws2s_reduce.specs.Reducing.{holds_of, breaks_of};
ghost use Rattle.ws2s_reduce.specs.Examples.{root_in_set, left_child, full_set, children_differ, root_in_four_sets, predicate_used};

/// `root in X` says that some set, which is the root alone, is within X.
pub fn root_in_a_set_is_reduced()
    ensures holds { holds_of root_in_set ≡ Ex2 (track 1) (And (Root (track 1)) (Sub (track 1) (track 0))) }
    ensures breaks { breaks_of root_in_set ≡ Not (Ex2 (track 1) (And (Root (track 1)) (Sub (track 1) (track 0)))) }
{}

/// `p = root.0` is under `Single p`, in `breaks` too, and has a quantifier for the position and one for its parent.
pub fn position_is_one_in_both()
    ensures holds { holds_of left_child ≡ And (Single (track 0)) (Ex2 (track 1) (And
        (And (Single (track 1)) (Sub (track 1) (track 0)))
        (Ex2 (track 2) (And (Root (track 2)) (Succ0 (track 2) (track 1)))))) }
    ensures breaks { breaks_of left_child ≡ And (Single (track 0)) (Not (Ex2 (track 1) (And
        (And (Single (track 1)) (Sub (track 1) (track 0)))
        (Ex2 (track 2) (And (Root (track 2)) (Succ0 (track 2) (track 1))))))) }
    ensures size { node_count (holds_of left_child) ≡ 11 }
{}

/// A quantifier over sets, one over positions, and a name as a term.
pub fn quantifiers_are_reduced()
    ensures { holds_of full_set ≡ Ex2 (track 0) (Not (Ex2 (track 1) (And (Single (track 1)) (Not
        (Ex2 (track 2) (And (And (Single (track 2)) (Sub (track 2) (track 1))) (Sub (track 2) (track 0)))))))) }
{}

/// Both sides of `p.0 ~= p.1` bind their parents' tracks next to each other.
pub fn successors_are_reduced()
    ensures { holds_of children_differ ≡ Not (Ex2 (track 0) (And (Single (track 0)) (Not (Not (Ex2 (track 1) (And
        (Ex2 (track 2) (And (And (Single (track 2)) (Sub (track 2) (track 0))) (Succ0 (track 2) (track 1))))
        (Ex2 (track 2) (And (And (Single (track 2)) (Sub (track 2) (track 0))) (Succ1 (track 2) (track 1)))))))))) }
{}

/// The formulas of a text are joined from the left.
pub fn formulas_are_joined()
    ensures { holds_of root_in_four_sets ≡ And (And (And
        (Ex2 (track 4) (And (Root (track 4)) (Sub (track 4) (track 0))))
        (Ex2 (track 4) (And (Root (track 4)) (Sub (track 4) (track 1)))))
        (Ex2 (track 4) (And (Root (track 4)) (Sub (track 4) (track 2)))))
        (Ex2 (track 4) (And (Root (track 4)) (Sub (track 4) (track 3)))) }
{}

/// An argument that isn't a name is bound around the predicate's body, and a name is put in.
pub fn arguments_are_reduced()
    ensures { holds_of predicate_used ≡ Ex2 (track 1) (And (Root (track 1)) (Ex2 (track 2) (And
        (And (Single (track 2)) (Sub (track 2) (track 1))) (Sub (track 2) (track 0))))) }
{}
