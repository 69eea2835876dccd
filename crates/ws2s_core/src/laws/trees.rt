//! What labelled trees stand for.

ghost use Rattle.std.specs.Prelude.{◌≡◌, ℕ, ◌+◌, List, [], ◌∷◌, false, length};
ghost use Rattle.gta_theory.specs.Assignments.{Position, Covers, listed, empty_assignment};
ghost use Rattle.ws2s_core.specs.declared.label_tree.TreeNode.{TreeNode};
ghost use Rattle.ws2s_core.specs.LabelTrees.{assignment_of, IsTree};
ghost use Rattle.ws2s_core.specs.Examples.{small_tree};

/// The number of nodes covers the assignment that they stand for.
pub fn trees_are_covered()
    ensures { (nodes : List TreeNode) → Covers (length nodes) (assignment_of nodes) }
{}

/// No nodes stand for the empty assignment, and a root with a left child on track 3 for the one position 0 there.
pub fn small_trees()
    ensures nothing { assignment_of [] ≡ empty_assignment }
    ensures tree { IsTree small_tree }
    ensures one { (t : ℕ) (p : Position) → assignment_of small_tree t p ≡ listed ((3, false ∷ []) ∷ []) t p }
{}
