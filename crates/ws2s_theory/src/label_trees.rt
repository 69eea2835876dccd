//! What labelled trees stand for, node by node, and the values of automata at their nodes.

ghost use Rattle.std.specs.Prelude.{◌≡◌, ℕ, ◌+◌, ◌<◌, ◌↔◌, IsTrue, true, false, List, [], ◌∷◌, ◌++◌, length, slice_get, Some};
ghost use Rattle.gta_theory.specs.Assignments.{Position, half, root_label};
ghost use Rattle.gta_theory.specs.Guides.{Spaces, IsGuide, IsSpace, left, right, space_at};
ghost use Rattle.gta_theory.specs.Automata.{Automaton, IsStable, Accepts};
ghost use Rattle.ws2s_core.specs.declared.track.Track.{Track};
ghost use Rattle.ws2s_core.specs.declared.label_tree.TreeNode.{TreeNode};
ghost use Rattle.ws2s_core.specs.LabelTrees.{assignment_of, IsTree};
ghost use Rattle.ws2s_theory.specs.Trees.{assignment_at, child_at, label_of, last_place, under_root, value_at, child_value, StandsAt};

/// A node stands for the label of its tracks over what its children stand for.
pub fn nodes_stand_for_parts()
    ensures label { (nodes : List TreeNode) (k : ℕ) (node : TreeNode) → slice_get nodes k ≡ Some node →
        root_label (assignment_at nodes k) ≡ label_of node.tracks }
    ensures left { (nodes : List TreeNode) (k : ℕ) (node : TreeNode) → IsTree nodes → slice_get nodes k ≡ Some node →
        half false (assignment_at nodes k) ≡ child_at nodes node.left }
    ensures right { (nodes : List TreeNode) (k : ℕ) (node : TreeNode) → IsTree nodes → slice_get nodes k ≡ Some node →
        half true (assignment_at nodes k) ≡ child_at nodes node.right }
    ensures root { (nodes : List TreeNode) → assignment_of nodes ≡ child_at nodes (last_place 0 (length nodes)) }
{}

/// Two trees under a root are a tree, which stands for the label of the root over what the two stand for.
pub fn trees_are_joined()
    ensures tree { (tracks : List Track) (l r : List TreeNode) → IsTree l → IsTree r →
        length l + length r + 1 < 4294967295 → IsTree (under_root tracks l r) }
    ensures label { (tracks : List Track) (l r : List TreeNode) →
        root_label (assignment_of (under_root tracks l r)) ≡ label_of tracks }
    ensures left { (tracks : List Track) (l r : List TreeNode) →
        half false (assignment_of (under_root tracks l r)) ≡ assignment_of l }
    ensures right { (tracks : List Track) (l r : List TreeNode) →
        half true (assignment_of (under_root tracks l r)) ≡ assignment_of r }
{}

/// The value of an automaton at a node is the step from the values at its children on the label of its tracks.
pub fn steps_give_values()
    ensures { (g : Spaces) (A : Automaton ℕ) (s : ℕ) (nodes : List TreeNode) (k : ℕ) (node : TreeNode) → IsGuide g →
        IsStable g A → IsSpace g s → IsTree nodes → slice_get nodes k ≡ Some node →
        value_at g A s nodes k ≡ A.step s (child_value g A (left g s) nodes node.left)
        (child_value g A (right g s) nodes node.right) (label_of node.tracks) }
{}

/// The automaton accepts what a tree stands for exactly where the value at the root, in space 0, is accepting.
pub fn values_decide_acceptance()
    ensures { (g : Spaces) (A : Automaton ℕ) (nodes : List TreeNode) → IsGuide g → IsStable g A →
        Accepts g A (assignment_of nodes)
        ↔ IsTrue (A.accepting (child_value g A 0 nodes (last_place 0 (length nodes)))) }
{}

/// A node that stands at a position stands for what the tree stands for below that position; and its space is got from
/// its parent's.
pub fn nodes_have_spaces()
    ensures below { (nodes : List TreeNode) (k t : ℕ) (p q : Position) → IsTree nodes → StandsAt nodes k p →
        assignment_of nodes t (p ++ q) ≡ assignment_at nodes k t q }
    ensures left { (g : Spaces) (s : ℕ) (p : Position) → space_at g s (p ++ false ∷ []) ≡ left g (space_at g s p) }
    ensures right { (g : Spaces) (s : ℕ) (p : Position) → space_at g s (p ++ true ∷ []) ≡ right g (space_at g s p) }
    ensures space { (g : Spaces) (s : ℕ) (p : Position) → IsGuide g → IsSpace g s → IsSpace g (space_at g s p) }
{}
