//! How many nodes automata have.

ghost use Rattle.std.specs.Prelude.{◌≡◌, ◌≢◌, ◌≤◌, ℕ, List, length, IsSome, All, AllPairs};
ghost use Rattle.std.specs.List.{sum_by};
ghost use Rattle.bdd_nodes.specs.declared.node_ref.NodeRef.{NodeRef};
ghost use Rattle.bdd_nodes.specs.Shelf.{Contents, IsShelf, roots_of};
ghost use Rattle.bdd_nodes.specs.Changes.{CountsHeld};
ghost use Rattle.gta_theory.specs.Guides.{Spaces};
ghost use Rattle.gta_theory.specs.Numbered.{Below};
ghost use Rattle.gta_theory.specs.Sizes.{SizeOf};
ghost use Rattle.gta_core.specs.Auto.{AutoView, states_of, automaton_of, IsAuto};
ghost use Rattle.gta_core.specs.Sizes.{IsNodeOf, CountsNodes, IsSized, IsTableOf};

/// The inner nodes under the roots of an automaton's table are no more than its Size, counted or listed each once. And
/// where automata have all the registered tables, the nodes under registered roots, which a collection keeps, are no more
/// than the sum of their Sizes.
pub fn nodes_fit_in_sizes()
    ensures count { (g : Spaces) (shelf : Contents) (a : AutoView) (count n : ℕ) → IsShelf shelf → IsAuto g shelf a →
        SizeOf g (automaton_of shelf a) (Below (states_of a)) n → CountsNodes shelf a.table count → count ≤ n }
    ensures listed { (g : Spaces) (shelf : Contents) (a : AutoView) (nodes : List NodeRef) (n : ℕ) → IsShelf shelf →
        IsAuto g shelf a → SizeOf g (automaton_of shelf a) (Below (states_of a)) n → AllPairs (λ x y. x ≢ y) nodes →
        All (IsNodeOf shelf a.table) nodes → length nodes ≤ n }
    ensures held { (g : Spaces) (shelf : Contents) (autos : List (AutoView × ℕ)) (count : ℕ) → IsShelf shelf →
        All (IsSized g shelf) autos → ((table : ℕ) → IsSome (roots_of shelf table) → IsTableOf autos table) →
        CountsHeld shelf count → count ≤ sum_by (λ auto. auto.1) autos }
{}
