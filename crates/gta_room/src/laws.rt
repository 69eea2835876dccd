//! Laws of room.

ghost use Rattle.std.specs.Prelude.{ℕ, ◌+◌, ◌<◌, ◌≤◌, Bool};
ghost use Rattle.bdd_nodes.specs.Shelf.{Contents, count_of, limit_of};
ghost use Rattle.gta_theory.specs.Guides.{Spaces};
ghost use Rattle.gta_theory.specs.Automata.{Automaton, Has};
ghost use Rattle.gta_theory.specs.Sizes.{SizeOf};
ghost use Rattle.gta_room.specs.Progress.{Adds, IsStuck, IsUnderSomewhere};

/// Nodes that are made for functions under an automaton's table alone are no more than its Size. Where there is no room
/// for one more of them, the count before and the Size are more than the limit.
pub fn made_nodes_fit_in_sizes()
    ensures room { (g : Spaces) (A : Automaton ℕ) (states : ℕ → ℕ → Bool) (n : ℕ) (old new : Contents) →
        SizeOf g A (Has states) n → Adds (IsUnderSomewhere g A (Has states)) old new → count_of new ≤ count_of old + n }
    ensures limit { (g : Spaces) (A : Automaton ℕ) (states : ℕ → ℕ → Bool) (n : ℕ) (old new : Contents) →
        SizeOf g A (Has states) n → Adds (IsUnderSomewhere g A (Has states)) old new →
        IsStuck (IsUnderSomewhere g A (Has states)) new → limit_of old < count_of old + n }
{}
