//! The complement.

ghost use Rattle.std.specs.Prelude.{◌≡◌, ℕ, ◌↔◌};
ghost use Rattle.bdd_nodes.specs.Shelf.{Contents};
ghost use Rattle.gta_theory.specs.Assignments.{Assignment, Covers};
ghost use Rattle.gta_theory.specs.Guides.{Spaces};
ghost use Rattle.gta_theory.specs.Automata.{Accepts};
ghost use Rattle.gta_core.specs.Auto.{states_of, automaton_of, IsAuto};
ghost use Rattle.gta_product.specs.Complement.{IsComplement};

use gta_core::Auto;

/// The automaton that accepts exactly what the other one doesn't. It has the other one's table; no memory, no node.
pub fn complement(a: Auto) -> Auto
    ensures auto { (g : Spaces) (shelf : Contents) → IsAuto g shelf a → IsAuto g shelf result }
    ensures complement { (shelf : Contents) → IsComplement (automaton_of shelf a) (automaton_of shelf result) (states_of a 0) }
    ensures accepts { (g : Spaces) (shelf : Contents) → IsAuto g shelf a → (depth : ℕ) (assignment : Assignment) →
        Covers depth assignment → Accepts g (automaton_of shelf result) assignment ↔ (¬ Accepts g (automaton_of shelf a) assignment) }
    ensures states { (s : ℕ) → states_of result s ≡ states_of a s }
    ensures table { result.table ≡ a.table }
{
    a.turned_over()
}
