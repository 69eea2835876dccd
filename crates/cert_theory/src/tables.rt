//! Laws of tables of pairs and of sets.

ghost use Rattle.std.specs.Prelude.{ℕ, Bool, ◌↔◌, List};
ghost use Rattle.gta_theory.specs.Assignments.{Assignment};
ghost use Rattle.gta_theory.specs.Guides.{Spaces, IsGuide};
ghost use Rattle.gta_theory.specs.Automata.{Automaton, Accepts, Has};
ghost use Rattle.gta_theory.specs.Constructions.{complement, Settled};
ghost use Rattle.ws2s_core.specs.declared.track.Track.{Track};
ghost use Rattle.ws2s_core.specs.declared.formula.Formula.{Formula};
ghost use Rattle.ws2s_core.specs.declared.formula.Formula.TheVariants.{And, Not, Ex2};
ghost use Rattle.ws2s_core.specs.Recognising.{Recognises};
ghost use Rattle.ws2s_core.specs.Satisfaction.{WSat};
ghost use Rattle.cert_theory.specs.Tables.{NamedPair, NamedSet, PlacedState, IsPairTable, IsSetTable, Lists, IsSettledList, HoldsAndCloses};

/// An automaton that a table of pairs leads to recognises the conjunction.
pub fn pairs_lead_to_conjunctions()
    ensures { (g : Spaces) (A B C : Automaton ℕ) (f h : Formula) (table : List NamedPair) → IsGuide g →
        Recognises g A f → Recognises g B h → IsPairTable g A B table C → Recognises g C (And f h) }
{}

/// An automaton that a table of sets leads to, from the least sets that the dropped track starts with, recognises the
/// quantified formula.
pub fn sets_lead_to_quantified_formulas()
    ensures { (g : Spaces) (A C : Automaton ℕ) (t : Track) (f : Formula) (table : List NamedSet) → IsGuide g →
        Recognises g A f → IsSetTable g A t.0 (Settled g A t.0) table C → Recognises g C (Ex2 t f) }
{}

/// A list in which each state is initial or comes by a step of earlier ones, and that no step leads out of, has exactly
/// the least sets.
pub fn settled_lists_have_the_settled_states()
    ensures { (g : Spaces) (A : Automaton ℕ) (t : ℕ) (list : List PlacedState) → IsSettledList g A t list →
        (s q : ℕ) → Lists list s q ↔ Settled g A t s q }
{}

/// Sets that merely hold the initial states and that no step leads out of won't do: with such sets there are a guide, an
/// automaton of a formula and a table that leads to an automaton whose complement accepts nothing, although every
/// assignment satisfies the negation of the quantified formula.
pub fn closed_starts_are_not_enough()
    ensures { (g : Spaces) × (A C : Automaton ℕ) × (t : Track) × (f : Formula) × (start : ℕ → ℕ → Bool)
        × (table : List NamedSet) × IsGuide g × Recognises g A f × HoldsAndCloses g A t.0 (Has start)
        × IsSetTable g A t.0 (Has start) table C × ((a : Assignment) → ¬ Accepts g (complement C) a)
        × ((a : Assignment) → WSat (Not (Ex2 t f)) a) }
{}
