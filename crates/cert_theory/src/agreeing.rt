//! Laws of automata that agree.

ghost use Rattle.std.specs.Prelude.{ℕ, List};
ghost use Rattle.gta_theory.specs.Guides.{Spaces};
ghost use Rattle.gta_theory.specs.Automata.{Automaton};
ghost use Rattle.gta_theory.specs.Constructions.{Settled};
ghost use Rattle.cert_theory.specs.Tables.{NamedPair, NamedSet, IsPairTable, IsSetTable};
ghost use Rattle.cert_theory.specs.Agreeing.{AgreeIn};

/// A table of pairs that leads from two automata to a third does so for automata that agree with them in the spaces of the
/// guide.
pub fn pairs_lead_alike_for_automata_that_agree()
    ensures { (g : Spaces) (A B C P Q R : Automaton ℕ) (table : List NamedPair) → AgreeIn g A P → AgreeIn g B Q →
        AgreeIn g C R → IsPairTable g A B table C → IsPairTable g P Q table R }
{}

/// And so does a table of sets, from the least sets that the dropped track starts with in each of the two.
pub fn sets_lead_alike_for_automata_that_agree()
    ensures { (g : Spaces) (A C P R : Automaton ℕ) (t : ℕ) (table : List NamedSet) → AgreeIn g A P → AgreeIn g C R →
        IsSetTable g A t (Settled g A t) table C → IsSetTable g P t (Settled g P t) table R }
{}
