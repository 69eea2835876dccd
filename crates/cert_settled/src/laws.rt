//! Laws of settled states.

ghost use Rattle.std.specs.Prelude.{◌≡◌, ℕ, List};
ghost use Rattle.gta_theory.specs.Guides.{Spaces};
ghost use Rattle.gta_theory.specs.Automata.{Automaton};
ghost use Rattle.cert_text.specs.declared.line.StartLine.{StartLine};
ghost use Rattle.cert_text.specs.declared.line.SettleLine.{SettleLine};
ghost use Rattle.cert_theory.specs.Tables.{IsSettledList};
ghost use Rattle.cert_settled.specs.declared.lines.SettleFault.{SettleFault};
ghost use Rattle.cert_settled.specs.declared.lines.SettleFault.TheVariants.{NoMemory};
ghost use Rattle.cert_settled.specs.Settled.{told_states, AreSettling, IsFirstFault};

/// Lines that are right tell a list of settled states.
pub fn right_lines_tell_settled_lists()
    ensures { (g : Spaces) (A : Automaton ℕ) (t : ℕ) (starts : List StartLine) (settles : List SettleLine) →
        AreSettling g A t starts settles → IsSettledList g A t (told_states starts settles) }
{}

/// Lines have one first fault at most, and right lines have none: want of memory alone may come with any.
pub fn lines_have_one_first_fault()
    ensures one { (g : Spaces) (A : Automaton ℕ) (t : ℕ) (starts : List StartLine) (settles : List SettleLine) (e f : SettleFault) →
        (e ≡ NoMemory → ⊥) → (f ≡ NoMemory → ⊥) → IsFirstFault g A t starts settles e → IsFirstFault g A t starts settles f → e ≡ f }
    ensures none { (g : Spaces) (A : Automaton ℕ) (t : ℕ) (starts : List StartLine) (settles : List SettleLine) (f : SettleFault) →
        AreSettling g A t starts settles → IsFirstFault g A t starts settles f → f ≡ NoMemory }
{}
