//! Automata that recognise formulas, form by form. States are numbers here.

ghost use Rattle.std.specs.Prelude.{◌≡◌, ℕ, Bool, ◌↔◌, IsTrue};
ghost use Rattle.gta_theory.specs.Assignments.{Assignment, IsFinite};
ghost use Rattle.gta_theory.specs.Guides.{Spaces, IsGuide};
ghost use Rattle.gta_theory.specs.Automata.{Automaton, Accepts, Has};
ghost use Rattle.gta_theory.specs.Constructions.{complement, IsReached, IsNaming, IsProduct, IsSubset};
ghost use Rattle.gta_theory.specs.Minimal.{AreAlike};
ghost use Rattle.ws2s_core.specs.declared.track.Track.{Track};
ghost use Rattle.ws2s_core.specs.declared.formula.Formula.{Formula};
ghost use Rattle.ws2s_core.specs.declared.formula.Formula.TheVariants.{And, Not, Ex2};
ghost use Rattle.ws2s_core.specs.Satisfaction.{WSat};
ghost use Rattle.ws2s_core.specs.Recognising.{Recognises, IsMinimalOf};

/// The complement recognises the negation.
pub fn complement_recognises_negation()
    ensures { (g : Spaces) (A : Automaton ℕ) (f : Formula) → IsGuide g → Recognises g A f →
        Recognises g (complement A) (Not f) }
{}

/// A product recognises the conjunction.
pub fn product_recognises_conjunction()
    ensures { (g : Spaces) (A B C : Automaton ℕ) (e f : Formula) (states : ℕ → ℕ → Bool) (pair : ℕ → ℕ → ℕ × ℕ) →
        IsGuide g → Recognises g A e → Recognises g B f → IsProduct g A B C (Has states) pair →
        Recognises g C (And e f) }
{}

/// The subset automaton recognises the quantified formula.
pub fn subset_recognises_quantifier()
    ensures { (g : Spaces) (A B : Automaton ℕ) (t : Track) (f : Formula) (states : ℕ → ℕ → Bool)
        (member : ℕ → ℕ → ℕ → Bool) →
        IsGuide g → Recognises g A f → IsSubset g A t.0 B (Has states) (λ s x q. IsTrue (member s x q)) →
        Recognises g B (Ex2 t f) }
{}

/// An automaton of classes of reached states recognises the same formula.
pub fn classes_recognise_the_same()
    ensures { (g : Spaces) (A M : Automaton ℕ) (f : Formula) (states : ℕ → ℕ → Bool) (class_of : ℕ → ℕ → ℕ) →
        IsGuide g → Recognises g A f → IsReached g A (Has states) → IsNaming g A (Has states) M class_of →
        Recognises g M f }
{}

/// Where an automaton that recognises a formula accepts nothing, exactly there no assignment of finite sets
/// satisfies the formula.
pub fn nothing_accepted_where_unsatisfiable()
    ensures { (g : Spaces) (A : Automaton ℕ) (f : Formula) → IsGuide g → Recognises g A f →
        ((a : Assignment) → ¬ Accepts g A a) ↔ ((a : Assignment) → IsFinite a → ¬ WSat f a) }
{}

/// Two minimal automata of one formula under one guide have states one to one in each space, and their steps and
/// their accepting states go along.
pub fn minimal_automata_of_a_formula_are_alike()
    ensures { (g : Spaces) (A B : Automaton ℕ) (f : Formula) (states_A states_B : ℕ → ℕ → Bool) → IsGuide g →
        IsMinimalOf g A (Has states_A) f → IsMinimalOf g B (Has states_B) f →
        AreAlike g A (Has states_A) B (Has states_B) }
{}
