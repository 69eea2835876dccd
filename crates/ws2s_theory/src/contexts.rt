//! Formulas in a context: what holds around a formula may be used inside it.

ghost use Rattle.std.specs.Prelude.{◌≡◌, ◌⊎◌, ℕ, ◌↔◌, List, [], ◌∷◌, All, Contains};
ghost use Rattle.gta_theory.specs.Assignments.{Assignment, PositionSet, IsFinite, IsFiniteSet, replace};
ghost use Rattle.ws2s_core.specs.declared.track.Track.{Track};
ghost use Rattle.ws2s_core.specs.declared.formula.Formula.{Formula};
ghost use Rattle.ws2s_core.specs.declared.formula.Formula.TheVariants.{And, Not, Ex2};
ghost use Rattle.ws2s_core.specs.Satisfaction.{WSat, Same};
ghost use Rattle.ws2s_core.specs.Tracks.{IsFree};
ghost use Rattle.ws2s_theory.specs.Contexts.{SatisfiesAll, SameUnder, IsRelevant, Entails, Rewrites, IsLightestOf};

/// A formula and its rewriting in a context agree wherever the context is satisfied; in the empty context they are the
/// same.
pub fn rewritings_are_the_same()
    ensures under { (context : List Formula) (f h : Formula) → Rewrites context f h → SameUnder context f h }
    ensures same { (f h : Formula) → Rewrites [] f h → Same f h }
{}

/// What a context entails holds wherever the context is satisfied. A conjunct whose free tracks are all free in a
/// quantified formula hasn't the bound track free, and still holds where that track has another set.
pub fn relevant_conjuncts_hold_inside()
    ensures entailed { (context : List Formula) (c : Formula) (a : Assignment) → IsFinite a → SatisfiesAll context a →
        Entails context c → WSat c a }
    ensures unbound { (c f : Formula) (t : Track) → IsRelevant c (Ex2 t f) → ¬ IsFree t.0 c }
    ensures inside { (c : Formula) (t : Track) (a : Assignment) (set : PositionSet) → (¬ IsFree t.0 c) →
        WSat c a ↔ WSat c (replace a t.0 set) }
{}

/// To be the same is an equivalence that goes along with each form.
pub fn same_formulas_are_a_congruence()
    ensures reflexive { (f : Formula) → Same f f }
    ensures symmetric { (f g : Formula) → Same f g → Same g f }
    ensures transitive { (f g h : Formula) → Same f g → Same g h → Same f h }
    ensures conjunction { (f g f' g' : Formula) → Same f f' → Same g g' → Same (And f g) (And f' g') }
    ensures negation { (f f' : Formula) → Same f f' → Same (Not f) (Not f') }
    ensures quantifier { (t : Track) (f f' : Formula) → Same f f' → Same (Ex2 t f) (Ex2 t f') }
{}

/// To be the same under a context is an equivalence too, and goes along with each form: the right half of a conjunction
/// may use the left one, and what stands under a quantifier those conjuncts alone that haven't its track free.
pub fn same_formulas_under_a_context_are_a_congruence()
    ensures reflexive { (context : List Formula) (f : Formula) → SameUnder context f f }
    ensures symmetric { (context : List Formula) (f g : Formula) → SameUnder context f g → SameUnder context g f }
    ensures transitive { (context : List Formula) (f g h : Formula) → SameUnder context f g → SameUnder context g h →
        SameUnder context f h }
    ensures same { (context : List Formula) (f g : Formula) → Same f g → SameUnder context f g }
    ensures empty { (f g : Formula) → SameUnder [] f g → Same f g }
    ensures entailed { (context inner : List Formula) (f g : Formula) → All (Entails context) inner →
        SameUnder inner f g → SameUnder context f g }
    ensures conjunction { (context : List Formula) (f g f' g' : Formula) → SameUnder context f f' →
        SameUnder (f ∷ context) g g' → SameUnder context (And f g) (And f' g') }
    ensures negation { (context : List Formula) (f f' : Formula) → SameUnder context f f' →
        SameUnder context (Not f) (Not f') }
    ensures quantifier { (context : List Formula) (t : Track) (f f' : Formula) → All (λ c. ¬ IsFree t.0 c) context →
        SameUnder context f f' → SameUnder context (Ex2 t f) (Ex2 t f') }
{}

/// Where a formula is satisfied by finite sets, it is satisfied with any track quantified.
pub fn satisfied_formulas_are_quantified()
    ensures { (t : Track) (f : Formula) (a : Assignment) → IsFinite a → WSat f a → WSat (Ex2 t f) a }
{}

/// An outermost quantifier keeps satisfiability.
pub fn quantifiers_keep_satisfiability()
    ensures { (t : Track) (f : Formula) →
        ((a : Assignment) × IsFinite a × WSat (Ex2 t f) a) ↔ ((a : Assignment) × IsFinite a × WSat f a) }
{}

/// An outermost quantifier keeps the least weight where its track isn't weighed.
pub fn quantifiers_keep_least_weights()
    ensures { (tracks : List ℕ) (t : Track) (f : Formula) (w : ℕ) → (¬ Contains tracks t.0) →
        IsLightestOf tracks (Ex2 t f) w ↔ IsLightestOf tracks f w }
{}

/// A quantifier may stand outside a conjunction whose other half hasn't its track free.
pub fn quantifiers_leave_conjunctions()
    ensures right { (t : Track) (f g : Formula) → (¬ IsFree t.0 f) → Same (And f (Ex2 t g)) (Ex2 t (And f g)) }
    ensures left { (t : Track) (f g : Formula) → (¬ IsFree t.0 g) → Same (And (Ex2 t f) g) (Ex2 t (And f g)) }
{}

/// An assignment of finite sets satisfies a formula or doesn't, and it does where it can't be that it doesn't: the formula's
/// automaton tells.
pub fn satisfaction_is_decided()
    ensures decided { (f : Formula) (a : Assignment) → IsFinite a → WSat f a ⊎ (¬ WSat f a) }
    ensures not_not { (f : Formula) (a : Assignment) → IsFinite a → (¬ (¬ WSat f a)) → WSat f a }
{}
