//! Tracks eliminated, and their values.

ghost use Rattle.std.specs.Prelude.{◌≡◌, ℕ, ◌↔◌, ◌⊎◌, List, [], ◌∷◌, ◌++◌, Contains};
ghost use Rattle.gta_theory.specs.Assignments.{Assignment, IsFinite, Covers};
ghost use Rattle.gta_theory.specs.Weights.{weight};
ghost use Rattle.ws2s_core.specs.declared.track.Track.{Track};
ghost use Rattle.ws2s_core.specs.declared.formula.Formula.{Formula};
ghost use Rattle.ws2s_core.specs.declared.formula.Formula.TheVariants.{Ex2};
ghost use Rattle.ws2s_core.specs.Satisfaction.{WSat};
ghost use Rattle.ws2s_core.specs.Tracks.{IsFree};
ghost use Rattle.ws2s_theory.specs.Contexts.{SatisfiesAll};
ghost use Rattle.ws2s_network.specs.Network.{Agree, DependOn, IsEliminated, AreEliminated, AreSame, tracks_of, HaveNoModel, HaveBound};

/// A track is eliminated by the conjunction of what has it: that is quantified, and constraints that haven't the track free stay.
pub fn tracks_are_eliminated_by_their_conjuncts()
    ensures { (t : Track) (bucket : Formula) (fs others rest : List Formula) →
        ((a : Assignment) → IsFinite a → SatisfiesAll fs a ↔ (WSat bucket a × SatisfiesAll others a)) →
        ((f : Formula) → Contains others f → ¬ IsFree t.0 f) →
        ((a : Assignment) → IsFinite a → SatisfiesAll rest a ↔ (WSat (Ex2 t bucket) a × SatisfiesAll others a)) →
        IsEliminated t.0 bucket fs rest }
{}

/// One more track is eliminated from what is left, and the last one that was eliminated was so from what the others left.
pub fn eliminations_follow_one_another()
    ensures one_more { (weighed : List ℕ) (gone : List (ℕ × Formula)) (t : ℕ) (bucket : Formula) (fs between rest : List Formula) →
        AreEliminated weighed gone fs between → (¬ Contains weighed t) → IsEliminated t bucket between rest →
        AreEliminated weighed (gone ++ (t, bucket) ∷ []) fs rest }
    ensures last { (weighed : List ℕ) (gone : List (ℕ × Formula)) (t : ℕ) (bucket : Formula) (fs rest : List Formula) →
        AreEliminated weighed (gone ++ (t, bucket) ∷ []) fs rest →
        (between : List Formula) × AreEliminated weighed gone fs between × (¬ Contains weighed t) × IsEliminated t bucket between rest }
    ensures same { (weighed : List ℕ) (gone : List (ℕ × Formula)) (fs between rest : List Formula) →
        AreEliminated weighed gone fs between → AreSame between rest → AreEliminated weighed gone fs rest }
{}

/// What is said of what is left is said of the constraints: that nothing satisfies them, and that nothing weighs less.
pub fn verdicts_are_those_of_what_is_left()
    ensures satisfies { (weighed : List ℕ) (gone : List (ℕ × Formula)) (fs rest : List Formula) (a : Assignment) →
        AreEliminated weighed gone fs rest → IsFinite a → SatisfiesAll fs a → SatisfiesAll rest a }
    ensures none { (weighed : List ℕ) (gone : List (ℕ × Formula)) (fs rest : List Formula) → AreEliminated weighed gone fs rest →
        HaveNoModel rest → HaveNoModel fs }
    ensures bound { (weighed : List ℕ) (gone : List (ℕ × Formula)) (fs rest : List Formula) (w : ℕ) → AreEliminated weighed gone fs rest →
        HaveBound weighed rest w → HaveBound weighed fs w }
{}

/// What is left depends on none of the tracks that were eliminated, and else on no other than the constraints do.
pub fn what_is_left_has_no_eliminated_track()
    ensures formula { (on : List ℕ) (f : Formula) → ((t : ℕ) → IsFree t f → Contains on t) → DependOn (Contains on) (f ∷ []) }
    ensures left { (weighed known on : List ℕ) (gone : List (ℕ × Formula)) (fs rest : List Formula) → AreEliminated weighed gone fs rest →
        ((t : ℕ) → Contains on t → Contains known t ⊎ Contains (tracks_of gone) t) → DependOn (Contains on) fs →
        DependOn (Contains known) rest }
{}

/// The last track's value: what satisfies what is left agrees, on all tracks that this depends on, with something that satisfies the
/// bucket; and whatever does so satisfies what there was before, and weighs as much if it agrees on the weighed tracks.
pub fn eliminated_tracks_have_values()
    ensures some { (t : ℕ) (bucket : Formula) (fs rest : List Formula) (a : Assignment) → IsEliminated t bucket fs rest → IsFinite a →
        SatisfiesAll rest a → (b : Assignment) × IsFinite b × Agree (λ u. ¬ (u ≡ t)) a b × WSat bucket b }
    ensures found { (known : List ℕ) (t : ℕ) (bucket : Formula) (fs rest : List Formula) (a b : Assignment) → IsEliminated t bucket fs rest →
        DependOn (Contains known) rest → IsFinite a → IsFinite b → Agree (Contains known) a b → SatisfiesAll rest a → WSat bucket b → SatisfiesAll fs b }
    ensures weighs { (weighed : List ℕ) (n m : ℕ) (a b : Assignment) → Covers n a → Covers m b → Agree (Contains weighed) a b →
        weight weighed m b ≡ weight weighed n a }
{}
