//! What reductions mean.

ghost use Rattle.std.specs.Prelude.{◌≡◌, List};
ghost use Rattle.gta_theory.specs.Assignments.{Assignment};
ghost use Rattle.ws2s_syntax.specs.Checked.{Text, IsChecked};
ghost use Rattle.ws2s_syntax.specs.Meaning.{Value, Gives};
ghost use Rattle.ws2s_reduce.specs.Answer.{MeansText, MeansBroken};
ghost use Rattle.ws2s_reduce.specs.Reducing.{holds_of, breaks_of};

/// `holds` is satisfied exactly by the assignments that give each `var1` one position and satisfy the text, and
/// `breaks` exactly by those that give each `var1` one position and don't satisfy it. What an assignment gives is one
/// list of values.
pub fn reductions_mean_the_text()
    ensures holds { (text : Text) → IsChecked text → MeansText text (holds_of text) }
    ensures breaks { (text : Text) → IsChecked text → MeansBroken text (breaks_of text) }
    ensures once { (text : Text) (a : Assignment) (free other : List Value) →
        Gives a text free → Gives a text other → free ≡ other }
{}
