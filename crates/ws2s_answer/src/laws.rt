//! What callers may rest on.

ghost use Rattle.std.specs.Prelude.{◌≢◌, ℕ};
ghost use Rattle.ws2s_syntax.specs.Checked.{Text};
ghost use Rattle.ws2s_answer.specs.declared.answer.Answer.{Answer};
ghost use Rattle.ws2s_answer.specs.declared.answer.Answer.TheVariants as answered;
ghost use Rattle.ws2s_answer.specs.Answering.{IsAnswer};
ghost use Rattle.ws2s_answer.specs.Within.{IsPeakWithin};

use ws2s_theory::peaks_exist;

/// Where the Peak of a text isn't above the limit, `Limit` isn't true of it, so the answer is another one.
pub fn limits_are_no_answers_within_the_peak()
    ensures { (limit : ℕ) (text : Text) (answer : Answer) → IsPeakWithin limit text → IsAnswer limit text answer → answer ≢ answered.Limit }
{
    peaks_exist();
}
