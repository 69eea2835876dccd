//! What a text gets that has no fault.

ghost use Rattle.std.specs.Prelude.{◌≡◌, ◌≤◌, ℕ, List, length};
ghost use Rattle.ws2s_syntax.specs.Checked.{Text};
ghost use Rattle.pale_status.specs.declared.status.Status.{Status};
ghost use Rattle.pale_status.specs.declared.status.Status.TheVariants.{Good};
ghost use Rattle.pale_modes.specs.Completing.{IsWithinPeak};
ghost use Rattle.pale_modes.specs.Deciding.{Decides, Says};
ghost use Rattle.pale_status.specs.Texts.{most_bytes};

use pale_text::{stray_byte_is_one, tokens_are_one};
use ws2s_answer::limits_are_no_answers_within_the_peak;
use ws2s_parse::one_source;

/// Where the Peak of a text is within the limit, what `ws2s` writes of it is an answer other than `limit`, with status `Good`.
pub fn texts_within_their_peaks_are_decided()
    ensures { (limit : ℕ) (text output : List ℕ) (status : Status) (tree : Text) → length text ≤ most_bytes → IsWithinPeak limit text tree →
        Decides limit text output status → Says limit tree output status × (status ≡ Good) }
{
    tokens_are_one();
    stray_byte_is_one();
    one_source();
    limits_are_no_answers_within_the_peak();
}
