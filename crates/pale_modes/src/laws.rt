//! What callers may rest on.

ghost use Rattle.std.specs.Prelude.{◌≡◌, ℕ, List};
ghost use Rattle.pale_status.specs.declared.status.Status.{Status};
ghost use Rattle.pale_modes.specs.Formatting.{Formats};

use pale_parse::one_program;
use pale_text::{stray_byte_is_one, tokens_are_one};

/// A text has at most one output of `format`, with one status.
pub fn formatting_is_one()
    ensures { (text one other : List ℕ) (status another : Status) →
        Formats text one status → Formats text other another → (one ≡ other) × (status ≡ another) }
{
    tokens_are_one();
    stray_byte_is_one();
    one_program();
}
