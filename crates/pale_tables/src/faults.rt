//! Rules, and what is refused where one is broken.

ghost use Rattle.std.specs.Prelude.{◌≡◌, None, OnOk, IfErr};
ghost use Rattle.pale_tables.specs.Faults.{need, IsStop};

use pale_text::{Pos, Refusal, RefusalKind, TextStop};

/// `Refused` where this isn't so: the token at the place, with the kind. Takes no memory.
pub fn need(is: bool, kind: RefusalKind, place: Pos) -> Result<(), TextStop>
    ensures met { OnOk result (need is kind place ≡ None) }
    ensures stop { IfErr result (IsStop (need is kind place)) }
{
    if is {
        return Ok(());
    }
    Err(TextStop::Refused(Refusal::at(place, kind)))
}
