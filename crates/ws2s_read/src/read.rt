//! WS2S texts from their bytes.

ghost use Rattle.std.specs.Prelude.{◌≡◌, ◌<◌, length, IfOk, IfErr, IsOkUnless};
ghost use Rattle.pale_text.specs.declared.refusal.Refusal.{Refusal as RefusedThere};
ghost use Rattle.pale_text.specs.declared.refusal.TextStop.TheVariants.{NoMemory};
ghost use Rattle.pale_text.specs.TextStops.{IsRefusedUnless};
ghost use Rattle.ws2s_syntax.specs.Checked.{Text};
ghost use Rattle.ws2s_read.specs.TextReading.{IsReadAs, IsReadStop, IsRefusedAs};

use crate::items::resolve;
use pale_text::{TextStop, lex};
use std::alloc::Global;
use ws2s_parse::parse_source;
use ws2s_syntax::Ws2sText;

/// The WS2S text of these bytes, fewer than the greatest `u32`.
///
/// # Errors
///
/// `Refused` is `char` at the first byte that begins no token; where there is none, `syntax` at the first token with which
/// no text goes on, or `deep` at the first that opens a level above 200; where the tokens are a text, the first fault of a
/// name or a term from the left: `duplicate`, `unknown`, `kind` or `arity`. `NoMemory` says nothing of the text.
pub fn read_ws2s(alloc: Global, text: &[u8]) -> Result<Ws2sText, TextStop>
    requires { length text.now < u32.MAX }
    ensures text { IfOk result (IsReadAs text.now) }
    ensures stop { IfErr result (IsReadStop text.now) }
    // The bytes are no other text.
    ensures only { (other : Text) → IsReadAs text.now other → IfOk result (λ read. read ≡ other) }
    // What is a text is read, unless memory runs out.
    ensures complete { (other : Text) → IsReadAs text.now other → IsOkUnless result NoMemory }
    // The one refusal of the bytes is the answer, unless memory runs out.
    ensures refused { (refusal : RefusedThere) → IsRefusedAs text.now refusal → IsRefusedUnless result refusal NoMemory }
{
    let list = lex(alloc, text)?;
    let source = parse_source(alloc, &list)?;
    resolve(alloc, &source)
}
