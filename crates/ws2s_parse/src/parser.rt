//! Source trees from their tokens.

ghost use Rattle.std.specs.Prelude.{◌≡◌, List, IfOk, IfErr, IsOkUnless};
ghost use Rattle.ll1_reader.specs.Readings.{Step};
ghost use Rattle.pale_text.specs.declared.refusal.Refusal.{Refusal as RefusedThere};
ghost use Rattle.pale_text.specs.declared.refusal.TextStop.TheVariants.{NoMemory, Refused};
ghost use Rattle.pale_text.specs.TextStops.{IsRefusedUnless};
ghost use Rattle.ws2s_syntax.specs.declared.source.Source.{Source as SourceTree};
ghost use Rattle.ws2s_parse.specs.declared.grammar.act.SourceAct.{SourceAct};
ghost use Rattle.ws2s_parse.specs.SourceReading.{IsSource, IsShallow, IsParsedAs, IsParseStop};

use crate::source_grammar::SourceGrammar;
use pale_text::{TextStop, TokenList, parse};
use std::alloc::Global;
use ws2s_syntax::Source;

/// The source tree of the WS2S text that these tokens are.
///
/// # Errors
///
/// `Refused` is `syntax` at the first token that no text has after those before it, or at the text's end where the tokens
/// are no text yet; or `deep` at the first token that opens a level above the limit. The one that stands first is named.
/// `NoMemory` says nothing of the tokens. The time is linear in the tokens, and neither the length nor the depth of a
/// text takes stack.
pub fn parse_source(alloc: Global, list: &TokenList) -> Result<Source, TextStop>
    ensures source { IfOk result (IsParsedAs list.now.tokens) }
    ensures stop { IfErr result (IsParseStop list.now) }
    // The tokens have no other tree.
    ensures only { (steps : List (Step SourceAct)) (tree : SourceTree) → IsSource list.now.tokens steps tree →
        IfOk result (λ read. read ≡ tree) }
    // A text with so few levels is read, unless memory runs out.
    ensures complete { (steps : List (Step SourceAct)) (tree : SourceTree) → IsSource list.now.tokens steps tree →
        IsShallow steps → IsOkUnless result NoMemory }
    // The one refusal of the tokens is the answer, unless memory runs out.
    ensures refused { (refusal : RefusedThere) → IsParseStop list.now (Refused refusal) → IsRefusedUnless result refusal NoMemory }
{
    parse::<SourceGrammar>(alloc, list)
}
