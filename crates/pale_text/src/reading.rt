//! Reading tokens by a grammar.

ghost use Rattle.std.specs.Prelude.{◌≡◌, List, IsOkUnless, MatchResult};
ghost use Rattle.ll1_reader.specs.Grammars.{rules_of};
ghost use Rattle.ll1_reader.specs.Readings.{Step, IsReading};
ghost use Rattle.ll1_reader.specs.Answers.{AreLow, levels, IsParsed};
ghost use Rattle.pale_text.specs.declared.refusal.Refusal.{Refusal as RefusedThere};
ghost use Rattle.pale_text.specs.declared.refusal.TextStop.TheVariants.{NoMemory, Refused};
ghost use Rattle.pale_text.specs.Refusals.{refused_at};
ghost use Rattle.pale_text.specs.TextStops.{place_at, IsRefused, IsRefusedUnless, IsTextStop};

use crate::place::Pos;
use crate::refusal::{Refusal, RefusalKind, TextStop};
use crate::token::TokenList;
use ll1_reader::{Event, Grammar, ReadStop, read};
use plain_data::Items;
use std::alloc::Global;

/// What happens in the one reading of a text's tokens, of these kinds, that counts, where it opens at most so many levels
/// at once.
///
/// `Refused` is `syntax` at the first token that no sentence has after those before it, or at the text's end where the
/// tokens are no sentence yet; or `deep` at the first token that opens a level above the limit. The one that stands first
/// is named. `NoMemory` says nothing of the tokens. Takes no stack for a text's length or depth.
pub(crate) fn read_tokens<G: Grammar>(
    alloc: Global,
    list: &TokenList,
    kinds: &[G::Kind],
    limit: u32,
) -> Result<Items<Event<G::Act>>, TextStop>
    ensures exact { MatchResult result (IsParsed (rules_of G.grammar) limit kinds.now) (IsTextStop (rules_of G.grammar) limit kinds.now list.now) }
    // What has such a reading is read, unless memory runs out.
    ensures complete { (steps : List (Step G.Act)) → IsReading (rules_of G.grammar) kinds.now steps → AreLow limit (levels steps) → IsOkUnless result NoMemory }
    // The one refusal of the tokens is the answer, unless memory runs out.
    ensures refused { (refusal : RefusedThere) → IsRefused (rules_of G.grammar) limit kinds.now list.now refusal → IsRefusedUnless result refusal NoMemory }
{
    match read::<G>(alloc, kinds, limit) {
        Ok(events) => Ok(events),
        Err(ReadStop::Wrong(number)) => Err(refused(list, number, RefusalKind::Syntax)),
        Err(ReadStop::Deep(number)) => Err(refused(list, number, RefusalKind::Deep)),
        Err(ReadStop::NoMemory) => Err(TextStop::NoMemory),
    }
}

/// The refusal of the token with this number, or of the text's end behind the last one.
fn refused(list: &TokenList, number: usize, kind: RefusalKind) -> TextStop
    ensures { result ≡ Refused (refused_at (place_at list.now number) kind) }
{
    TextStop::Refused(Refusal::at(place_at(list, number), kind))
}

/// The place of the token with this number. Behind the last one is the text's end.
fn place_at(list: &TokenList, number: usize) -> Pos
    ensures { result ≡ place_at list.now number }
{
    match list.tokens.get(number) {
        Some(token) => token.span.start,
        None => list.end,
    }
}
