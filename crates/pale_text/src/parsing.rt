//! Trees from their tokens, by a language.

ghost use Rattle.std.specs.Prelude.{◌≡◌, List, IfOk, IfErr, IsOkUnless};
ghost use Rattle.ll1_reader.specs.Grammars.{rules_of};
ghost use Rattle.ll1_reader.specs.Readings.{Step};
ghost use Rattle.pale_text.specs.declared.refusal.Refusal.{Refusal as RefusedThere};
ghost use Rattle.pale_text.specs.declared.refusal.TextStop.TheVariants.{NoMemory, Refused};
ghost use Rattle.pale_text.specs.Kinds.{kinds_by};
ghost use Rattle.pale_text.specs.Making.{tree_by};
ghost use Rattle.pale_text.specs.Parsing.{IsSentence, IsShallow, IsParsedAs, IsParseStop};
ghost use Rattle.pale_text.specs.TextStops.{IsRefusedUnless};

use crate::building::build;
use crate::language::Language;
use crate::reading::read_tokens;
use crate::refusal::TextStop;
use crate::token::{Token, TokenList};
use plain_data::Items;
use std::alloc::{AllocError, Global};

/// How many levels a text may open at once.
const MAX_LEVELS: u32 = 200;

/// The tree of the text that these tokens are.
///
/// # Errors
///
/// `Refused` is `syntax` at the first token that no text has after those before it, or at the text's end where the tokens
/// are no text yet; or `deep` at the first token that opens a level above the limit. The one that stands first is named.
/// `NoMemory` says nothing of the tokens. The time is linear in the tokens, and neither the length nor the depth of a
/// text takes stack.
pub fn parse<L: Language>(alloc: Global, list: &TokenList) -> Result<L::Tree, TextStop>
    ensures tree { IfOk result (IsParsedAs (rules_of L.grammar) L.kind_of (tree_by L.after L.nothing L.tree_of) list.now.tokens) }
    ensures stop { IfErr result (IsParseStop (rules_of L.grammar) L.kind_of list.now) }
    // The tokens have no other tree.
    ensures only { (steps : List (Step L.Act)) (tree : L.Tree) →
        IsSentence (rules_of L.grammar) L.kind_of (tree_by L.after L.nothing L.tree_of) list.now.tokens steps tree →
        IfOk result (λ read. read ≡ tree) }
    // A text with so few levels is read, unless memory runs out.
    ensures complete { (steps : List (Step L.Act)) (tree : L.Tree) →
        IsSentence (rules_of L.grammar) L.kind_of (tree_by L.after L.nothing L.tree_of) list.now.tokens steps tree →
        IsShallow steps → IsOkUnless result NoMemory }
    // The one refusal of the tokens is the answer, unless memory runs out.
    ensures refused { (refusal : RefusedThere) → IsParseStop (rules_of L.grammar) L.kind_of list.now (Refused refusal) →
        IsRefusedUnless result refusal NoMemory }
{
    let kinds = kinds_in::<L>(alloc, list.tokens.as_slice())?;
    let events = read_tokens::<L>(alloc, list, kinds.as_slice(), MAX_LEVELS)?;
    Ok(build::<L>(alloc, list.tokens.as_slice(), events.as_slice())?)
}

/// The kinds of the tokens.
fn kinds_in<L: Language>(alloc: Global, tokens: &[Token]) -> Result<Items<L::Kind>, AllocError>
    ensures { IfOk result (λ kinds. kinds ≡ kinds_by L.kind_of tokens.now) }
{
    let mut kinds = Items::new(alloc);
    for token in tokens {
        kinds.push(L::kind(&token.kind))?;
    }
    Ok(kinds)
}
