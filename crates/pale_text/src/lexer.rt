//! A text as its tokens.

ghost use Rattle.std.specs.Prelude.{◌≡◌, ◌<◌, length, IfOk, IfErr};
ghost use Rattle.pale_text.specs.Lexing.{IsLexed, IsLexStop};

use crate::front::{Front, read_front};
use crate::place::{Span, first_place, place_past};
use crate::refusal::{Refusal, RefusalKind, TextStop};
use crate::token::{Token, TokenList};
use plain_data::Items;
use std::alloc::Global;

/// The tokens of a text. It has fewer bytes than the greatest `u32`, so that each line and column fits one.
///
/// `Refused` is `char`, at the first byte that begins no token where one is wanted, and nothing else. `NoMemory` says
/// nothing of the text. The time is linear in the text.
pub fn lex(alloc: Global, text: &[u8]) -> Result<TokenList, TextStop>
    requires { length text.now < u32.MAX }
    ensures tokens { IfOk result (IsLexed text.now) }
    ensures stop { IfErr result (IsLexStop text.now) }
{
    let mut tokens = Items::new(alloc);
    let mut place = first_place();
    let mut left = text;
    while !left.is_empty() {
        let count = match read_front(alloc, left)? {
            Front::Gap => 1,
            Front::Comment(length) => length,
            Front::Token(kind, length) => {
                let span = Span {
                    start: place,
                    length: length as u32,
                };
                tokens.push(Token { span, kind })?;
                length
            }
            Front::Stray => return Err(TextStop::Refused(Refusal::at(place, RefusalKind::Char))),
        };
        let (taken, rest) = left.split_at(count);
        place = place_past(place, taken);
        left = rest;
    }
    Ok(TokenList { tokens, end: place })
}
