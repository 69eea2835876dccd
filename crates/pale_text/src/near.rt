//! The tokens about the place that is read, and what a builder of trees takes from them.

ghost use Rattle.std.specs.Prelude.{◌≡◌, IfOk};
ghost use Rattle.std.specs.Option.{option_copied};
ghost use Rattle.plain_data.specs.Stacks.{rest};
ghost use Rattle.pale_text.specs.Places.{nowhere};
ghost use Rattle.pale_text.specs.Tokens.{first_of, name_bytes_of, place_of};

use crate::place::Pos;
use crate::token::{ByteList, Token, TokenKind};
use plain_data::Items;
use std::alloc::{AllocError, Global};

/// The token read last, and the one that comes next.
#[derive(Clone, Copy)]
pub struct Near<'a> {
    pub last: Option<&'a Token>,
    pub next: Option<&'a Token>,
}

/// Stands where no place is known.
pub fn nowhere() -> Pos
    ensures { result ≡ nowhere }
{
    Pos { line: 0, column: 0 }
}

/// Where the token stands.
pub fn place_of(token: Option<&Token>) -> Pos
    ensures { result ≡ place_of (option_copied token.entry) }
{
    match token {
        Some(token) => token.span.start,
        None => nowhere(),
    }
}

/// The bytes of a name, and none of another token, or where there is none.
pub fn name_bytes_of(alloc: Global, token: Option<&Token>) -> Result<ByteList, AllocError>
    ensures { IfOk result (λ bytes. bytes ≡ name_bytes_of (option_copied token.entry)) }
{
    let Some(token) = token else {
        return Ok(Items::new(alloc));
    };
    match &token.kind {
        TokenKind::Name(bytes) => Items::from_slice(alloc, bytes.as_slice()),
        TokenKind::Number(_) | TokenKind::Mark(_) => Ok(Items::new(alloc)),
    }
}

/// The first of the tokens.
pub(crate) fn first_of(tokens: &[Token]) -> Option<&Token>
    ensures { option_copied result ≡ first_of tokens.now }
{
    tokens.first()
}

/// The tokens but the first.
pub(crate) fn after_first(tokens: &[Token]) -> &[Token]
    ensures { result.now ≡ rest tokens.now }
{
    match tokens.split_first() {
        Some((_, others)) => others,
        None => tokens,
    }
}
