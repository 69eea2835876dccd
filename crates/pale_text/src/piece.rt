//! The token at the front of a text.

ghost use Rattle.std.specs.Prelude.{◌≡◌, nat_eq, MatchOption, IfOk};
ghost use Rattle.std.specs.List.{prefix_len, find, starts_with};
ghost use Rattle.std.specs.Char.{is_ascii_digit};
ghost use Rattle.pale_text.specs.Spelling.{bytes_of, is_name_part};
ghost use Rattle.pale_text.specs.Lexing.{HasNoPiece};
ghost use Rattle.pale_text.specs.Fronts.{HasPiece};

use crate::token::{Mark, TokenKind};
use plain_data::Items;
use std::alloc::{AllocError, Global};

/// All marks, and none after a shorter one.
const MARKS: [Mark; 30] = [
    Mark::Equivalent,
    Mark::SameAs,
    Mark::Implies,
    Mark::NotSame,
    Mark::NotEqual,
    Mark::AndAlso,
    Mark::OrElse,
    Mark::Equals,
    Mark::Bang,
    Mark::Tilde,
    Mark::Ampersand,
    Mark::Bar,
    Mark::Less,
    Mark::Greater,
    Mark::LeftParen,
    Mark::RightParen,
    Mark::LeftBracket,
    Mark::RightBracket,
    Mark::LeftBrace,
    Mark::RightBrace,
    Mark::Colon,
    Mark::Semicolon,
    Mark::Comma,
    Mark::Dot,
    Mark::Star,
    Mark::Plus,
    Mark::Caret,
    Mark::Dollar,
    Mark::At,
    Mark::Question,
];

/// Whether a byte may stand in a name after its first.
fn is_name_part(byte: u8) -> bool
    ensures { result ≡ is_name_part byte }
{
    byte.is_ascii_alphanumeric() || byte == b'_'
}

/// How many letters, digits and `_` the text begins with.
fn name_parts(text: &[u8]) -> usize
    ensures { result ≡ prefix_len is_name_part text.now }
{
    text.iter().take_while(|byte| is_name_part(**byte)).count()
}

/// How many digits the text begins with.
fn digits(text: &[u8]) -> usize
    ensures { result ≡ prefix_len is_ascii_digit text.now }
{
    text.iter().take_while(|byte| byte.is_ascii_digit()).count()
}

/// The longest mark at the front of a text.
fn mark_of(text: &[u8]) -> Option<Mark>
    ensures { result ≡ find (λ mark. starts_with nat_eq text.now (bytes_of mark)) MARKS }
{
    MARKS
        .iter()
        .copied()
        .find(|mark| text.starts_with(mark.bytes()))
}

/// The longest token at the front of a text, with its number of bytes.
pub fn read_piece(alloc: Global, text: &[u8]) -> Result<Option<(TokenKind, usize)>, AllocError>
    ensures { IfOk result (λ piece.
        MatchOption piece (HasNoPiece text.now) (λ found. HasPiece text.now found.0 found.1)) }
{
    let Some(first) = text.first() else {
        return Ok(None);
    };
    if first.is_ascii_alphabetic() {
        let length = name_parts(text);
        let name = Items::from_slice(alloc, &text[..length])?;
        return Ok(Some((TokenKind::Name(name), length)));
    }
    if first.is_ascii_digit() {
        let length = digits(text);
        let number = Items::from_slice(alloc, &text[..length])?;
        return Ok(Some((TokenKind::Number(number), length)));
    }
    let Some(mark) = mark_of(text) else {
        return Ok(None);
    };
    Ok(Some((TokenKind::Mark(mark), mark.bytes().len())))
}
