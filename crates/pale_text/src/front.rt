//! What stands at the front of a text: a gap, a comment, a token or a stray byte.

ghost use Rattle.std.specs.Prelude.{◌≡◌, ◌<◌, length, not, IfOk};
ghost use Rattle.std.specs.List.{prefix_len};
ghost use Rattle.pale_text.specs.Lexing.{is_gap, is_line_end};
ghost use Rattle.pale_text.specs.Fronts.{StandsFirst};

use crate::piece::read_piece;
use crate::token::TokenKind;
use std::alloc::{AllocError, Global};

/// What stands at the front of a text that is not over.
#[derive(Drop)]
pub enum Front {
    /// A byte that separates tokens.
    Gap,
    /// A comment, with its number of bytes.
    Comment(usize),
    /// The longest token, with its number of bytes.
    Token(TokenKind, usize),
    /// A byte that begins none of these.
    Stray,
}

/// Looks at the front of a text with at least one byte.
pub fn read_front(alloc: Global, text: &[u8]) -> Result<Front, AllocError>
    requires { 0 < length text.now }
    ensures { IfOk result (StandsFirst text.now) }
{
    if is_gap(text[0]) {
        return Ok(Front::Gap);
    }
    if text[0] == b'#' {
        return Ok(Front::Comment(line_length(text)));
    }
    match read_piece(alloc, text)? {
        Some((kind, length)) => Ok(Front::Token(kind, length)),
        None => Ok(Front::Stray),
    }
}

/// Whether a byte separates tokens.
fn is_gap(byte: u8) -> bool
    ensures { result ≡ is_gap byte }
{
    matches!(byte, b' ' | b'\t' | b'\r' | b'\n')
}

/// How many bytes there are before the next LF.
fn line_length(text: &[u8]) -> usize
    ensures { result ≡ prefix_len (λ byte. not (is_line_end byte)) text.now }
{
    text.iter().take_while(|byte| **byte != b'\n').count()
}
