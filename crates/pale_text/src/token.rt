//! What a text consists of.

ghost use Rattle.std.specs.Prelude.{◌≡◌};
ghost use Rattle.pale_text.specs.Marks.{mark_number};
ghost use Rattle.pale_text.specs.Spelling.{bytes_of};

use crate::place::{Pos, Span};
use plain_data::Items;

/// Bytes of a text, which contracts see as a list.
pub type ByteList = Items<u8>;

/// A token of one spelling that is neither a name nor a number.
#[derive(Clone, Copy, Debug, PartialEq, Eq)]
pub enum Mark {
    /// `<=>`
    Equivalent,
    /// `==`
    SameAs,
    /// `=>`
    Implies,
    /// `!=`
    NotSame,
    /// `~=`
    NotEqual,
    /// `&&`
    AndAlso,
    /// `||`
    OrElse,
    /// `=`
    Equals,
    /// `!`
    Bang,
    /// `~`
    Tilde,
    /// `&`
    Ampersand,
    /// `|`
    Bar,
    /// `<`
    Less,
    /// `>`
    Greater,
    /// `(`
    LeftParen,
    /// `)`
    RightParen,
    /// `[`
    LeftBracket,
    /// `]`
    RightBracket,
    /// `{`
    LeftBrace,
    /// `}`
    RightBrace,
    /// `:`
    Colon,
    /// `;`
    Semicolon,
    /// `,`
    Comma,
    /// `.`
    Dot,
    /// `*`
    Star,
    /// `+`
    Plus,
    /// `^`
    Caret,
    /// `$`
    Dollar,
    /// `@`
    At,
    /// `?`
    Question,
}

impl Mark {
    /// Its one spelling. Takes no memory.
    pub fn bytes(&self) -> &'static [u8]
        ensures { result.now ≡ bytes_of self.now }
    {
        match self {
            Mark::Equivalent => b"<=>",
            Mark::SameAs => b"==",
            Mark::Implies => b"=>",
            Mark::NotSame => b"!=",
            Mark::NotEqual => b"~=",
            Mark::AndAlso => b"&&",
            Mark::OrElse => b"||",
            Mark::Equals => b"=",
            Mark::Bang => b"!",
            Mark::Tilde => b"~",
            Mark::Ampersand => b"&",
            Mark::Bar => b"|",
            Mark::Less => b"<",
            Mark::Greater => b">",
            Mark::LeftParen => b"(",
            Mark::RightParen => b")",
            Mark::LeftBracket => b"[",
            Mark::RightBracket => b"]",
            Mark::LeftBrace => b"{",
            Mark::RightBrace => b"}",
            Mark::Colon => b":",
            Mark::Semicolon => b";",
            Mark::Comma => b",",
            Mark::Dot => b".",
            Mark::Star => b"*",
            Mark::Plus => b"+",
            Mark::Caret => b"^",
            Mark::Dollar => b"$",
            Mark::At => b"@",
            Mark::Question => b"?",
        }
    }

    /// Its number, by which grammars tell marks apart. Takes no memory.
    #[tactic(auto, unfolding(crate::specs::Marks::mark_number))]
    pub fn number(&self) -> u32
        ensures { result ≡ mark_number self.now }
    {
        match self {
            Mark::Equivalent => 0,
            Mark::SameAs => 1,
            Mark::Implies => 2,
            Mark::NotSame => 3,
            Mark::NotEqual => 4,
            Mark::AndAlso => 5,
            Mark::OrElse => 6,
            Mark::Equals => 7,
            Mark::Bang => 8,
            Mark::Tilde => 9,
            Mark::Ampersand => 10,
            Mark::Bar => 11,
            Mark::Less => 12,
            Mark::Greater => 13,
            Mark::LeftParen => 14,
            Mark::RightParen => 15,
            Mark::LeftBracket => 16,
            Mark::RightBracket => 17,
            Mark::LeftBrace => 18,
            Mark::RightBrace => 19,
            Mark::Colon => 20,
            Mark::Semicolon => 21,
            Mark::Comma => 22,
            Mark::Dot => 23,
            Mark::Star => 24,
            Mark::Plus => 25,
            Mark::Caret => 26,
            Mark::Dollar => 27,
            Mark::At => 28,
            Mark::Question => 29,
        }
    }
}

/// What a token is. A reserved word is a name: which names are reserved is up to each language.
#[derive(Debug, Drop)]
pub enum TokenKind {
    /// A letter followed by letters, digits and `_`, with its bytes.
    Name(ByteList),
    /// A run of digits, with its bytes.
    Number(ByteList),
    Mark(Mark),
}

/// A token, and where it stands.
#[derive(Debug, Drop)]
pub struct Token {
    pub span: Span,
    pub kind: TokenKind,
}

/// The tokens of a text in order, and the place of the text's end: one byte past its last byte, which may be of a
/// comment or between tokens.
#[derive(Debug, Drop)]
pub struct TokenList {
    pub tokens: Items<Token>,
    pub end: Pos,
}
