//! Texts as tokens: the marks, names and numbers of program text and of WS2S text, each with its place.
//! `specs/Spelling.antt` says what spells a token, and `specs/Lexing.antt` which tokens a text has and where it has none.
//! `parse` makes the tree of tokens, for any `Language`: a grammar for `ll1_reader`, and what its acts make.
//! `specs/Parsing.antt` says which tokens have which tree. `laws` has what callers may rest on: a text is read in one way,
//! tokens that a printer keeps apart are read again, and tokens have one tree. The parsers of both languages stand on
//! these, and no crate above looks at how bytes are read.
#![tactic(auto)]

mod building;
mod front;
mod kinds;
mod language;
mod laws;
mod lexer;
mod near;
mod parsing;
mod piece;
mod place;
mod reading;
mod refusal;
mod token;

pub use kinds::kind_among;
pub use language::Language;
pub use laws::{
    each_sentence_has_a_tree, one_tree, spelled_tokens_are_read, stray_byte_is_one, tokens_are_one,
};
pub use lexer::lex;
pub use near::{Near, name_bytes_of, nowhere, place_of};
pub use parsing::parse;
pub use place::{Pos, Span};
pub use refusal::{Refusal, RefusalKind, TextStop};
pub use token::{ByteList, Mark, Token, TokenKind, TokenList};
