//! WS2S texts: their source trees, from their tokens.
//!
//! `specs/SourceGrammar.antt` has the grammar, `specs/Making.antt` says which tree is made in a reading of the tokens, and
//! `specs/SourceReading.antt` which tree tokens have and where they have none.
#![tactic(auto)]

mod build;
mod grammar;
mod laws;
mod parser;
mod source_grammar;
mod tables;

pub use grammar::{AtomAct, ConnectiveAct, ItemAct, SourceAct, SourceKind, SourcePart, TermAct};
pub use laws::{each_sentence_is_a_source, one_source};
pub use parser::parse_source;
