//! The grammar of WS2S text, whose rows stand in `specs/SourceGrammar.antt`: kinds of tokens, parts and acts.

mod act;
mod kind;
mod part;

pub use act::{AtomAct, ConnectiveAct, ItemAct, SourceAct, TermAct};
pub use kind::SourceKind;
pub use part::SourcePart;
