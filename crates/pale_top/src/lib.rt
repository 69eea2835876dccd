//! What the program `pale` does with its words, over a source and a sink of bytes.
//!
//! `specs/Output.antt` says what a call writes and how it ends, and `specs/Completing.antt` what a text without a fault gets. The
//! modes are those of `pale_judging` and `pale_modes`, and the words are read by `pale_words`.
#![tactic(auto)]

mod call;
mod text;

pub use call::pale_main;
pub use pale_status::Status;
pub use text::pale_bytes;
