//! A text that is written piece by piece. Its writer remembers that memory ran out, so that its pushes return nothing and
//! one answer in the end tells: a function that writes a text has no step that can fail.
//!
//! `specs/Growing.antt` says what a push does.
#![tactic(auto)]

mod writer;

pub use writer::Writer;
