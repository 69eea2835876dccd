//! The text of a program with all that is looked at before it is judged or run: its tokens, the grammar, the static rules, and the
//! sizes of its triples.
//!
//! `specs/ProgramTexts.antt` says what a text is read as, and what is refused first.
#![tactic(auto)]

mod program;

pub use program::{WholeProgram, read_program};
