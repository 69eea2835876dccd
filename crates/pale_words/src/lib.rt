//! The words of a call: one mode and two numbers.
//!
//! `specs/Words.antt` has the command line, as a command of `clap`, and what it gives for the words.
#![tactic(auto)]

mod words;

pub use words::{Mode, Settings, WordsStop, read_words};
