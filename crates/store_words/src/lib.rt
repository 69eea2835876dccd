//! What lines about stores are written with: the words for causes, the names of fields, and numbers.
//!
//! `specs/Words.antt` has the words, as bytes.
#![tactic(auto)]

mod words;

pub use words::{field_name, push_number, word_of};
