//! Predicates of a program: their parameters and bodies with names looked up, and how large they are with those before put in.
//!
//! `pale_vocabulary` says what predicates the declarations are, and what is refused first.
#![tactic(auto)]

mod parameters;
mod predicates;

pub use predicates::{check_predicate_names, read_bracketed, read_predicates};
