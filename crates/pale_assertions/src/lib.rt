//! Assertions of a program with their names looked up: what they are typed as, or their first fault.
//!
//! `pale_vocabulary` has the rules, one for each form.
#![tactic(auto)]

mod arguments;
mod assertions;
mod atoms;
mod connectives;
mod quantifiers;

pub use assertions::read_assertion;
