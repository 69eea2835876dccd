//! The form of an automaton: its functions, listed, so that what goes on asks no shelf.
//! `specs/Listed.antt` says which form that is.
#![tactic(auto)]

mod listed;

pub use listed::form_of;
