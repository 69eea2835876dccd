//! The room that nodes take in a shelf: those that are made for functions under an automaton's table fit in its Size.
//! `specs/Progress.antt` says what was made so far, and when there is no room for more.
#![tactic(auto)]

mod laws;

pub use laws::made_nodes_fit_in_sizes;
