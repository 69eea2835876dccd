//! Symbolic execution of single steps: conditions, reads, assignments and `free`, where they can fail and what they lead to, and what
//! stands for the variables after both ways of an `if`.
//!
//! `site_list` says which places and formulas these are. A walk over code keeps how far it has come; each step makes the formulas of
//! the places that it passes, and keeps that of the one that is wanted.
#![tactic(auto)]

mod changes;
mod conditions;
mod merging;
mod places;
mod reading;
mod seeing;
mod walker;

pub use changes::{assign, free, made_truth};
pub use conditions::condition;
pub use merging::merged;
pub use seeing::{both, but_not};
pub use walker::{Walker, define, find, next_track, passes, reached, value_of};
