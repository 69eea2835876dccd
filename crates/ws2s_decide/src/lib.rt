//! Deciding core formulas of WS2S.
//!
//! The minimal automaton of a formula is made part by part, by a machine with a stack of tasks and a stack of automata, and
//! a lightest tree that it accepts is the verdict. `specs/Deciding.antt` says what a verdict is. An easier formula is tried first,
//! on a shelf that the decider owns (`specs/Own.antt`). Which automata are built, in which order, and what is kept is for the
//! proofs of this crate alone: `specs/Tasks.antt` and `specs/Going.antt`.
#![tactic(auto)]

mod decider;
mod deciding;
mod first_way;
mod machine;
mod making;
mod minimal;
mod network_way;
mod task;
mod trying;
mod uses;
mod valuing;
mod verdict;
mod visiting;
mod waiting;
mod way;
mod ways;

pub use decider::{Decider, decide};
pub use minimal::automaton;
pub use verdict::Verdict;
