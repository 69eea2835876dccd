//! Automata with as few classes of states as their tables have different rows and columns.
//!
//! Builders give each state of a child a class of its own, so that a table has a root for each pair of states though most
//! rows are equal. `specs/Merged.antt` says when states of a child share a class.
#![tactic(auto)]

mod classes;
mod lines;
mod merged;
mod told;

pub use merged::merge;
pub use told::is_told_apart;
