//! The minimal automata of atoms.
//!
//! The theory says which states of an atom's automaton are one state of its minimal automaton in each space, under every
//! guide. So nothing is refined: each space keeps the states that stand for themselves, numbered, and a node is made only
//! where the minimal automaton has one.
#![tactic(auto)]

mod child_test;
mod kept;
mod known;
mod making;
mod nodes;
mod plan;

pub use making::atom;
