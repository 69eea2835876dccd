//! Minimal automata.
//!
//! The states that can't be told apart are found off the shelf (`gta_refine`); then only the nodes of the result are made.
#![tactic(auto)]

mod marks;
mod minimal;
mod nodes;
mod quotient;
mod rows;

pub use minimal::minimise;
