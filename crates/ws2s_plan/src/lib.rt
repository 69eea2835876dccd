//! A formula as a network of constraints, from which tracks without weight are eliminated.
//!
//! `specs/Plan.antt` says what is planned: `network_of` takes a formula apart into its conjuncts, and as long as there is a track that
//! few of them join to others puts the quantified conjunction of those that have it in their place. Nothing is decided here; all that
//! is made are numbers of formulas.
#![tactic(auto)]

mod choice;
mod conjunctions;
mod conjuncts;
mod eliminating;
mod left;
mod network;
mod planning;

pub use left::tracks_left;
pub use network::{Elimination, Network, network_of};
