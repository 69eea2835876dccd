//! Projections of guided tree automata: the subset automaton, which drops a track.
//!
//! `gta_subsets` says how sets of states step, and what their numbers and classes are. Sets are numbered as they are reached,
//! space by space in rounds; a root is joined for each pair of classes of sets. No crate above looks at the order in which
//! sets get their numbers.
#![tactic(auto)]

mod filling;
mod growing;
mod projecting;

pub use projecting::project;
