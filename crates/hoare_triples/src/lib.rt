//! The triples of a typed program are made, or the first part that is too long is refused.
//!
//! `hoare_split` says which triples a program has. `specs/Following.antt` says what is kept while code is made, and
//! `specs/Weights.antt` what falls.
#![tactic(auto)]

mod codes;
mod points;
mod reached;
mod rest;
mod splitting;

pub use points::TripleList;
pub use splitting::split;
