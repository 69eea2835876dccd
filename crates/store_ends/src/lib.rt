//! Every run has an end: assertions are decided, each code leads somewhere from each store, and of the causes at a cut one is the
//! first, or none is there.
//!
//! No code runs here. `specs/Places.antt` says which cuts a code names, and `laws` has the theorems.
#![tactic(auto)]

pub mod laws;
