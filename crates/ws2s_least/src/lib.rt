//! Lightest models of formulas exist.
//!
//! No code runs here. `specs/Lightest.antt` says what a lightest model is, and `laws` has the theorem.
#![tactic(auto)]

pub mod laws;
