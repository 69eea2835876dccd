//! What is found of each formula that has a number, once: its free tracks, and its size as a tree.
//!
//! `specs/Facts.antt` says when a fact is one, and `specs/Conjuncts.antt` which formula a number stands for, what a context holds and
//! when one list of formulas implies another.
#![tactic(auto)]

mod facts;
mod tracks;

pub use facts::{Fact, Facts, make};
