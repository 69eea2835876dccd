//! Conjunctions refolded to the left: each conjunct is conjoined to all those before it.
//!
//! Automata are multiplied as conjunctions nest, and what formulas begin with alike is multiplied once for all of them. Which conjunctions
//! are taken apart is free; `specs/Conjunctions.antt` says what stays.
#![tactic(auto)]

mod chain;
mod fold;
mod leaned;
mod leaning;

pub use leaning::lean_left;
