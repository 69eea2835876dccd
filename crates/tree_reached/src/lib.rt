//! That each live cell of a type is at one of its places, told by field: one step by 1 after the other, with a set of positions
//! for each step.
//!
//! The formula of trees says it by a list of places, so under a negated quantifier its automaton tells apart which of all fields
//! may still lead to a position: twice as many sets with each field. `specs/ByField.antt` says it with one set a step, of which no
//! position is in two that would need two variants above it. It says the same of all that lays out a backbone
//! (`specs/Alike.antt`), so whoever decides a formula that trees alone satisfy may decide it so.
#![tactic(auto)]

mod cells;
mod ends;
mod gaps;
pub mod laws;
mod replacing;
mod steps;
mod ways;
mod wide_types;

pub use wide_types::{MANY_STEPS, by_fields};
