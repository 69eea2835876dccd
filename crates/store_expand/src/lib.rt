//! Assertions with their predicates put in.
//!
//! `expand` gives the expansion that `store_logic` defines, word for word, or refuses it by its size before anything is
//! built. `specs/Standing.antt` says where an assertion stands while predicates are put in, and what its forms become there;
//! `specs/Opening.antt` what stands in the place of a predicate's use.
#![tactic(auto)]

mod around;
mod building;
mod expanding;
mod fill;
mod places;
mod size;
mod sized;

pub use expanding::{ExpandFault, expand};
pub use sized::SizedPreds;
