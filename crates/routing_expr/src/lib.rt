//! Routes: where a walk leads, which cells are reached, where a pointer field has to point, and what is wrong with a store.
//!
//! What a walk, a destination and a well-formed store are stands in `routing_walks`; `specs/Searches.antt` says what a search is
//! asked for, and `specs/Machines.antt` what a route is taken apart into.
#![tactic(auto)]

mod calls;
mod cuts;
mod dangling;
mod first_fault;
mod followed;
mod indexing;
mod leak;
mod links;
mod machine;
mod names;
mod numbers;
mod places;
mod reach;
mod region;
mod search;
mod shared;
mod steps;
mod walker;
mod wrong_field;

pub use calls::{destinations, ends};
pub use cuts::cut_fault;
pub use first_fault::well_formed;
pub use followed::Followed;
pub use reach::reached;
pub use region::{ends_on, store_on};
pub use walker::Walker;
