//! Symbolic execution: the places where a triple can fail, in order, as definitions with the formula of each, and listed.
//!
//! Code is walked over once. `specs/States.antt` has how far the walk has come; `specs/Reading.antt`, `specs/Conditions.antt`,
//! `specs/Acts.antt`, `specs/Cuts.antt` and `specs/Codes.antt` have one rule for each form of code. `specs/Claims.antt` has
//! assertions as formulas, `specs/Parts.antt` what is handed over and returned at calls, and `specs/Triples.antt` the list of
//! places of a triple and the formula of each.
#![tactic(auto)]

mod acts;
mod codes;
mod conditions;
mod cuts;
pub mod laws;
mod listing;
mod reading;
mod site;

pub use listing::sites;
pub use site::{Site, SiteList};
