//! Whether a store meets a claim.
//!
//! A claim with quantifiers over sets is decided by the minimal automaton of its formula, which reads the tree of the store, where that
//! has a tree; any other by `store_sat`, which tries each set. No clause says which way was taken. `specs/Formulas.antt` has the
//! formulas.
#![tactic(auto)]

mod formulas;
mod holding;
mod known;
mod laws;
mod reading;
mod worth;

pub use holding::holds;
pub use laws::{claims_read_live_cells_alone, formulas_of_claims_mean_them};
