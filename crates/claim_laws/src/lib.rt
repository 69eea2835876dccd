//! When a claim of one procedure fits the variables of another: the law for `pre` and `post` where a procedure is called, the
//! contract of a function that does nothing.
//!
//! `specs/Claims.antt` says when a claim fits and what may be put in for its variables.
#![tactic(auto)]

mod laws;

pub use laws::claims_with_actuals_put_in_fit;
