//! Assertions of a procedure that is called, with what the call hands over put in for its variables.
//!
//! `specs/Putting.antt` says what is put in for a variable, and `specs/Forms.antt` what each form of an assertion becomes.
#![tactic(auto)]

mod filling;
mod putting;

pub use filling::fill;
pub use putting::{Put, PutList, pair_actuals, pair_results};
