//! Conditions, assignments and `free` with their names looked up: what they are typed as, or their first fault.
//!
//! `specs/Conditions.antt` has a rule for each form of condition, `specs/Assignments.antt` for what is assigned and freed.
#![tactic(auto)]

mod assignments;
mod conditions;
mod operands;

pub use assignments::{read_assignment, read_free};
pub use conditions::read_condition;
