//! Programs with their names looked up and their predicates put in, or their first fault.
//!
//! `specs/Programs.antt` says what a program is typed as and what is refused first. What it is typed as fits, as `pale_typed` has
//! it.
#![tactic(auto)]

mod laws;
mod program;

pub use laws::programs_without_fault_fit;
pub use program::check_types;
