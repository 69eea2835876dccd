//! Procedures with their names looked up and their predicates put in: their claims and their statements, or their first fault.
//!
//! `specs/Procedures.antt` says what a procedure is typed as and what is refused first, `specs/Statements.antt` the same of its
//! statements, `specs/Claims.antt` of its claims, and `specs/Stated.antt` of an assertion in its brackets.
#![tactic(auto)]

mod basis;
mod calls;
mod claims;
mod procedures;
mod stated;
mod statements;

pub use basis::Basis;
pub use claims::{Claims, read_claims};
pub use procedures::read_procedures;
pub use stated::{read_optional, read_stated};
