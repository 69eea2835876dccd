//! Programs with their names looked up and their predicates put in, as all that takes them apart has them.
//!
//! `specs/TypedPrograms.antt` says what such a program is, and `specs/Fitting.antt` when it fits; `specs/Variables.antt` has what
//! both say of variables.
#![tactic(auto)]

mod typed;
mod typed_program;

pub use typed::{CallParts, ProcEntry, Stmt, StmtList, TypedProc};
pub use typed_program::Typed;
