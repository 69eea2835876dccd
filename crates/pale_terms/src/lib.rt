//! Names, paths and terms of assertions and conditions: what they stand for in a scope, or their first fault.
//!
//! `specs/Scopes.antt` says what a name stands for and when a place may not name it, `specs/Terms.antt` the same of paths and
//! terms.
#![tactic(auto)]

mod scope;
mod sort;
mod terms;

pub use scope::{Meaning, Origin, Scope, Visible};
pub use sort::Sort;
pub use terms::{
    TypedPath, TypedTerm, read_base, read_cell, read_compared, read_path, read_reference, read_set,
    read_set_path, read_term, read_variant_test,
};
