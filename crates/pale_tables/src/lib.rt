//! The types that a program declares: their names, their variants and fields, and the routes of pointer fields.
//!
//! `specs/Types.antt` says what type table the declarations are and what is refused first; `specs/Routes.antt` says the same of
//! routes, which assertions have too.
#![tactic(auto)]

mod faults;
mod names;
mod route_sizes;
mod routes;
mod table;
mod type_names;
mod types;

pub use faults::need;
pub use names::Names;
pub use routes::read_route;
pub use table::read_table;
pub use type_names::{Followed, TypeNames};
pub use types::{FieldRow, TypeRow, check_type_names, read_names, read_types};
