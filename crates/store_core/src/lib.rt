//! Types, variables, values and stores, as everything above means them. A table is a list of named things, and a store is
//! a finite map from cell numbers to cells, with the variables' values and the next number.
//! `specs/Tables.antt` says what a table is and what it knows; `specs/Stores.antt` what a store is, how a call changes it, and
//! when it fits its tables and is fresh. No crate above looks at how names are looked up.
#![tactic(auto)]

mod ids;
mod kind;
mod route_copy;
mod store;
mod store_copy;
mod types;
mod value;
mod vars;

pub use ids::{CellId, FieldId, TypeId, VarId, VariantId};
pub use kind::{ByteList, FieldKind, Owner, Route, VarKind};
pub use store::{CellBody, Store};
pub use store_copy::copy_values;
pub use types::TypeTable;
pub use value::{CellList, Class, Value};
pub use vars::VarTable;
