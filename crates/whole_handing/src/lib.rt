//! What calls of a whole run make of stores: what is handed over, what stays behind, and what stands after a return.
//!
//! The words of whole_run's `specs/Handing.antt` say it; here `specs/Beside.antt` has the cells of two stores in order, and
//! `specs/Handed.antt` those inside or outside a part. Nothing asks that a store is well-formed.
#![tactic(auto)]

mod beside;
mod cells;
mod handing;
mod restricting;
mod returning;

pub use handing::{handed_store, rest_store};
pub use restricting::restricted;
pub use returning::returned_store;
