//! The text of a store, both ways. `specs/StoreText.antt` says how a store is written, and `specs/Reading.antt` which store a
//! text spells, or at which line its first fault stands and of which kind. `specs/Writable.antt` says of which tables and
//! stores what is written is read again as the same store. No crate above looks at how a text is cut into lines.
#![tactic(auto)]

mod fault;
mod laws;
mod read;
mod writer;

pub use fault::{StoreFault, StoreKind};
pub use laws::{
    read_stores_are_fresh_below, read_stores_fit, read_stores_go_on, written_stores_are_read,
};
pub use read::read_store;
pub use writer::store_text;
