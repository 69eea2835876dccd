//! Executes loop-free code on a store, looks for the first cause at a cut point, and asks whether a store meets the start of a triple.
//!
//! `store_exec` says where code leads and which cause a cut has, and `store_trace` what it shows; `specs/Conditions.antt` how the
//! truth of a condition is found, `specs/Assigning.antt` how a field is assigned, and `specs/Recordings.antt` what is recorded.
#![tactic(auto)]

mod acts;
mod asserting;
mod cuts;
mod items;
mod reading;
mod running;
mod showing;
mod single;
mod triples;
mod truth;

pub use asserting::has_assert;
pub use cuts::{at_cut, meets};
pub use running::{run, trace};
pub use showing::{act_events, truth_events};
pub use single::{execute, read_truth};
pub use triples::trace_triple;
