//! What the execution of loop-free code shows step by step, and where it stands when a step fails: events, definitions and laws.
//! `store_runner` executes.
//!
//! `specs/Showing.antt` says what one step shows, and `specs/Tracing.antt` what a code shows, and a triple from a store.
#![tactic(auto)]

mod event;
mod laws;
mod recorder;
mod traced;

pub use event::{Event, EventList};
pub use laws::{traces_are_runs, traces_keep_stores_fitting, triples_end_as_traced};
pub use recorder::Recorder;
pub use traced::Traced;
