//! The lines of a trace, and where a run stands.
//!
//! `specs/TraceLines.antt` says what is written.
#![tactic(auto)]

mod lines;
mod nesting;
mod places;
mod standing;

pub use lines::push_events;
pub use standing::push_stand;
