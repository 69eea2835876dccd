//! The mode `trace`: each step of a store's execution through a triple, or of a procedure's whole run.
//!
//! `specs/Traces.antt` says what is said of a store in a triple and in a run, `specs/Tracing.antt` what is said of a text, whose parts
//! `pale_parts` has, and `specs/Lines.antt` in which words. The store is read and brought to its start by `pale_starts` and `pale_run`,
//! executed by `store_runner` and `whole_exec`, and what was shown is written by `trace_text`.
#![tactic(auto)]

mod ending;
mod laws;
mod lines;
mod running;
mod stores;
mod tracing;

pub use ending::{Ending, Trace};
pub use laws::traces_end_as_executions;
pub use tracing::trace;
