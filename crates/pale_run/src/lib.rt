//! The mode `run`: a whole run of a procedure of a program, with its loops and calls, from a store.
//!
//! `specs/Runs.antt` says what comes of a store in a procedure's run, `specs/Running.antt` what is said of a text, whose parts
//! `pale_parts` has, and `specs/Lines.antt` in which words. The store is read and brought to the procedure's entry by `pale_starts`,
//! and run by `whole_exec`.
#![tactic(auto)]

mod answer;
mod lines;
mod naming;
mod running;

pub use answer::{Answer, Run};
pub use naming::{NamedRun, named_run};
pub use running::{begin_run, run};
