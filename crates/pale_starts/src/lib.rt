//! What is read of a text that spells a store behind its program, before the store is executed: the store, brought to the start of
//! what is executed.
//!
//! `specs/Begins.antt` says what comes of a store text at a start, `specs/Stops.antt` which refusal of the program's part counts, and
//! `specs/Lines.antt` what is written where nothing is executed, and where execution fails.
#![tactic(auto)]

mod begun;
mod lines;

pub use begun::{Begun, begin};
pub use lines::{fail_line, fault_line, refused_line, start_false_line};
