//! What a whole run shows step by step, and where it stands at its end. No code runs here: the laws are the contract of a function
//! that does nothing.
//!
//! `specs/Shown.antt` says what the next step shows, `specs/Stopping.antt` at which store it would stop, and `specs/Traces.antt` what a
//! run shows and where it stands.
#![tactic(auto)]

mod laws;

pub use laws::traces_are_whole_runs;
