//! The checker of certificates' sections. `specs/Told.antt` says which lines are a section of a formula; inside,
//! `specs/Standing.antt` says what the checker knows after so many steps.
//!
//! It stands on no crate that determinises, minimises or decides.
#![tactic(auto)]

mod board;
mod due;
mod firsts;
mod laws;
mod nodes;
mod numbering;
mod reached;
mod section;
mod steps;

pub use cert_steps::FaultKind;
pub use laws::{lines_that_show_leave_no_satisfying_assignment, worked_lines_show_a_contradiction};
pub use section::{CertFault, SectionStop, check_section};
