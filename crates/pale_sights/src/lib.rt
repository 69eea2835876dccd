//! What a procedure declares before its body, and what each place of it sees of its variables.
//!
//! `specs/Variables.antt` says what parameters, results, locals and logic variables are and what is refused of them first,
//! `specs/Formals.antt` what procedures declare for their callers, `specs/Sights.antt` what each place sees, and
//! `specs/Headings.antt` what is declared before a body.
#![tactic(auto)]

mod formals;
mod headings;
mod sights;
mod variables;

pub use formals::signatures_of;
pub use headings::{Lists, lists_of, read_heading};
pub use sights::{Frame, Heading, frame_of, heading_sight};
pub use variables::{Variable, read_variables};
