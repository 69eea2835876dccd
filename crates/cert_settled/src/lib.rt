//! The states that a dropped track starts with: each is initial, or comes of two that stand before it on a label with at most
//! that track, and no such step leads out of them. `specs/Settling.antt` says so of one step, and `specs/Settled.antt` of the
//! lines that tell them; and whether sets lead from these states on to the automaton of a quantified formula.
#![tactic(auto)]

mod closed;
mod laws;
mod lines;
mod quantified;
mod states;
mod steps;

pub use closed::is_closed;
pub use laws::{lines_have_one_first_fault, right_lines_tell_settled_lists};
pub use lines::{SettleFault, is_start, settle, settle_all};
pub use quantified::lead_to_quantified;
pub use states::{Placed, SettledStates};
pub use steps::{settles, step_of};
