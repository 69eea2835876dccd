//! The pairs, the settled states and the sets of a section's steps, read line by line. `specs/States.antt` says which pairs and sets
//! are right, and `specs/Settled.antt` what is read of settled states.
#![tactic(auto)]

mod firsts;
mod pairs;
mod sets;
mod settled;

pub use pairs::read_pairs;
pub use sets::read_sets;
pub use settled::read_settled;
