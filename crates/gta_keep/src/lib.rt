//! Automata of formulas that stand in a shelf, each with a table of its own: those that wait, and those that are kept for
//! formulas that may be asked for again.
//!
//! `specs/Holding.antt` says what a shelf holds. Each call says what it lets go of and what comes, beside any others that
//! wait. `Limit` is answered only where what is needed at once is more than the shelf's limit: at a builder's first one
//! what is kept is let go of and the shelf collected.
#![tactic(auto)]

mod building;
mod kept;
mod laws;
mod merging;
mod pairs;

pub use building::{build_atom, conjoin, quantify};
pub use kept::Kept;
pub use laws::{
    automata_have_sizes, copies_are_minimal, held_automata_have_room, held_automata_outlive_changes,
};
pub use pairs::{pairs_of, places_of};
