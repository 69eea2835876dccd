//! Automata whose functions are listed, and which of their states are reached.
//!
//! No shelf is looked at: an automaton is a `Form`, whose functions stand in listings of decision nodes.
//! `specs/Form.antt` says which automaton of `gta_theory` a form stands for, `specs/Reached.antt` which states are reached, and
//! `specs/Sides.antt` what a child is on the left and on the right.
#![tactic(auto)]

mod explore;
mod form;
mod reached;
mod sides;
mod sweep;

pub use form::{Form, FormSpace, FormSpaceList};
pub use reached::reach;
pub use sides::{Side, above, cell_of, child, kinds_of, listed_of};
