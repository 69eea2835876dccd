//! Decision nodes of certificates, and walks down from many places in them at once. `specs/Nodes.antt` says which nodes may
//! follow one another and what they lead to, `specs/Spots.antt` what spots in them lead to. No crate above looks at the order
//! of a walk, or at what it remembers.
#![tactic(auto)]

mod met;
mod nodes;
mod sides;
mod spots;
mod walk;

pub use met::SpotListSet;
pub use nodes::{NodeFault, NodeTable};
pub use spots::{Diagrams, Spot};
pub use walk::{StateList, led_to};
