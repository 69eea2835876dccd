//! Decision nodes of a shelf, listed: the nodes under some roots, each once, with the sides of a node before it. What is
//! listed can be gone over by loops, with arrays beside it, and no shelf is looked at again. `specs/Listing.antt` says
//! which function what is listed stands for.
#![tactic(auto)]

mod listing;
mod walk;

pub use listing::{Listed, ListedList, ListedNode, ListedNodeList, Listing};
pub use walk::list_nodes;
