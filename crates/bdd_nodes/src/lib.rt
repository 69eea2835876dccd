//! Functions from labels to states, as shared decision nodes: each function has one node.
//! `specs/Nodes.antt` says which function a reference stands for, `specs/Shelf.antt` has the words on a shelf that
//! contracts cite, and `specs/Changes.antt` those on a change of one. A label says which tracks are set, and a track is
//! a plain number. No crate above looks at a node's index.
#![tactic(auto)]

mod collecting;
mod index;
mod laws;
mod node;
mod node_ref;
mod roots;
mod shelf;
mod within;

pub use laws::{
    equal_references, inner_references_change_with_their_first_track,
    other_references_differ_somewhere, reached_functions, small_states, unasked_tracks,
    unused_numbers,
};
pub use node_ref::NodeRef;
pub use roots::{RefList, TableId};
pub use shelf::read::Label;
pub use shelf::{Full, Shelf};
