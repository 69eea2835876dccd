//! From a tree that lays out a backbone to its store, and pointer fields that are set to their destinations.
//!
//! `specs/Orders.antt` says in which order the nodes of a tree are gone through. What the store of an assignment is stands in
//! `tree_store`. `specs/Pointers.antt` says what a pointer field is set to, and what is the same in two stores that differ in
//! their pointer fields alone.
#![tactic(auto)]

mod cells;
mod decoding;
mod fields;
mod finding;
pub mod laws;
mod nodes;
mod pointer_laws;
mod preorder;
mod setting;
mod variables;

pub use decoding::{backbone_of, decode};
pub use pointer_laws::{pointers_can_be_set, pointers_dont_count};
pub use setting::set_pointers;
