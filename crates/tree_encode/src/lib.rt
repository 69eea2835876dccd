//! Stores as trees: which track each part of a store has, where the cells lie, and the guide of the tree.
//!
//! `specs/Tracks.antt` lists the tracks in order and says which number each has, with the slots of data variables and the
//! numbers of children; `specs/Spaces.antt` has the guide's spaces in order, and `specs/Positions.antt` where cells stand. The
//! module `laws` says that the number of a track is its place in the list, that cells at one position are one cell, and which
//! space a cell's position is in: functions with empty bodies. No crate above looks at how a layout keeps its numbers.
#![tactic(auto)]

mod counting;
mod index;
pub mod laws;
mod layout;
mod spaces;
mod targets;

pub use layout::{Layout, VariantList};
