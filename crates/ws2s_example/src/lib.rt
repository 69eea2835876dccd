//! Examples of WS2S texts: what is written of sets of positions that satisfy a text.
//!
//! `specs/Examples.antt` says which lines these are; `specs/Hanging.antt` where a node hangs in a tree.
#![tactic(auto)]

mod hanging;
mod lines;
mod sets;

pub use lines::example_lines;
