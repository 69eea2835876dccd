//! The tree that the acts of a reading make.
//!
//! The reader of `ll1_reader` tells in which order a text's tokens are taken and which acts of the grammar of programs stand
//! between them; `Parts` holds what is made so far, and does one act after the other. What each of them makes stands in
//! `specs/Making.antt` of `pale_syntax`. `pale_parse` calls it, and knows nothing of how a tree is made.
//!
//! A tree that is not needed, or that is left over where memory runs out, is dropped in a call of a generic function, as
//! `drop`: where a block's end drops it, the proof goes through all forms that the tree may have, at each such end.
#![tactic(auto)]

mod assertions;
mod atoms;
mod calls;
mod chains;
mod conditions;
mod declarations;
mod forms;
mod names;
mod parts;
mod perform;
mod procedures;
mod routes;
mod statements;
mod takes;
mod words;

pub use parts::{Parts, nothing};
