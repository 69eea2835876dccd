//! Lists, stacks and boxes that contracts see as what they hold: a tree of them is plain data to a clause, with no
//! pointer in it, so that a clause can say that it equals what a definition computes.
//!
//! `specs/formers` lets a type reach itself through them; the check proves those files against the structs. A box can
//! exchange its value in place, so that a tree is turned about and taken apart by a loop, with no memory of its own.
#![tactic(auto)]

mod boxed;
mod items;
mod stack;

pub use boxed::Boxed;
pub use items::{Items, at};
pub use stack::Stack;
