//! Sets of states of an automaton: their numbers, the classes that have the same roots, the roots for them, and the sets that a
//! projection begins with.
//!
//! `bdd_walk/specs/Sets.antt` says which lists stand for sets of states, and `specs/Subsets.antt` how sets step.
#![tactic(auto)]

mod classes;
mod closing;
mod numbering;
mod roots;
mod shorts;

pub use classes::{Classes, classify, key_of, note};
pub use closing::initial_sets;
pub use numbering::{Numbering, room_for};
pub use roots::roots_at;
pub use shorts::{classes_in, one_a_class, shortened};
