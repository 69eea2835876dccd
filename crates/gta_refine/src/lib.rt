//! Which states of a guided tree automaton can't be told apart.
//!
//! An automaton is a `Form` of `gta_reach`, whose reached states are split into classes. `specs/Refined.antt` says what the classes
//! of its states are.
#![tactic(auto)]

mod cascade;
mod choices;
mod firsts;
mod givers;
mod numbers;
mod rounds;
mod rows;
mod scratch;
mod uses;

pub use gta_classes::{NumberList, SpaceClasses, SpaceClassesList};
pub use numbers::{reference, references};
pub use rounds::refine;
