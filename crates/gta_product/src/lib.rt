//! Products and complements of guided tree automata.
#![tactic(auto)]

mod classes;
mod filling;
mod growing;
mod numbering;
mod pairing;
mod tables;
mod turning;

pub use pairing::product;
pub use turning::complement;
