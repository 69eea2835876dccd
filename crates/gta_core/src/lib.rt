//! Guided tree automata whose functions are decision nodes of a shelf.
//!
//! `specs/Auto.antt` says which automaton of `gta_theory` an `Auto` stands for in a shelf (`automaton_of`), and when it is
//! one there (`IsAuto`); crates above cite these words alone. No crate above looks at how the roots of a table are shared.
//! Functions with empty bodies are laws: `laws` has what outlives which change of a shelf, and `sizes` how many nodes
//! automata have there.
#![tactic(auto)]

mod acceptance;
mod auto;
mod build;
mod factored;
mod laws;
mod part;
mod sizes;

pub use acceptance::accepts;
pub use auto::{Auto, BoolList, release};
pub use build::{SpacePart, SpacePartList};
pub use factored::FactoredPart;
pub use laws::{automata_outlive_changes, tables_outlive_changes};
pub use part::Part;
pub use sizes::nodes_fit_in_sizes;
