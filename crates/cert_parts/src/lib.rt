//! The atoms' automata as tables, as the parts of a section's steps. `specs/Atoms.antt` says which automaton an atom has, and
//! `specs/Leading.antt` what a target in decision nodes leads to.
#![tactic(auto)]

mod choice;
mod decide;
mod rows;
mod table;

pub use table::atom_table;
