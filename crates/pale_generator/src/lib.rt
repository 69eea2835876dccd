//! The programs of the generator: realistic modules of list and tree procedures, one for each seed.
//!
//! `specs/Generated.antt` has their text.
#![tactic(auto)]

mod generator;

pub use generator::gen_program;
