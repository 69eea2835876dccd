//! Judging a triple: no store that meets it fails, or a least one that does, with its cause and line.
//!
//! The places where the triple can fail, its sites, are decided in order, each by its formula over trees; of the sites with a lightest
//! tree the first counts. `specs/Judging.antt` says when each answer stands, `specs/Standing.antt` which triples can be judged,
//! `specs/Spares.antt` which cells have spare slots, and `specs/Searching.antt` what is known once some sites are decided.
#![tactic(auto)]

mod judging;
pub mod laws;
mod making;
mod searching;
mod verdicts;

pub use judging::{Judged, judge};
