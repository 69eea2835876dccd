//! Labels, which say of each track whether it is set, and functions of labels.
//!
//! No code runs here. `specs/Labels.antt` has the words, and `proofs/LabelsLemmas.antt` what the other crates' proofs
//! cite of them.
#![tactic(auto)]
