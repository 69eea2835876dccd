//! The theory of sections: what shows that a formula has no satisfying assignment, and can be checked without
//! determinising, minimising or searching.
//!
//! No code runs here. `specs/Tables.antt` says how pairs and sets of the parts' states go to the states of an automaton,
//! `specs/Atoms.antt` which automata the atoms have, and `specs/Sections.antt` what a section is;
//! `specs/Worked.antt` has two worked out, and `specs/Agreeing.antt` says when automata agree. Each function of this
//! crate is a law: its body is empty, and its clause holds of all guides, formulas and sections.
#![tactic(auto)]

mod agreeing;
mod laws;
mod tables;
mod worked;

pub use agreeing::{
    pairs_lead_alike_for_automata_that_agree, sets_lead_alike_for_automata_that_agree,
};
pub use laws::{a_section_leaves_no_satisfying_assignment, automata_of_a_section_recognise};
pub use tables::{
    closed_starts_are_not_enough, pairs_lead_to_conjunctions, sets_lead_to_quantified_formulas,
    settled_lists_have_the_settled_states,
};
pub use worked::{a_contradiction_has_a_section, a_quantified_formula_has_a_section};
