//! The theory of core formulas of WS2S: automata of the forms of formulas, the Peak, deciding in a context, and labelled
//! trees.
//!
//! No code runs here. `specs/Atoms.antt` has the automata of the five atoms, `specs/Merging.antt` which of their states
//! are one state of the minimal automaton in each space, and `specs/Peaks.antt` says which number the Peak of a formula
//! is. `specs/Contexts.antt` says which formulas are the same in a context and how a formula is rewritten in one, and
//! `specs/Trees.antt` which tree two trees under a root are, and at which positions nodes stand. Satisfaction, trees and
//! "recognises" are those of `ws2s_core`, automata, weights and Sizes those of `gta_theory`. Each function of this crate is
//! a law: its body is empty, and its clause holds of all guides and formulas, or is a worked example.
#![tactic(auto)]

mod atoms;
mod contexts;
mod forms;
mod label_trees;
mod merging;
mod peaks;
mod renamed;
mod worked;

pub use atoms::atoms_are_recognised;
pub use contexts::{
    quantifiers_keep_least_weights, quantifiers_keep_satisfiability,
    quantifiers_leave_conjunctions, relevant_conjuncts_hold_inside, rewritings_are_the_same,
    same_formulas_are_a_congruence, same_formulas_under_a_context_are_a_congruence,
    satisfaction_is_decided, satisfied_formulas_are_quantified,
};
pub use forms::{formulas_have_minimal_automata, formulas_have_sizes};
pub use label_trees::{
    nodes_have_spaces, nodes_stand_for_parts, steps_give_values, trees_are_joined,
    values_decide_acceptance,
};
pub use merging::{atoms_merge_by_space, child_tests_exist, equal_tracks_leave_one_state};
pub use peaks::{peak_goes_by_cases, peaks_are_unique, peaks_exist};
pub use renamed::names_of_tracks_change_no_peak;
pub use worked::{
    peak_of_a_root_within, peak_of_four_roots_within, peaks_of_one_position,
    sizes_of_a_root_within, sizes_of_atoms,
};
