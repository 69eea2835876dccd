//! The theory of guided tree automata: positions, assignments, guides, automata over any type of states, and the
//! laws that the automata crates stand on.
//!
//! No code runs here. `specs/Assignments.antt` says what a finite set of positions and an assignment are,
//! `specs/Guides.antt` what a guide is, `specs/Automata.antt` what an automaton is and what it accepts,
//! `specs/Constructions.antt` what the complement, the product and the subset automaton are, and
//! `specs/Minimal.antt` what a minimal automaton is. `specs/Generated.antt` has what a worklist finds,
//! `specs/Weights.antt` least weights, `specs/Sizes.antt` the Size, `specs/Numbered.antt` automata whose states are the
//! numbers below a count, and `specs/Renamed.antt` automata with their tracks renamed in order. Each function of this
//! crate is a law: its body is empty, and its clause holds of all guides and automata. States are numbers in a clause;
//! the lemmas of `proofs/`, which are public, say the same of any type of states.
#![tactic(auto)]

mod alike;
mod generated;
mod laws;
mod minimal;
mod numbered;
mod renamed;
mod sizes;
mod weights;

pub use alike::{
    alike_goes_both_ways, alike_goes_on, complements_of_alike_are_alike,
    products_of_alike_are_alike, reached_states_are_alike_to_themselves,
    subsets_of_alike_are_alike,
};
pub use generated::{
    closed_names_are_stable, generated_pairs_are_the_product,
    generated_sets_are_the_subset_automaton, generated_states_are_reached,
};
pub use laws::{
    complement_accepts_the_others, names_keep_acceptance, product_accepts_what_both_accept,
    product_is_stable, products_are_alike, subset_drops_a_track, subset_is_stable,
    subsets_are_alike, value_is_free_of_the_depth,
};
pub use minimal::{
    alike_automata_have_as_many_states, complement_stays_minimal, minimal_automata_are_alike,
    separated_classes_are_minimal, separated_states_are_told_apart,
};
pub use numbered::{
    finite_automata_can_be_numbered, minimal_automata_exist, products_exist, subsets_exist,
};
pub use renamed::{
    constructions_go_along_with_renamed_tracks, renamed_tracks_keep_sizes,
    renamed_tracks_keep_what_is_accepted,
};
pub use sizes::{
    alike_automata_have_equal_sizes, constructions_look_no_further,
    listed_pairs_and_parts_fit_in_the_size, minimal_automata_have_equal_sizes, sizes_are_unique,
    sizes_exist,
};
pub use weights::{
    fewer_positions_weigh_no_more, lightest_accepted_is_a_lightest_accepting_state,
    relaxed_weights_are_least, weight_is_free_of_the_depth,
};
