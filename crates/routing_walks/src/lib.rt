//! Walks, destinations and well-formed stores: what they are, and what holds of all of them, each law the contract of a function
//! that does nothing.
//!
//! `specs/Walks.antt` says what a walk is, `specs/Destinations.antt` what a destination is, `specs/WellFormed.antt` when a store
//! is a backbone, when it is well-formed and which of its faults comes first, `specs/CutFaults.antt` which condition of a cut a
//! store breaks first, `specs/Regions.antt` what a store on a set of cells is, and `specs/Laws.antt` what holds of all walks.
//! `specs/Deciding.antt` says what it is to be decided, `specs/Shown.antt` what shows that a store isn't well-formed,
//! `specs/Paths.antt` what the path to a cell is, `specs/Pieces.antt` what a piece of a store is, `specs/Hanging.antt` when the
//! variables of a store name its roots, and `specs/Pairing.antt` when two stores are the same but for the names of their cells.
//! What is looked for in a store by these words stands in `routing_expr`.
#![tactic(auto)]

mod decided;
mod fault;
mod functional;
mod hanging;
mod laws;
mod paths;
mod pieces;
mod regions;
mod renaming;

pub use decided::{
    faults_are_decided, leaks_are_shown, stores_are_decided, walks_are_decided, walks_are_finite,
    wrong_fields_are_shown,
};
pub use fault::{CutFault, Place, WfFault};
pub use functional::{
    one_variable_a_type_is_enough, two_ways_are_not_functional, ways_up_are_functional,
};
pub use hanging::{parts_hang_under_other_variables, stores_are_put_together};
pub use laws::{
    data_walks_stay_in_one_tree, walks_go_by_cases, walks_join_live_cells, walks_see_cells_alone,
    well_formed_stores_are_fresh,
};
pub use paths::{
    cells_have_one_path, paths_have_no_cycle, paths_lead_to_one_cell, trees_are_paths,
};
pub use pieces::{
    pieces_have_their_cells, pieces_of_backbones_are_backbones,
    pieces_of_well_formed_stores_are_well_formed, two_pieces_are_a_backbone,
    two_pieces_are_well_formed,
};
pub use regions::{
    parts_are_apart, regions_keep_walks, stores_on_sets_have_their_cells, walks_see_their_set_alone,
};
pub use renaming::renaming_cells_renames_all;
