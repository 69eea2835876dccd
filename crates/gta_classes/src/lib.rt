//! Classes of the reached states of a space, which are split by numbers of the states, and cut by lists of them in a time
//! that goes by what the lists touch.
//!
//! `specs/Classes.antt` says what classes are and how they are split, and `specs/Cuts.antt` how they are cut. Nothing here
//! knows of automata.
#![tactic(auto)]

mod chosen;
mod cutting;
mod lists;
mod part;
mod splitting;

pub use chosen::{choose, is_marked, mark, unmark, unmark_all};
pub use cutting::{add_members, cut};
pub use lists::{
    NumberLists, add_at, distinct, empty_lists, gather, list_of, number_of, numbers_at, set_at,
};
pub use part::{NumberList, SpaceClasses, SpaceClassesList};
pub use splitting::split;
