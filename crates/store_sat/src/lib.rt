//! Whether a store satisfies an assertion: `store_logic`'s `Sat`, found by trying each cell and each set.
//!
//! `specs/Tasks.antt` says what is still to be judged and what frames make of it, and `specs/Steps.antt` what a step keeps.
#![tactic(auto)]

mod atoms;
mod bound;
mod judge;
mod region_cells;
mod root_table;
mod same_route;
mod spine;
mod task;
mod terms;
mod walks;
mod whole;

pub use terms::has;
pub use whole::sat;
