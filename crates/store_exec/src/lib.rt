//! What the execution of loop-free code is, what holds at a cut point, and which stores meet a triple: codes and triples, definitions
//! and laws. `store_runner` executes.
//!
//! `specs/Steps.antt` says what one act does to a store, `specs/Runs.antt` where a code leads, `specs/Cuts.antt` which cause a cut
//! has, and `specs/Failing.antt` which stores meet a triple and how they fail.
#![tactic(auto)]

mod cause;
mod code;
mod fault;
mod frames;
mod halt;
mod laws;
mod outcome;
mod renaming;
mod triple;

pub use cause::Cause;
pub use code::{Code, Item, ItemList, Tail};
pub use fault::Fault;
pub use frames::{acts_leave_the_rest, runs_leave_the_rest};
pub use halt::Halt;
pub use laws::{
    acts_keep_stores_fitting, codes_keep_stores_fitting, cuts_leave_well_formed_stores,
    runs_go_by_cases,
};
pub use outcome::Outcome;
pub use renaming::{
    renaming_cells_keeps_cuts, renaming_cells_keeps_failing, renaming_cells_keeps_runs,
    renaming_cells_keeps_steps,
};
pub use triple::{Claim, ClaimList, Cut, CutList, Start, Triple};
