//! Judging a pointer field: it is functional, or a least backbone has a cell with two destinations for it.
//!
//! `specs/Judging.antt` says when each answer stands, and `specs/OneEach.antt` over which variables that backbone is. How a formula
//! comes to its verdict by way of passes, under which guide it is tried first, and which tracks are weighed, is the same for
//! triples.
#![tactic(auto)]

mod forks;
mod guides;
mod judging;
pub mod laws;
mod variables;
mod verdicts;
mod weighing;

pub use guides::{FEW_VARIABLES, first_guide};
pub use judging::{FieldJudged, judge_field};
pub use variables::one_each;
pub use verdicts::verdict_on;
pub use weighing::weighed;
