//! The reduction of WS2S texts to core formulas.
//!
//! `specs/Reducing.antt` is the reduction as a function on checked texts. The module `laws` says that it keeps the
//! meaning, and `examples` are worked ones: functions with empty bodies, whose clauses hold of all texts.
#![tactic(auto)]

pub mod examples;
mod forms;
mod laws;
mod machine;
mod reduction;
mod size;
mod task;
mod tasks;
mod term;

pub use laws::reductions_mean_the_text;
pub use reduction::{ReduceFault, Reduced, reduce};
