//! That no position has cells of two variants, of one type or of two, as a formula that follows from the formula of trees.
//!
//! `specs/Apart.antt` has the formula, and says when a formula holds of trees. Whoever decides a formula that has the formula of
//! trees as a conjunct may join this one to it, and nothing else is satisfied then.
#![tactic(auto)]

mod apart;
pub mod laws;
mod variants;

pub use apart::cells_apart;
