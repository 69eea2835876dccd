//! A rewriter that brings quantifiers into conjunctions and keeps the satisfying assignments.
//!
//! `specs/Narrowing.antt` says what it makes of a formula, from its parts up. It is done from the whole down: the
//! quantifiers that wait before a formula (`specs/Waiting.antt`) go into its sides or stay before it. `specs/Reading.antt`
//! says what they must know of each conjunction, and `specs/Taking.antt` what becomes of them there; `specs/Pending.antt`
//! says how they are found by their tracks.
#![tactic(auto)]

mod laws;
mod narrow;
mod pending;
mod sharing;
mod steps;

pub use laws::narrow_quantifiers_bind_both_sides;
pub use narrow::narrow_scope;
