//! The abbreviations of core formulas: truth values, connectives, quantifiers over positions and sets, flags, slots and
//! children.
//!
//! `specs/Forms.antt` has each as a definition, with the tracks that its quantifiers bind, and each function here makes
//! exactly that formula. The module `laws` says what each means: functions with empty bodies, whose clauses hold of all
//! formulas and assignments. A track that is bound is above those in use.
#![tactic(auto)]

mod connectives;
pub mod laws;
mod lists;
mod places;
mod quantifiers;
mod tracks;

pub use connectives::{false_at, iff, imp, or, true_at};
pub use lists::{and_list, or_list};
pub use places::{child, empty_at, equal, flag, go, slot};
pub use quantifiers::{all1, all2, bound, ex1};
pub use tracks::{later, target};
