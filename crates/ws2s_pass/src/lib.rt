//! Passes: rewriters of core formulas that keep the satisfying assignments.
//!
//! `specs/Rewriting.antt` says what every rewriter and every pass keeps. What each rewriter makes of a formula is a
//! function on formulas: `specs/Flattening.antt`, `specs/Using.antt` and `specs/Constants.antt`. A formula is
//! gone through in postfix order, however deep it is (`specs/Folding.antt`). `specs/Applying.antt` says that the
//! passes of a list run one after the other.
#![tactic(auto)]

mod flatten;
mod fold;
mod laws;
mod pass;
mod passes;
mod unused;
mod used;

pub use flatten::flatten_not;
pub use fold::fold_constants;
pub use laws::{
    flattened_formulas_negate_no_negation, left_constants_are_whole, left_quantifiers_are_used,
};
pub use pass::{Pass, PassName, Rewriter};
pub use passes::{PassList, apply};
pub use unused::drop_unused;
pub use used::{Part, atom, conjunction, negation};
