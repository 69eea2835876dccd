//! The logic of stores: assertions, in which preconditions, invariants and `assert` are written, the predicates that they use,
//! the regions on which they are read, and the acts of code that stand beside them.
//!
//! `specs/Satisfaction.antt` says when a store satisfies an assertion on a region, and `specs/Terms.antt` what its terms stand
//! for; `specs/Expansion.antt` what an assertion is with its predicates put in, by `specs/Filling.antt`, and `specs/Uses.antt`
//! when they can be put in. `specs/Fits.antt` and `specs/FitsCode.antt` say when assertions, regions, conditions and acts fit
//! their tables. `specs/Laws.antt` has what holds of satisfaction.
#![tactic(auto)]

mod act;
mod arg;
mod assertion;
mod assertion_copy;
mod cond;
mod cond_copy;
mod expanding_laws;
mod laws;
mod path;
mod postfix;
mod pred;
mod rebuilding;
mod region;
mod renaming;
mod term;

pub use act::{Act, Rhs};
pub use arg::{Arg, ArgList};
pub use assertion::Assertion;
pub use cond::Cond;
pub use expanding_laws::{
    arguments_go_into_arguments, arguments_keep_the_size, expansions_keep_satisfaction,
    expansions_use_no_predicates,
};
pub use laws::{
    regions_are_stores_of_their_cells, satisfaction_goes_by_cases,
    satisfaction_ignores_the_next_number,
};
pub use path::{Operand, Path};
pub use pred::{PredDef, Preds};
pub use region::{Region, VarList};
pub use renaming::renaming_cells_keeps_satisfaction;
pub use term::{Base, FieldList, Term};
