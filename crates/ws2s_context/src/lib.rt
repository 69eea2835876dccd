//! Formulas rewritten in their context, so that their automata stay small.
//!
//! What holds around a part of a formula is conjoined inside it: automata then need not tell apart assignments that are ruled
//! out outside. All goes on numbers of formulas, each of which is looked at once in each context. `specs/Going.antt` says
//! what a context holds, and what there is on the way. Which conjuncts come into contexts, and where they are conjoined, is
//! free: `src/choice.rt` has the two ways.
#![tactic(auto)]

mod blocks;
mod choice;
mod context;
mod crossing;
mod fronting;
mod hints;
mod machine;
mod making;
mod opening;
mod rewriting;
mod rewritings;
mod spine;
mod task;
mod uses;
mod visiting;

pub use opening::opened;
pub use rewriting::in_context;
