//! Joins of functions from labels to states: for each label a rule's answer on the list of the functions' states.
//! Products, subset automata and quotients are joins with a rule. `specs/Asked.antt` says which lists a join asks,
//! `specs/Answers.antt` what a rule has answered, and `specs/Under.antt` what stands under a function and when a shelf
//! has too little room for it; `specs/Sets.antt` says which lists stand for sets of states, for a join whose rule answers by
//! sets. No crate above looks at the order in which a join asks, or at what it remembers.
#![tactic(auto)]

mod calls;
mod joiner;
mod laws;
mod many_roots;
mod one_root;
mod roots;
mod rule;
mod rules;
mod set_joiner;
mod set_roots;
mod sets;
mod sides;
mod stop;
mod two_roots;
mod walk;

pub use calls::{StateMap, join, rename, restrict};
pub use joiner::Joiner;
pub use laws::{a_joiner_fits_what_goes_on, a_set_joiner_fits_what_goes_on, joins_add_up};
pub use rule::{LeafRule, StateList};
pub use set_joiner::SetJoiner;
pub use sets::set_of;
pub use stop::{NoMemory, Stop};
