//! Automata as tables, whether tables of pairs lead from two of them to a third, and whether sets go along with the steps of
//! two. `specs/Automata.antt` says which automaton a table is, `specs/Pairs.antt` how pairs go along with steps, and
//! `specs/Sets.antt` how sets do.
#![tactic(auto)]

mod accepting;
mod class_sets;
mod class_triples;
mod conjunctions;
mod laws;
mod members;
mod orders;
mod pair_table;
mod pairs;
mod set_table;
mod sets;
mod table;

pub use accepting::accept_by_some;
pub use conjunctions::lead_to_conjunction;
pub use laws::tables_keep_their_automata;
pub use orders::{pair_may_follow, set_may_follow};
pub use pair_table::PairTable;
pub use pairs::{go_along, start_together};
pub use set_table::SetTable;
pub use sets::{set_goes_to, sets_go_along};
pub use table::{SpaceTable, Table, TargetList, accepts, class, initial, spot};
