//! What the triples of a typed program are: its procedures, cut at loops, at `split` and at calls. `hoare_triples` makes them.
//!
//! `specs/Triples.antt` says which triples a program has and what is refused, `specs/Statements.antt` what each statement means
//! for them, `specs/Flows.antt` where the code from a cut point leads, `specs/Cuts.antt` what is checked at each cut, and
//! `specs/Starts.antt` what holds where a triple starts. `specs/Fitting.antt` says when triples fit their program.
#![tactic(auto)]

mod arrivals;
mod caller;
mod calls;
mod counts;
mod laws;
mod measuring;
mod picking;
mod plain;
mod point;
mod settings;
mod starts;

pub use arrivals::{call_cut, plain_cut};
pub use caller::{Caller, caller_at, class_at, is_listed};
pub use calls::handed;
pub use laws::triples_of_programs_that_fit_fit;
pub use measuring::{Found, first_fault};
pub use picking::{Pick, is_argument};
pub use plain::{is_cut, push_item};
pub use point::Point;
pub use settings::set_picked;
pub use starts::{call_start, entry_start, plain_start};
