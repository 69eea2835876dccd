//! Whole runs of a typed program: procedures run with loops and calls. No code runs here: each law is the contract of a function
//! that does nothing.
//!
//! `specs/States.antt` says where a run stands, `specs/Turns.antt` what one step does, `specs/Handing.antt` what a call hands over
//! and what stands after it, and `specs/Runs.antt` which answer a run has after so many steps. `specs/Leaving.antt` says what is
//! known of a callee's run at its return, `specs/FlowRuns.antt` where a flow leads from a store, `specs/Segments.antt` where a run
//! ends what it leads to, `specs/Safety.antt` when no triple fails and which stores a procedure starts from, and
//! `specs/Places.antt` that a procedure's cut points are told apart by their places.
//!
//! `laws`: a run has one answer. `handing`, `returning`: what a call hands over and what stands after it. `flows`, `segments`: runs
//! go as their flows between two cuts. `safety`: whole runs of a program whose triples never fail do not fail. `texts`: a program
//! that is read from a text has its cut points at distinct places. `answers`: runs have an answer (`proofs/AnswerStanding.antt` says
//! where a run may stand, whatever its triples are).
#![tactic(auto)]

mod answers;
mod flows;
mod handing;
mod laws;
mod returning;
mod safety;
mod segments;
mod texts;

pub use answers::runs_have_an_answer;
pub use flows::codes_run_as_their_flows;
pub use handing::handed_stores_meet_the_entry;
pub use laws::{runs_have_one_answer, runs_without_steps_are_running};
pub use returning::{returned_stores_are_well_formed, returned_stores_meet_the_start};
pub use safety::whole_runs_never_fail;
pub use segments::runs_go_as_their_flows;
pub use texts::{programs_of_texts_have_distinct_places, programs_of_texts_never_fail};
