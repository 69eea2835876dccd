//! An interpreter of whole runs: procedures run with loops and calls, for at most so many steps.
//!
//! `specs/Answers.antt` says what its answers mean, and `specs/Starting.antt` which stores it starts from. One step is `whole_turns`'s.
//!
//! It takes memory, and never more steps than it is given. But for want of memory it always answers, and with the answer that the run
//! has: so each run that starts so has an answer for each number of steps.
#![tactic(auto)]

mod answer;
mod running;
mod traced;

pub use answer::Answer;
pub use running::{run_procedure, trace_procedure};
pub use traced::RunTrace;
pub use whole_turns::RunEnd;
