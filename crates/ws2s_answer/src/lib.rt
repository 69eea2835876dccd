//! What is said of a WS2S text: that nothing satisfies it, that everything does, or an example of least total size.
//!
//! `specs/Answering.antt` says when each answer stands, and `specs/Within.antt` when the limit doesn't.
#![tactic(auto)]

mod answer;
mod laws;

pub use answer::{Answer, answer_of};
pub use laws::limits_are_no_answers_within_the_peak;
