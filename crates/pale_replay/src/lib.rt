//! The mode `replay`: a store executed through a triple of a program.
//!
//! `specs/Replays.antt` says what comes of a store in a triple, `specs/Replaying.antt` what is said of a text, whose parts
//! `pale_parts` has, and `specs/Lines.antt` in which words.
#![tactic(auto)]

mod answer;
mod lines;
mod replaying;
mod stores;

pub use answer::{Answer, Replay};
pub use lines::end_line;
pub use replaying::replay;
