//! The modes that judge a program: `check`, `judge`, `meet` and `gen`, each over a text, or a seed, and a sink of bytes.
//!
//! `specs/Checking.antt` says what `check` writes for a text and with which status, `specs/Judging.antt` what `judge` does,
//! `specs/Meeting.antt` what `meet` does, and `specs/Generating.antt` what `gen` does for a seed. What all modes share is
//! `pale_status`'s.
#![tactic(auto)]

mod check;
mod check_parts;
mod generate;
mod judge;
mod meet;
mod nowhere;

pub use check::check_text;
pub use generate::gen_text;
pub use judge::judge_text;
pub use meet::meet_text;
