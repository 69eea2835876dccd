//! What every mode shares: the status of a call, the line of a refused text, and how a call ends after what its sink left.
//!
//! `specs/Statuses.antt` has the numbers, `specs/Report.antt` the lines that any mode may write, `specs/Written.antt` says what a sink
//! was told of an allowed output, and `specs/Texts.antt` how long a text may be.
#![tactic(auto)]

mod report;
mod status;
mod texts;
mod writing;

pub use report::refuse;
pub use status::Status;
pub use texts::MOST_BYTES;
pub use writing::{ended, say};
