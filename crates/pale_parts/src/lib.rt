//! The parts of a text: its program, a line `---`, and behind it what is asked of the program.
//!
//! `specs/Parts.antt` says how a text is cut, and `specs/Requests.antt` which one line asks for something.
#![tactic(auto)]

mod parts;
mod request;
mod run_line;

pub use parts::{cut_text, split_line, triple_in};
pub use request::{Request, RequestFault, RequestKind, request_in, request_line};
pub use run_line::run_in;
