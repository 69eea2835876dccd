//! The text of a certificate, line by line, both ways. `specs/Spelling.antt` says how each line is spelled.
#![tactic(auto)]

mod fault;
mod laws;
mod line;
mod read;
mod write;

pub use fault::TextFault;
pub use laws::texts_begin_with_one_line;
pub use line::{
    ClassLine, Line, NodeLine, NumberList, PairLine, RootLine, SectionLine, SetLine, SettleLine,
    SpaceLine, StartLine, Target, Way,
};
pub use read::read_line;
pub use write::push_line;
