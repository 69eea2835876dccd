//! A predictive reader, driven by a table, for any LL(1) grammar: the next token tells the next row.
#![tactic(auto)]

mod grammar;
mod laws;
mod predict;
mod reader;
mod step;
mod stop;
mod symbol;
mod work;

pub use grammar::Grammar;
pub use laws::{each_sentence_has_a_reading_that_counts, one_reading_counts};
pub use reader::read;
pub use stop::ReadStop;
pub use symbol::{Event, Symbol};
