//! What is said of a typed program: of its pointer fields in order, and where all are functional of its triples in order.
//!
//! `specs/Lines.antt` has the lines, as bytes, and `specs/Reports.antt` says which are written. A report is made for one field or
//! one triple at a time, so that each can be written before the next is judged.
//!
//! `specs/Meets.antt` says what is written of the starts of triples: a least store that meets each, or that none does. A triple is
//! asked by judging another one in its place, which starts alike and asserts falsehood, by `specs/Starts.antt`.
#![tactic(auto)]

mod asking;
mod fields;
pub mod laws;
mod lines;
mod meet_counts;
pub mod meet_laws;
mod meet_way;
mod meets;
mod pointers;
mod totals;
mod triples;
mod ways;

pub use fields::field_report;
pub use meet_counts::meet_totals;
pub use meet_way::MeetWay;
pub use meets::meet_report;
pub use pointers::pointer_fields;
pub use totals::{invalid_count, limit_count, totals_text, valid_count};
pub use triples::triple_report;
pub use ways::{Ending, FieldWay, TripleWay, are_functional, judged_ending, stopped_ending};
