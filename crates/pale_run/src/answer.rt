//! What is said of a text that is run.

use routing_walks::WfFault;
use store_core::ByteList;
use store_text::StoreKind;

/// What comes of the store of a text whose program has no fault.
#[derive(Drop)]
pub enum Answer {
    /// The part after the line `---` is refused at this line of it, counted from 1; the line is 0 where there is no line `---`.
    StoreRefused(u64, StoreKind),
    /// The store isn't well-formed.
    NotWellFormed(WfFault),
    /// The store doesn't meet the triple that starts at the procedure's entry.
    StartFalse,
    /// The procedure was run, and this is the run's answer.
    Ran(whole_exec::Answer),
}

/// An answer, and the text that is written of it.
#[derive(Drop)]
pub struct Run {
    pub answer: Answer,
    pub text: ByteList,
}
