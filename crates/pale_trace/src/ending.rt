//! How a text that is traced ends.

use routing_walks::WfFault;
use store_core::ByteList;
use store_exec::Cause;
use store_text::StoreKind;

/// What comes of the store of a text whose program has no fault.
#[derive(Clone, Copy, Debug, PartialEq, Eq)]
pub enum Ending {
    /// The part after the line `---` is refused at this line of it, counted from 1; the line is 0 where there is no line `---`.
    StoreRefused(u64, StoreKind),
    /// The store isn't well-formed.
    NotWellFormed(WfFault),
    /// The store doesn't meet the triple, or the procedure's entry.
    StartFalse,
    /// Execution fails, or a cut that it reaches does, with this cause at this line.
    Fails(Cause, u32),
    /// The triple's code ends at the cut with this line, and nothing is wrong there.
    Ends(u32),
    /// The run needs more steps.
    Running,
    /// The procedure exits.
    Exits,
}

/// How it ends, and the text that is written of it.
#[derive(Debug, Drop)]
pub struct Trace {
    pub ending: Ending,
    pub text: ByteList,
}
