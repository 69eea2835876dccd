//! How a run ends.

use store_exec::Cause;

/// How a run ends that has so many steps at most.
#[derive(Clone, Copy, Debug, PartialEq, Eq)]
pub enum RunEnd {
    /// It needs more steps.
    Running,
    /// It fails with this cause at this line.
    Fail(Cause, u32),
    /// The procedure exits.
    Exit,
}
