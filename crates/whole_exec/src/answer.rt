//! What comes of a run.

use store_core::Store;
use store_exec::Cause;

/// What comes of a run that has so many steps at most.
#[derive(Drop)]
pub enum Answer {
    /// It needs more steps.
    Running,
    /// It fails with this cause at this line.
    Fail(Cause, u32),
    /// The procedure exits with this store.
    Exit(Store),
}
