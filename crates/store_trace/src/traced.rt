//! What a traced execution gives.

use crate::event::EventList;
use store_core::Store;
use store_exec::Fault;

/// What an execution showed, and where it ended.
#[derive(Drop)]
pub struct Traced {
    /// What it showed, in order.
    pub events: EventList,
    /// The store where it stands: the one with which it ended, or the one before the step that failed.
    pub at: Store,
    /// The end, or the fault that stopped it.
    pub end: Result<u32, Fault>,
}
