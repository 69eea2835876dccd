//! What a traced run gives.

use store_core::Store;
use store_trace::EventList;
use whole_turns::RunEnd;

/// What a run showed, and where it stands.
#[derive(Drop)]
pub struct RunTrace {
    /// What it showed, in order.
    pub events: EventList,
    /// The number of the procedure whose variables the store has: the one whose statement is next, or that fails or exits.
    pub proc: u32,
    /// The store where it stands: where it fails at an act or a condition the one before it, and at a cut the one that arrives there.
    pub at: Store,
    pub end: RunEnd,
}
