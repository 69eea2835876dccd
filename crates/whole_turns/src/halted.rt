//! A step that fails.

use store_core::Store;
use store_exec::Cause;

/// Why a step fails and at which line, and the store where the run stands: the one before an act or a condition, and the one that
/// arrives at a cut.
#[derive(Drop)]
pub(crate) struct Halted {
    pub cause: Cause,
    pub line: u32,
    pub at: Store,
}
