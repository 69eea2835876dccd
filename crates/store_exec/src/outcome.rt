//! Where code leads.

use crate::cause::Cause;
use store_core::Store;

/// Where a code leads from a store.
#[derive(Drop)]
pub enum Outcome {
    /// To the cut at this place in the triple's cuts, with this store.
    End(u32, Store),
    /// To a cause, at this line.
    Fail(Cause, u32),
}
