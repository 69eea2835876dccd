//! What a step shows.

use plain_data::Items;
use store_core::{CellId, Value, VariantId};
use store_logic::Path;

/// Events in the order in which they come.
pub type EventList = Items<Event>;

/// One thing that a step shows. The number that stands first is the line of the step.
#[derive(Debug, Drop)]
pub enum Event {
    /// The place, in the variables of the procedure that runs, has this value now.
    Assign(u32, Path, Value),
    /// A cell of the variant is made, before it is assigned.
    New(u32, CellId, VariantId),
    /// The cell is freed.
    Free(u32, CellId),
    /// A whole condition has this truth, or an assertion held.
    Truth(u32, bool),
    /// A cut is passed, or ended at.
    Cut(u32),
    /// The procedure of this number is called: the call's cut is passed.
    Call(u32, u32),
    /// The procedure that runs returns to the last call that waits, and the results are assigned.
    Return,
}
