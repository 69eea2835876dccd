//! What is handed to a procedure.

use plain_data::Items;
use store_core::VarId;

/// What is handed to a procedure for a parameter or a logic variable.
#[derive(Clone, Copy, Debug, PartialEq, Eq)]
pub enum Actual {
    Var(VarId),
    Null,
    Truth(bool),
}

/// What is handed over, in order.
pub type ActualList = Items<Actual>;
