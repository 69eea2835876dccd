//! What can be wrong with a store, and where.

use store_core::{CellId, FieldId, VarId};

/// Where a value stands in a store.
#[derive(Clone, Copy, Debug, PartialEq, Eq)]
pub enum Place {
    /// In a variable.
    Var(VarId),
    /// In a field of a live cell.
    Field(CellId, FieldId),
}

/// Why a store isn't well-formed: the first fault, in the order of the kinds below.
#[derive(Clone, Copy, Debug, PartialEq, Eq)]
pub enum WfFault {
    /// This is the first place that holds a dead cell: variables in order, then cells by number, then fields in order.
    Dangling(Place),
    /// This is the live cell with the least number that is named twice by data variables and data fields.
    Shared(CellId),
    /// This is the live cell with the least number that no path of data fields reaches from a data variable.
    Leak(CellId),
    /// This is the first pointer field, cells by number and then fields in order, that isn't the only destination of its cell,
    /// nor null where there is none.
    Field(CellId, FieldId),
}

/// Which condition of a cut a store breaks: the first, in the order of the causes below.
#[derive(Clone, Copy, Debug, PartialEq, Eq)]
pub enum CutFault {
    /// A variable, or a field of a live cell, names a dead cell.
    DanglingReference,
    /// A live cell is named twice by data variables and data fields.
    Shared,
    /// A live cell isn't reached from a data variable by data fields.
    Leak,
    /// A pointer field isn't the only destination of its cell, nor null where there is none.
    Field,
}
