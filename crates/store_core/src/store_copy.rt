//! Copies of stores and of what they are made of.

ghost use Rattle.std.specs.Prelude.{◌≡◌, IfOk};

use crate::store::CellBody;
use crate::value::Value;
use plain_data::Items;
use std::alloc::{AllocError, Global};

fn copy_slot(alloc: Global, slot: &Option<Value>) -> Result<Option<Value>, AllocError>
    ensures { IfOk result (λ copy. copy ≡ slot.now) }
{
    match slot {
        None => Ok(None),
        Some(value) => Ok(Some(value.copy(alloc)?)),
    }
}

fn copy_slots(alloc: Global, slots: &[Option<Value>]) -> Result<Items<Option<Value>>, AllocError>
    ensures { IfOk result (λ copies. copies ≡ slots.now) }
{
    let mut copies = Items::new(alloc);
    for slot in slots {
        copies.push(copy_slot(alloc, slot)?)?;
    }
    Ok(copies)
}

impl CellBody {
    /// An equal cell, in memory of its own.
    pub fn copy(&self, alloc: Global) -> Result<CellBody, AllocError>
        ensures { IfOk result (λ copy. copy ≡ self.now) }
    {
        Ok(CellBody {
            number: self.number,
            variant: self.variant,
            values: copy_slots(alloc, self.values.as_slice())?,
            is_live: self.is_live,
        })
    }
}

/// Equal cells in the same order.
pub(crate) fn copy_cells(alloc: Global, cells: &[CellBody]) -> Result<Vec<CellBody>, AllocError>
    ensures { IfOk result (λ copies. copies.items ≡ cells.now) }
{
    let mut copies = Vec::new(alloc);
    for cell in cells {
        copies.push(cell.copy(alloc)?)?;
    }
    Ok(copies)
}

/// Equal values in the same order.
pub fn copy_values(alloc: Global, values: &[Value]) -> Result<Items<Value>, AllocError>
    ensures { IfOk result (λ copies. copies ≡ values.now) }
{
    let mut copies = Items::new(alloc);
    for value in values {
        copies.push(value.copy(alloc)?)?;
    }
    Ok(copies)
}
