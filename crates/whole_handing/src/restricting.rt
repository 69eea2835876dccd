//! Logic sets restricted to the live cells.

ghost use Rattle.std.specs.Prelude.{◌≡◌, IfOk, filter, is_some, length};
ghost use Rattle.store_core.specs.CellLists.{AreRising};
ghost use Rattle.store_core.specs.Stores.{cell_of};
ghost use Rattle.store_exec.specs.Restricted as sets;

use std::alloc::{AllocError, Global};
use store_core::{CellId, CellList, Store, Value, VarId, VarTable};

/// The cells among these, whose numbers rise, that are live.
fn live_of(alloc: Global, store: &Store, cells: &[CellId]) -> Result<CellList, AllocError>
    requires { AreRising cells.now }
    ensures { IfOk result (λ live. live ≡ filter (λ c. is_some (cell_of store.now c)) cells.now) }
{
    let mut live = CellList::new(alloc);
    for cell in cells {
        if store.type_of(*cell).is_some() {
            live.push(*cell)?;
        }
    }
    Ok(live)
}

/// The live cells of a logic set; any other value as it is.
fn live_part(alloc: Global, store: &Store, value: &Value) -> Result<Value, AllocError>
    ensures { IfOk result (λ part. part ≡ sets.live_part store.now value.now) }
{
    match value {
        Value::Bool(truth) => Ok(Value::Bool(*truth)),
        Value::Cell(cell) => Ok(Value::Cell(*cell)),
        Value::Cells(cells) => Ok(Value::Cells(live_of(alloc, store, cells.as_slice())?)),
    }
}

/// The store with its logic sets restricted to the live cells. It has a value for each variable of the table.
pub fn restricted(alloc: Global, vars: &VarTable, store: Store) -> Result<Store, AllocError>
    requires { length store.vars ≡ length vars.now }
    ensures { IfOk result (λ after. after ≡ sets.restricted store) }
{
    let mut after = store;
    for index in 0..vars.vars() {
        let Some(value) = after.var(VarId(index)) else {
            unreachable!()
        };
        let part = live_part(alloc, &after, value)?;
        after.set_var(VarId(index), part);
    }
    Ok(after)
}
