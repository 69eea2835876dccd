//! Cells that no path of data fields reaches from a data variable.

ghost use Rattle.std.specs.Prelude.{◌<◌, length, IfOk, IfNone, IfSome, Contains};
ghost use Rattle.store_core.specs.declared.ids.CellId.{CellId};
ghost use Rattle.store_core.specs.declared.ids.VarId.{VarId};
ghost use Rattle.store_core.specs.Stores.{IsLive};
ghost use Rattle.routing_walks.specs.WellFormed.{IsLeaked, IsFirstCell};
ghost use Rattle.routing_walks.specs.Reaching.{IsInSomeTree};

use crate::numbers::least;
use crate::reach::unreached;
use std::alloc::{AllocError, Global};
use store_core::{CellId, Store, TypeTable, VarId, VarTable};

/// All variables, of which the data variables are roots.
fn all_vars(alloc: Global, vars: &VarTable) -> Result<Vec<VarId>, AllocError>
    ensures { IfOk result (λ roots. (v : VarId) → v.0 < length vars.now → Contains roots.items v) }
{
    let mut roots = Vec::new(alloc);
    for index in 0..vars.vars() {
        roots.push(VarId(index))?;
    }
    Ok(roots)
}

/// The live cell with the least number that no path of data fields reaches from a data variable; `None` exactly where each is
/// reached.
pub(crate) fn first_leak(
    alloc: Global,
    types: &TypeTable,
    vars: &VarTable,
    store: &Store,
) -> Result<Option<CellId>, AllocError>
    ensures none { IfOk result (λ found. IfNone found ((c : CellId) → IsLive store.now c → IsInSomeTree types.now vars.now store.now c)) }
    ensures some { IfOk result (λ found. IfSome found (IsFirstCell (IsLeaked types.now vars.now store.now))) }
{
    let roots = all_vars(alloc, vars)?;
    let left = unreached(alloc, types, vars, store, roots.as_slice())?;
    Ok(least(&left))
}
