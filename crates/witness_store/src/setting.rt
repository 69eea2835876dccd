//! How pointer fields are set.

ghost use Rattle.std.specs.Prelude.{◌≡◌, List, IfOk, OnOk, OnErr};
ghost use Rattle.store_core.specs.Tables.{VarEntry};
ghost use Rattle.store_core.specs.Stores.{Fits, IsFresh};
ghost use Rattle.witness_store.specs.Pointers.{ArePointersSet, DoCellsFit, IsSameButPointers};

use crate::finding::find_pointings;
use std::alloc::{AllocError, Global};
use store_core::{Store, TypeTable, Value};

/// Sets each pointer field that a live cell has to its only destination, and to null where there is none and where there are
/// several. Nothing else changes. (Klarlund and Schwartzbach, POPL 1993.)
///
/// # Errors
///
/// Want of memory, and then the store is as it was.
pub fn set_pointers(alloc: Global, types: &TypeTable, store: &mut Store) -> Result<(), AllocError>
    requires { DoCellsFit types.now store.old }
    ensures pointers { OnOk result (ArePointersSet types.now store.new) }
    ensures kept { IsSameButPointers types.now store.old store.new }
    ensures fits { (vars : List VarEntry) → Fits types.now vars store.old → Fits types.now vars store.new }
    ensures fresh { IsFresh store.old → IsFresh store.new }
    ensures err { OnErr result (store.new ≡ store.old) }
{
    let found = find_pointings(alloc, types, store)?;
    for pointing in &found {
        store.set_field(pointing.cell, pointing.field, Value::Cell(pointing.to));
    }
    Ok(())
}
