//! A store text, brought to a start.

ghost use Rattle.std.specs.Prelude.{◌<◌, length, IfOk};
ghost use Rattle.store_core.specs.Stores.{Fits};
ghost use Rattle.store_text.specs.Lines.{lines_of};
ghost use Rattle.store_exec.specs.Fits.{StartFits};
ghost use Rattle.pale_starts.specs.Begins.{StandsAt, Begins};

use routing_expr::well_formed;
use routing_walks::WfFault;
use std::alloc::{AllocError, Global};
use store_core::{Store, TypeTable, VarTable};
use store_exec::Start;
use store_runner::meets;
use store_text::{StoreFault, StoreKind, read_store, read_stores_fit};

/// What comes of a store text at a start.
#[derive(Drop)]
pub enum Begun {
    /// The text is refused at a line of it, counted from 1.
    Refused(StoreFault),
    /// The store isn't well-formed.
    NotWellFormed(WfFault),
    /// The start doesn't hold in the store.
    StartFalse,
    /// The store is well-formed, and the start holds.
    Meets(Store),
}

/// What comes of a store at a start.
fn bring(
    alloc: Global,
    types: &TypeTable,
    vars: &VarTable,
    start: &Start,
    store: Store,
) -> Result<Begun, AllocError>
    requires start { StartFits types.now vars.now start.now }
    requires store { Fits types.now vars.now store }
    ensures { IfOk result (StandsAt types.now vars.now start.now store) }
{
    if let Some(fault) = well_formed(alloc, types, vars, &store)? {
        return Ok(Begun::NotWellFormed(fault));
    }
    if !meets(alloc, types, vars, start, &store)? {
        return Ok(Begun::StartFalse);
    }
    Ok(Begun::Meets(store))
}

/// What comes of a store text at a start, which fits the tables.
///
/// # Errors
///
/// Want of memory.
pub fn begin(
    alloc: Global,
    types: &TypeTable,
    vars: &VarTable,
    start: &Start,
    text: &[u8],
) -> Result<Begun, AllocError>
    requires short { length text.now < u32.MAX }
    requires start { StartFits types.now vars.now start.now }
    ensures { IfOk result (Begins types.now vars.now start.now (lines_of text.now)) }
{
    read_stores_fit();
    match read_store(alloc, types, vars, text) {
        Ok(store) => bring(alloc, types, vars, start, store),
        Err(fault) if fault.kind == StoreKind::NoMemory => Err(AllocError),
        Err(fault) => Ok(Begun::Refused(fault)),
    }
}
