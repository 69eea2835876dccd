//! A table of variables that are all data variables.

ghost use Rattle.std.specs.Prelude.{IfOk};
ghost use Rattle.store_sat.specs.RootTables.{AreDataVars};

use std::alloc::{AllocError, Global};
use store_core::{TypeId, VarKind, VarTable};

/// A table of so many variables, each a data variable.
pub(crate) fn data_vars(alloc: Global, count: u32) -> Result<VarTable, AllocError>
    ensures { IfOk result (AreDataVars count) }
{
    let mut table = VarTable::new(alloc);
    let mut name = Vec::new(alloc);
    while table.vars() < count {
        name.push(b'v')?;
        table.add(&name, VarKind::Data(TypeId(0)))?;
    }
    Ok(table)
}
