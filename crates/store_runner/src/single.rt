//! One step alone.

ghost use Rattle.std.specs.Prelude.{[], ◌∷◌};
ghost use Rattle.store_exec.specs.declared.code.Item.TheVariants as item;
ghost use Rattle.store_exec.specs.Going.{CanRun, IsTruthAt};
ghost use Rattle.store_runner.specs.Recordings.{DoesWell};

use crate::items::{do_act, truth_at};
use std::alloc::{AllocError, Global};
use store_core::{Store, TypeTable, Value};
use store_exec::Fault;
use store_logic::{Act, Cond};

/// Executes an act of this line on a store, which is the same where it fails. It can be run as the code that has it alone.
pub fn execute(
    alloc: Global,
    types: &TypeTable,
    line: u32,
    act: &Act,
    store: &mut Store,
) -> Result<Result<(), Fault>, AllocError>
    requires { CanRun types.now store.old (item.Do line act.now ∷ []) }
    ensures { DoesWell types.now line act.now store.old store.new result }
{
    do_act(alloc, types, &Value::Cell(None), line, act, store)
}

/// The truth of a condition of this line, or the fault where it can't be read.
pub fn read_truth(
    alloc: Global,
    line: u32,
    cond: &Cond,
    store: &Store,
) -> Result<Result<bool, Fault>, AllocError>
    ensures { IsTruthAt store.now line cond.now result }
{
    truth_at(alloc, store, &Value::Cell(None), line, cond)
}
