//! Arriving at a cut.

ghost use Rattle.std.specs.Prelude.{IfOk, Ok};
ghost use Rattle.store_core.specs.Stores.{Fits};
ghost use Rattle.store_exec.specs.Fits.{CutFits};
ghost use Rattle.store_exec.specs.Runs.{RunsItems};
ghost use Rattle.hoare_split.specs.Picking.{test_of};
ghost use Rattle.hoare_split.specs.Settings.{settings};
ghost use Rattle.whole_turns.specs.Turning.{ArrivesAs, CanSet, SetsAs};

use crate::halted::Halted;
use crate::plain::run_items;
use hoare_split::{Caller, Pick, set_picked};
use std::alloc::{AllocError, Global};
use store_core::{Store, TypeTable, VarTable};
use store_exec::{Cut, ItemList};
use store_runner::at_cut;
use whole_handing::restricted;

/// The store arrives at a cut: without a cause there the run goes on with its logic sets restricted to the live cells. The freed cells
/// are let go before, so that each cell is a look-up.
pub(crate) fn arrive(
    alloc: Global,
    types: &TypeTable,
    vars: &VarTable,
    cut: &Cut,
    store: Store,
) -> Result<Result<Store, Halted>, AllocError>
    requires fits { Fits types.now vars.now store }
    requires cut { CutFits types.now vars.now cut.now }
    ensures { IfOk result (ArrivesAs types.now vars.now cut.now store) }
{
    let mut at = store;
    at.settle();
    match at_cut(alloc, types, vars, cut, &at)? {
        Some(cause) => Ok(Err(Halted {
            cause,
            line: cut.line,
            at,
        })),
        None => Ok(Ok(restricted(alloc, vars, at)?)),
    }
}

/// The picked variables are set to null or false, which never fails.
fn set_blank(
    alloc: Global,
    caller: Caller<'_>,
    pick: Pick<'_>,
    line: u32,
    store: Store,
) -> Result<Store, AllocError>
    requires { CanSet caller.program.now caller.vars.now (settings caller.vars.now (test_of pick) line) store }
    ensures { IfOk result (λ after. RunsItems caller.entry.program.now.types (settings caller.entry.vars.now (test_of pick.entry) line) store (Ok after)) }
{
    let mut items = ItemList::new(alloc);
    set_picked(alloc, caller.vars, pick, line, &mut items)?;
    match run_items(alloc, caller.program.types(), items, store)? {
        Ok(after) => Ok(after),
        Err(_) => unreachable!(),
    }
}

/// The picked variables are set to null or false, and then the store arrives at the cut.
pub(crate) fn set_and_arrive(
    alloc: Global,
    caller: Caller<'_>,
    pick: Pick<'_>,
    cut: &Cut,
    store: Store,
) -> Result<Result<Store, Halted>, AllocError>
    requires set { CanSet caller.program.now caller.vars.now (settings caller.vars.now (test_of pick) cut.now.line) store }
    requires cut { CutFits caller.program.now.types caller.vars.now cut.now }
    ensures { IfOk result (SetsAs caller.entry.program.now.types caller.entry.vars.now
        (settings caller.entry.vars.now (test_of pick.entry) cut.now.line) cut.now store) }
{
    let after = set_blank(alloc, caller, pick, cut.line, store)?;
    arrive(alloc, caller.program.types(), caller.vars, cut, after)
}
