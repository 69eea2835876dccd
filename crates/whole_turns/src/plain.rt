//! Acts, and settings by the code that they are.

ghost use Rattle.std.specs.Prelude.{[], ◌∷◌, IfOk};
ghost use Rattle.store_exec.specs.declared.code.Item.TheVariants as item;
ghost use Rattle.store_exec.specs.Runs.{RunsItems};
ghost use Rattle.store_exec.specs.Going.{CanRun};
ghost use Rattle.whole_turns.specs.Turning.{ActsAs};

use crate::halted::Halted;
use std::alloc::{AllocError, Global};
use store_core::{Store, TypeTable};
use store_exec::{Code, Fault, ItemList, Outcome, Tail};
use store_logic::Act;
use store_runner::{execute, run};

/// Executes items: the store where they end, or the fault that stops them.
pub(crate) fn run_items(
    alloc: Global,
    types: &TypeTable,
    items: ItemList,
    store: Store,
) -> Result<Result<Store, Fault>, AllocError>
    requires { CanRun types.now store items }
    ensures { IfOk result (RunsItems types.now items store) }
{
    let code = Code {
        items,
        tail: Tail::Cut(0),
    };
    match run(alloc, types, &code, store)? {
        Outcome::End(_place, after) => Ok(Ok(after)),
        Outcome::Fail(cause, line) => Ok(Err(Fault { cause, line })),
    }
}

/// Executes an act: the store where it leads, or why it stops.
pub(crate) fn run_act(
    alloc: Global,
    types: &TypeTable,
    line: u32,
    act: &Act,
    store: Store,
) -> Result<Result<Store, Halted>, AllocError>
    requires { CanRun types.now store (item.Do line act.now ∷ []) }
    ensures { IfOk result (ActsAs types.now line store act.now) }
{
    let mut at = store;
    match execute(alloc, types, line, act, &mut at)? {
        Ok(()) => Ok(Ok(at)),
        Err(fault) => Ok(Err(Halted {
            cause: fault.cause,
            line: fault.line,
            at,
        })),
    }
}
