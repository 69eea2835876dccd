//! A return: the caller goes on.

ghost use Rattle.std.specs.Prelude.{List, IfOk};
ghost use Rattle.whole_run.specs.States.{Waiting, goes};
ghost use Rattle.whole_run.specs.Turns.{Returns};
ghost use Rattle.whole_turns.specs.Standings.{waiting_of, state_of};
ghost use Rattle.whole_turns.specs.Turning.{CanReturn};

use crate::activation::{At, Suspended};
use pale_typed::Typed;
use std::alloc::{AllocError, Global};
use store_core::Store;
use whole_handing::returned_store;

/// The caller goes on behind the callee's exit, which left this store.
pub(crate) fn give_back<'a>(
    alloc: Global,
    program: &Typed,
    exited: Store,
    suspended: Suspended<'a>,
) -> Result<At<'a>, AllocError>
    requires { CanReturn program.now exited (waiting_of suspended) }
    ensures { IfOk result (λ after. (waiting : List Waiting) →
        Returns program.now exited (waiting_of suspended.entry) waiting (goes (state_of after waiting))) }
{
    let Suspended { call, caller, rest } = suspended;
    let Some(callee) = program.proc(call.callee) else {
        unreachable!()
    };
    let after = returned_store(
        alloc,
        caller.vars,
        call,
        callee.results.as_slice(),
        &rest,
        &exited,
    )?;
    Ok(At::Running(caller, after))
}
