//! What is checked on arriving at each kind of cut.

ghost use Rattle.std.specs.Prelude.{◌≡◌, IfOk};
ghost use Rattle.hoare_split.specs.Cuts as cuts;

use crate::caller::Caller;
use crate::calls::{handed, on_all, on_part_and_rest, pre_of};
use crate::picking::{Pick, picked};
use pale_typed::CallParts;
use std::alloc::{AllocError, Global};
use store_exec::Cut;
use store_logic::{Assertion, VarList};

/// At a `while`, a `split` or the exit: the assertion on all cells.
pub fn plain_cut(alloc: Global, line: u32, assertion: &Assertion) -> Result<Cut, AllocError>
    ensures { IfOk result (λ cut. cut ≡ cuts.plain_cut line assertion.now) }
{
    Ok(Cut {
        line,
        handed: None,
        inside: VarList::new(alloc),
        asserts: on_all(alloc, assertion)?,
    })
}

/// At a call: the callee's `pre` on what is handed over, and `keep` on the rest.
pub fn call_cut(
    alloc: Global,
    caller: &Caller<'_>,
    line: u32,
    call: &CallParts,
) -> Result<Cut, AllocError>
    ensures { IfOk result (λ cut. cut ≡ cuts.call_cut caller.now.program.now.procs caller.now.vars.now line call.now) }
{
    let part = handed(alloc, caller.vars, call.args.as_slice())?;
    let pre = pre_of(alloc, caller, call)?;
    let asserts = on_part_and_rest(alloc, &part, pre, &call.keep)?;
    Ok(Cut {
        line,
        handed: Some(part),
        inside: picked(alloc, caller.vars, Pick::Lent(call))?,
        asserts,
    })
}
