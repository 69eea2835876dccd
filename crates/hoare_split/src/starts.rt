//! What holds where each kind of triple starts.

ghost use Rattle.std.specs.Prelude.{◌≡◌, IfOk};
ghost use Rattle.hoare_split.specs.Starts as starts;

use crate::caller::Caller;
use crate::calls::{on_all, on_part_and_rest, post_of, returned};
use crate::picking::{Pick, picked};
use pale_typed::CallParts;
use std::alloc::{AllocError, Global};
use store_exec::Start;
use store_logic::{Assertion, VarList};

/// At a `while` or a `split`: the assertion on all cells.
pub fn plain_start(alloc: Global, assertion: &Assertion) -> Result<Start, AllocError>
    ensures { IfOk result (λ start. start ≡ starts.plain_start assertion.now) }
{
    Ok(Start {
        nulls: VarList::new(alloc),
        returned: None,
        inside: VarList::new(alloc),
        asserts: on_all(alloc, assertion)?,
    })
}

/// At the entry: results and locals are null or false, and `pre` holds.
pub fn entry_start(alloc: Global, caller: &Caller<'_>) -> Result<Start, AllocError>
    ensures { IfOk result (λ start. start ≡ starts.entry_start caller.now.vars.now caller.now.proc.now) }
{
    Ok(Start {
        nulls: picked(alloc, caller.vars, Pick::Fresh(caller.proc))?,
        returned: None,
        inside: VarList::new(alloc),
        asserts: on_all(alloc, &caller.proc.pre)?,
    })
}

/// After a call: the callee's `post` on what is returned, and `keep` on the rest.
pub fn call_start(alloc: Global, caller: &Caller<'_>, call: &CallParts) -> Result<Start, AllocError>
    ensures { IfOk result (λ start. start ≡ starts.call_start caller.now.program.now.procs caller.now.vars.now call.now) }
{
    let part = returned(alloc, caller.vars, call.results.as_slice())?;
    let post = post_of(alloc, caller, call)?;
    let asserts = on_part_and_rest(alloc, &part, post, &call.keep)?;
    Ok(Start {
        nulls: picked(alloc, caller.vars, Pick::Spent(call))?,
        returned: Some(part),
        inside: picked(alloc, caller.vars, Pick::Gained(call))?,
        asserts,
    })
}
