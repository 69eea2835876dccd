//! Where a run stands.

ghost use Rattle.std.specs.Prelude.{◌≡◌, ◌++◌, OnOk, IsSomeAnd, slice_get};
ghost use Rattle.store_core.specs.Stores.{Fits};
ghost use Rattle.trace_text.specs.TraceLines.{stand_text};

use pale_typed::Typed;
use std::alloc::{AllocError, Global};
use store_core::Store;
use store_text::store_text;

/// Writes `at` and the text of the store where a run stands, over the variables of the procedure of this number. The store fits
/// these; it needn't be well-formed, and a value that names a cell that isn't live is written as its number.
///
/// # Errors
///
/// Want of memory.
pub fn push_stand(
    alloc: Global,
    program: &Typed,
    proc: u32,
    at: &Store,
    text: &mut Vec<u8>,
) -> Result<(), AllocError>
    requires { IsSomeAnd (slice_get program.now.procs proc) (λ e. Fits program.now.types e.vars at.now) }
    ensures { OnOk result (text.new.items ≡ text.old.items ++ stand_text program.now proc at.now) }
{
    let Some(vars) = program.vars(proc) else {
        unreachable!()
    };
    let store = store_text(alloc, program.types(), vars, at)?;
    text.extend_from_slice(b"at\n")?;
    text.extend_from_slice(store.as_slice())
}
