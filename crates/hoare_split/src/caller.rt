//! What stands around the statements of a procedure.

ghost use Rattle.std.specs.Prelude.{◌≡◌, slice_get, option_map, IfSome};
ghost use Rattle.hoare_split.specs.Callers.{procs_of, entry_of};
ghost use Rattle.hoare_split.specs.Picking.{class_at, is_listed};

use pale_calls::VarClass;
use pale_typed::{Typed, TypedProc};
use store_core::{VarId, VarTable};

/// A procedure with its variables, in its program.
#[derive(Clone, Copy)]
pub struct Caller<'a> {
    pub program: &'a Typed,
    /// The number of the procedure.
    pub number: u32,
    pub vars: &'a VarTable,
    pub proc: &'a TypedProc,
}

/// A procedure of the program, with its variables; `None` exactly for an unknown one.
pub fn caller_at(program: &Typed, number: u32) -> Option<Caller<'_>>
    ensures entry { option_map entry_of result ≡ slice_get program.now.procs number }
    ensures procs { IfSome result (λ caller. procs_of caller ≡ program.now.procs) }
    ensures number { IfSome result (λ caller. caller.number ≡ number) }
{
    let vars = program.vars(number)?;
    let proc = program.proc(number)?;
    Some(Caller {
        program,
        number,
        vars,
        proc,
    })
}

/// The class of a variable; one that isn't there counts as a truth value.
pub fn class_at(vars: &VarTable, var: VarId) -> VarClass
    ensures { result ≡ class_at vars.now var }
{
    match vars.kind(var) {
        Some(kind) => VarClass::of(*kind),
        None => VarClass::Bool,
    }
}

/// Whether the variable is one of these.
pub fn is_listed(vars: &[VarId], var: VarId) -> bool
    ensures { result ≡ is_listed vars.now var }
{
    vars.iter().any(|listed| listed.0 == var.0)
}
