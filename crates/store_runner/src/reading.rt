//! What stands at a path.

ghost use Rattle.std.specs.Prelude.{◌≡◌, Ok, Err, MatchResult};
ghost use Rattle.store_logic.specs.Terms.{null};
ghost use Rattle.store_exec.specs.Steps as steps;
ghost use Rattle.store_exec.specs.Steps.{variable};

use store_core::{CellId, FieldId, Store, Value, VarId};
use store_exec::Cause;
use store_logic::{Operand, Path};

/// The live cell through which something is read or written.
pub(crate) fn cell_through(store: &Store, through: &Value) -> Result<CellId, Cause>
    ensures { result ≡ steps.cell_through store.now through.now }
{
    match through {
        Value::Cell(Some(cell)) => match store.type_of(*cell) {
            Some(_) => Ok(*cell),
            None => Err(Cause::Dangling),
        },
        Value::Cell(None) | Value::Bool(_) | Value::Cells(_) => Err(Cause::Null),
    }
}

/// The value of a field of what a value is.
pub(crate) fn read<'a>(
    store: &'a Store,
    through: &Value,
    field: FieldId,
) -> Result<&'a Value, Cause>
    ensures { MatchResult result (λ value. steps.read store.now through.now field ≡ Ok value.now) (λ why. steps.read store.now through.now field ≡ Err why) }
{
    let cell = cell_through(store, through)?;
    store.field(cell, field).ok_or(Cause::Variant)
}

/// The values of the fields, one after the other.
pub(crate) fn read_along<'a>(
    store: &'a Store,
    start: &'a Value,
    fields: &[FieldId],
) -> Result<&'a Value, Cause>
    ensures { MatchResult result (λ value. steps.read_along store.now start.now fields.now ≡ Ok value.now)
        (λ why. steps.read_along store.now start.now fields.now ≡ Err why) }
{
    let mut value = start;
    for field in fields {
        value = read(store, value, *field)?;
    }
    Ok(value)
}

/// The value of a variable; an unknown one is null.
pub(crate) fn variable<'a>(store: &'a Store, nothing: &'a Value, var: VarId) -> &'a Value
    requires { nothing.now ≡ null }
    ensures { result.now ≡ variable store.now var }
{
    store.var(var).unwrap_or(nothing)
}

/// What stands at a path.
pub(crate) fn path_value<'a>(
    store: &'a Store,
    nothing: &'a Value,
    path: &Path,
) -> Result<&'a Value, Cause>
    requires { nothing.now ≡ null }
    ensures { MatchResult result (λ value. steps.path_value store.now path.now ≡ Ok value.now) (λ why. steps.path_value store.now path.now ≡ Err why) }
{
    read_along(
        store,
        variable(store, nothing, path.var),
        path.fields.as_slice(),
    )
}

/// What an operand is.
pub(crate) fn operand_value<'a>(
    store: &'a Store,
    nothing: &'a Value,
    operand: &Operand,
) -> Result<&'a Value, Cause>
    requires { nothing.now ≡ null }
    ensures { MatchResult result (λ value. steps.operand_value store.now operand.now ≡ Ok value.now)
        (λ why. steps.operand_value store.now operand.now ≡ Err why) }
{
    match operand {
        Operand::Null => Ok(nothing),
        Operand::Path(path) => path_value(store, nothing, path),
    }
}
