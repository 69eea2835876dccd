//! Names, places and values as a trace writes them.

ghost use Rattle.std.specs.Prelude.{◌≡◌, ◌++◌, OnOk, codes};
ghost use Rattle.std.specs.List.{join_by};
ghost use Rattle.store_text.specs.StoreText.{cell_text, value_text, variant_text};
ghost use Rattle.trace_text.specs.TraceLines.{vars_of, name_of, truth_text, var_name, fields_text, path_text};

use pale_typed::Typed;
use std::alloc::{AllocError, Global};
use store_core::{CellId, FieldId, TypeTable, Value, VarId, VariantId};
use store_logic::Path;
use store_words::{field_name, push_number};

/// The name of a procedure; nothing for an unknown one.
pub(crate) fn push_proc(program: &Typed, proc: u32, text: &mut Vec<u8>) -> Result<(), AllocError>
    ensures { OnOk result (text.new.items ≡ text.old.items ++ name_of program.now proc) }
{
    match program.proc(proc) {
        Some(it) => text.extend_from_slice(it.name.as_slice()),
        None => Ok(()),
    }
}

/// The name of a variable of a procedure; nothing for an unknown one.
fn var_name(program: &Typed, proc: u32, var: VarId) -> &[u8]
    ensures { result.now ≡ var_name (vars_of program.now proc) var }
{
    match program.vars(proc) {
        Some(vars) => vars.name(var).unwrap_or(b""),
        None => b"",
    }
}

/// `.F` for each field.
fn push_fields(types: &TypeTable, fields: &[FieldId], text: &mut Vec<u8>) -> Result<(), AllocError>
    ensures { OnOk result (text.new.items ≡ text.old.items ++ fields_text types.now fields.now) }
{
    for field in fields {
        text.extend_from_slice(b".")?;
        text.extend_from_slice(field_name(types, *field))?;
    }
    Ok(())
}

/// `x.F.G`, in the variables of this procedure.
pub(crate) fn push_path(
    program: &Typed,
    proc: u32,
    path: &Path,
    text: &mut Vec<u8>,
) -> Result<(), AllocError>
    ensures { OnOk result (text.new.items ≡ text.old.items ++ path_text program.now.types (vars_of program.now proc) path.now) }
{
    text.extend_from_slice(var_name(program, proc, path.var))?;
    push_fields(program.types(), path.fields.as_slice(), text)
}

/// `true` or `false`
pub(crate) fn push_truth(truth: bool, text: &mut Vec<u8>) -> Result<(), AllocError>
    ensures { OnOk result (text.new.items ≡ text.old.items ++ truth_text truth) }
{
    if truth {
        text.extend_from_slice(b"true")
    } else {
        text.extend_from_slice(b"false")
    }
}

/// The cells of a set, separated by one space.
fn push_members(alloc: Global, cells: &[CellId], text: &mut Vec<u8>) -> Result<(), AllocError>
    ensures { OnOk result (text.new.items ≡ text.old.items ++ join_by cell_text (codes " ") cells.now) }
{
    let Some((first, others)) = cells.split_first() else {
        return Ok(());
    };
    push_number(alloc, text, u64::from(first.0))?;
    for cell in others {
        text.push(b' ')?;
        push_number(alloc, text, u64::from(cell.0))?;
    }
    Ok(())
}

/// A value as a store text has it.
pub(crate) fn push_value(alloc: Global, value: &Value, text: &mut Vec<u8>) -> Result<(), AllocError>
    ensures { OnOk result (text.new.items ≡ text.old.items ++ value_text value.now) }
{
    match value {
        Value::Bool(truth) => push_truth(*truth, text),
        Value::Cell(None) => text.extend_from_slice(b"null"),
        Value::Cell(Some(cell)) => push_number(alloc, text, u64::from(cell.0)),
        Value::Cells(cells) => {
            text.extend_from_slice(b"{")?;
            push_members(alloc, cells.as_slice(), text)?;
            text.extend_from_slice(b"}")
        }
    }
}

/// `TYPE`, or `TYPE:VARIANT` for a named variant.
pub(crate) fn push_variant(
    types: &TypeTable,
    v: VariantId,
    text: &mut Vec<u8>,
) -> Result<(), AllocError>
    ensures { OnOk result (text.new.items ≡ text.old.items ++ variant_text types.now v) }
{
    if let Some(name) = types.type_name(v.ty) {
        text.extend_from_slice(name)?;
    }
    if let Some(name) = types.variant_name(v) {
        text.extend_from_slice(b":")?;
        text.extend_from_slice(name)?;
    }
    Ok(())
}
