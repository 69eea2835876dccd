//! The lines that are written of a store that isn't executed, and of an execution that fails.

ghost use Rattle.std.specs.Prelude.{◌≡◌, ◌++◌, IfOk, OnOk};
ghost use Rattle.pale_starts.specs.Lines.{var_name, cell_text, field_text, place_text, fault_text};
ghost use Rattle.pale_starts.specs.Lines as lines;

use routing_walks::{Place, WfFault};
use std::alloc::{AllocError, Global};
use store_core::{CellId, FieldId, TypeTable, VarId, VarTable};
use store_exec::Cause;
use store_text::StoreKind;
use store_words::{field_name, push_number, word_of};

/// `cell N`
fn push_cell(alloc: Global, text: &mut Vec<u8>, cell: CellId) -> Result<(), AllocError>
    ensures { OnOk result (text.new.items ≡ text.old.items ++ cell_text cell) }
{
    text.extend_from_slice(b"cell ")?;
    push_number(alloc, text, u64::from(cell.0))
}

fn var_name(vars: &VarTable, var: VarId) -> &[u8]
    ensures { result.now ≡ var_name vars.now var }
{
    vars.name(var).unwrap_or(b"")
}

/// `cell N F`
fn push_field(
    alloc: Global,
    types: &TypeTable,
    text: &mut Vec<u8>,
    cell: CellId,
    field: FieldId,
) -> Result<(), AllocError>
    ensures { OnOk result (text.new.items ≡ text.old.items ++ field_text types.now cell field) }
{
    push_cell(alloc, text, cell)?;
    text.extend_from_slice(b" ")?;
    text.extend_from_slice(field_name(types, field))
}

/// `var X` or `cell N F`
fn push_place(
    alloc: Global,
    types: &TypeTable,
    vars: &VarTable,
    text: &mut Vec<u8>,
    place: Place,
) -> Result<(), AllocError>
    ensures { OnOk result (text.new.items ≡ text.old.items ++ place_text types.now vars.now place) }
{
    match place {
        Place::Var(var) => {
            text.extend_from_slice(b"var ")?;
            text.extend_from_slice(var_name(vars, var))
        }
        Place::Field(cell, field) => push_field(alloc, types, text, cell, field),
    }
}

fn push_fault(
    alloc: Global,
    types: &TypeTable,
    vars: &VarTable,
    text: &mut Vec<u8>,
    fault: WfFault,
) -> Result<(), AllocError>
    ensures { OnOk result (text.new.items ≡ text.old.items ++ fault_text types.now vars.now fault) }
{
    match fault {
        WfFault::Dangling(place) => {
            text.extend_from_slice(b"dangling ")?;
            push_place(alloc, types, vars, text, place)
        }
        WfFault::Shared(cell) => {
            text.extend_from_slice(b"shared ")?;
            push_cell(alloc, text, cell)
        }
        WfFault::Leak(cell) => {
            text.extend_from_slice(b"leak ")?;
            push_cell(alloc, text, cell)
        }
        WfFault::Field(cell, field) => {
            text.extend_from_slice(b"field ")?;
            push_field(alloc, types, text, cell, field)
        }
    }
}

/// `store refused N KIND`
///
/// # Errors
///
/// Want of memory.
pub fn refused_line(alloc: Global, line: u64, kind: StoreKind) -> Result<Vec<u8>, AllocError>
    ensures { IfOk result (λ text. text.items ≡ lines.store_refused_line line kind) }
{
    let mut text = Vec::new(alloc);
    text.extend_from_slice(b"store refused ")?;
    push_number(alloc, &mut text, line)?;
    text.extend_from_slice(b" ")?;
    text.extend_from_slice(kind.word().as_bytes())?;
    text.extend_from_slice(b"\n")?;
    Ok(text)
}

/// `not-well-formed FAULT`
///
/// # Errors
///
/// Want of memory.
pub fn fault_line(
    alloc: Global,
    types: &TypeTable,
    vars: &VarTable,
    fault: WfFault,
) -> Result<Vec<u8>, AllocError>
    ensures { IfOk result (λ text. text.items ≡ lines.not_well_formed_line types.now vars.now fault) }
{
    let mut text = Vec::new(alloc);
    text.extend_from_slice(b"not-well-formed ")?;
    push_fault(alloc, types, vars, &mut text, fault)?;
    text.extend_from_slice(b"\n")?;
    Ok(text)
}

/// `start condition false`
///
/// # Errors
///
/// Want of memory.
pub fn start_false_line(alloc: Global) -> Result<Vec<u8>, AllocError>
    ensures { IfOk result (λ text. text.items ≡ lines.start_false_line) }
{
    Vec::from_slice(alloc, b"start condition false\n")
}

/// `fail CAUSE line M`
///
/// # Errors
///
/// Want of memory.
pub fn fail_line(alloc: Global, cause: Cause, line: u32) -> Result<Vec<u8>, AllocError>
    ensures { IfOk result (λ text. text.items ≡ lines.fail_line cause line) }
{
    let mut text = Vec::new(alloc);
    text.extend_from_slice(b"fail ")?;
    text.extend_from_slice(word_of(cause).as_bytes())?;
    text.extend_from_slice(b" line ")?;
    push_number(alloc, &mut text, u64::from(line))?;
    text.extend_from_slice(b"\n")?;
    Ok(text)
}
