//! The lines that are written of fields and of triples.

ghost use Rattle.std.specs.Prelude.{◌≡◌, ◌++◌, OnOk};
ghost use Rattle.program_judge.specs.Lines as texts;

use std::alloc::{AllocError, Global};
use store_core::{CellId, FieldId, TypeId, TypeTable};
use store_exec::Cause;
use store_words::{field_name, push_number, word_of};

// ---- fields

fn type_name(types: &TypeTable, ty: TypeId) -> &[u8]
    ensures { result.now ≡ texts.type_name types.now ty }
{
    types.type_name(ty).unwrap_or(b"")
}

/// `field T.f`
fn push_field_head(types: &TypeTable, text: &mut Vec<u8>, field: FieldId) -> Result<(), AllocError>
    ensures { OnOk result (text.new.items ≡ text.old.items ++ texts.field_head types.now field) }
{
    text.extend_from_slice(b"field ")?;
    text.extend_from_slice(type_name(types, field.ty))?;
    text.extend_from_slice(b".")?;
    text.extend_from_slice(field_name(types, field))
}

/// `field T.f ambiguous at N`
pub(crate) fn push_ambiguous(
    alloc: Global,
    types: &TypeTable,
    text: &mut Vec<u8>,
    field: FieldId,
    cell: CellId,
) -> Result<(), AllocError>
    ensures { OnOk result (text.new.items ≡ text.old.items ++ texts.ambiguous_line types.now field cell) }
{
    push_field_head(types, text, field)?;
    text.extend_from_slice(b" ambiguous at ")?;
    push_number(alloc, text, u64::from(cell.0))?;
    text.extend_from_slice(b"\n")
}

/// `field T.f limit`
pub(crate) fn push_field_limit(
    types: &TypeTable,
    text: &mut Vec<u8>,
    field: FieldId,
) -> Result<(), AllocError>
    ensures { OnOk result (text.new.items ≡ text.old.items ++ texts.field_limit_line types.now field) }
{
    push_field_head(types, text, field)?;
    text.extend_from_slice(b" limit\n")
}

// ---- triples

/// `triple K PROC line L`
pub(crate) fn push_triple_head(
    alloc: Global,
    text: &mut Vec<u8>,
    number: u64,
    name: &[u8],
    line: u32,
) -> Result<(), AllocError>
    ensures { OnOk result (text.new.items ≡ text.old.items ++ texts.triple_head number name.now line) }
{
    text.extend_from_slice(b"triple ")?;
    push_number(alloc, text, number)?;
    text.extend_from_slice(b" ")?;
    text.extend_from_slice(name)?;
    text.extend_from_slice(b" line ")?;
    push_number(alloc, text, u64::from(line))
}

/// `triple K PROC line L valid`
pub(crate) fn push_valid(
    alloc: Global,
    text: &mut Vec<u8>,
    number: u64,
    name: &[u8],
    line: u32,
) -> Result<(), AllocError>
    ensures { OnOk result (text.new.items ≡ text.old.items ++ texts.valid_line number name.now line) }
{
    push_triple_head(alloc, text, number, name, line)?;
    text.extend_from_slice(b" valid\n")
}

/// `triple K PROC line L limit`
pub(crate) fn push_limit(
    alloc: Global,
    text: &mut Vec<u8>,
    number: u64,
    name: &[u8],
    line: u32,
) -> Result<(), AllocError>
    ensures { OnOk result (text.new.items ≡ text.old.items ++ texts.limit_line number name.now line) }
{
    push_triple_head(alloc, text, number, name, line)?;
    text.extend_from_slice(b" limit\n")
}

/// `triple K PROC line L invalid CAUSE line M`
pub(crate) fn push_invalid(
    alloc: Global,
    text: &mut Vec<u8>,
    number: u64,
    name: &[u8],
    line: u32,
    cause: Cause,
    at: u32,
) -> Result<(), AllocError>
    ensures { OnOk result (text.new.items ≡ text.old.items ++ texts.invalid_line number name.now line cause at) }
{
    push_triple_head(alloc, text, number, name, line)?;
    text.extend_from_slice(b" invalid ")?;
    text.extend_from_slice(word_of(cause).as_bytes())?;
    text.extend_from_slice(b" line ")?;
    push_number(alloc, text, u64::from(at))?;
    text.extend_from_slice(b"\n")
}
