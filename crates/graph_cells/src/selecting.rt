//! The fields of all types that are of a kind, or of a name and a kind.

ghost use Rattle.std.specs.Prelude.{◌≡◌, ◌++◌, false, IfOk, OnOk};
ghost use Rattle.std.specs.Option.{option_map_or};
ghost use Rattle.store_core.specs.Tables.{field_at};
ghost use Rattle.graph_view.specs.Fields as formulas;
ghost use Rattle.graph_view.specs.Fields.{fields_in_where, has_kind};
ghost use Rattle.graph_cells.specs.Selecting.{is_of};

use std::alloc::{AllocError, Global};
use store_core::{FieldId, FieldKind, TypeId, TypeTable};

/// Kinds of fields.
#[derive(Clone, Copy)]
pub enum Kinds {
    Bools,
    Data,
    /// Data and pointer fields.
    References,
}

/// The kind is one of these.
fn is_of(kinds: Kinds, kind: &FieldKind) -> bool
    ensures { result ≡ is_of kinds kind.now }
{
    match kinds {
        Kinds::Bools => matches!(kind, FieldKind::Bool),
        Kinds::Data => matches!(kind, FieldKind::Data(_)),
        Kinds::References => !matches!(kind, FieldKind::Bool),
    }
}

/// The field is of these kinds.
fn has_kind(types: &TypeTable, kinds: Kinds, f: FieldId) -> bool
    ensures { result ≡ option_map_or (has_kind (is_of kinds)) (field_at types.now f) false }
{
    match types.kind(f) {
        Some(kind) => is_of(kinds, kind),
        None => false,
    }
}

/// Puts the fields of a type that are of these kinds at the end of the list.
///
/// # Errors
///
/// Want of memory.
pub fn push_of_kind(
    fields: &mut Vec<FieldId>,
    types: &TypeTable,
    kinds: Kinds,
    ty: TypeId,
) -> Result<(), AllocError>
    ensures { OnOk result (fields.new.items ≡ fields.old.items ++ fields_in_where types.now (has_kind (is_of kinds)) ty) }
{
    for index in 0..types.fields(ty) {
        let f = FieldId { ty, index };
        if has_kind(types, kinds, f) {
            fields.push(f)?;
        }
    }
    Ok(())
}

/// The fields of all types that are of these kinds.
///
/// # Errors
///
/// Want of memory.
pub fn fields_of_kind(
    alloc: Global,
    types: &TypeTable,
    kinds: Kinds,
) -> Result<Vec<FieldId>, AllocError>
    ensures { IfOk result (λ fields. fields.items ≡ formulas.fields_of_kind types.now (is_of kinds)) }
{
    let mut fields = Vec::new(alloc);
    for index in 0..types.types() {
        push_of_kind(&mut fields, types, kinds, TypeId(index))?;
    }
    Ok(fields)
}

/// The field has this name and is of these kinds.
fn is_named(types: &TypeTable, name: &[u8], kinds: Kinds, f: FieldId) -> bool
    ensures { result ≡ option_map_or (formulas.is_named name.now (is_of kinds)) (field_at types.now f) false }
{
    match types.field_name(f) {
        Some(own) => name == own && has_kind(types, kinds, f),
        None => false,
    }
}

/// Puts the fields of a type that have this name and are of these kinds at the end of the list.
fn push_named(
    fields: &mut Vec<FieldId>,
    types: &TypeTable,
    name: &[u8],
    kinds: Kinds,
    ty: TypeId,
) -> Result<(), AllocError>
    ensures { OnOk result (fields.new.items
        ≡ fields.old.items ++ fields_in_where types.now (formulas.is_named name.now (is_of kinds)) ty) }
{
    for index in 0..types.fields(ty) {
        let f = FieldId { ty, index };
        if is_named(types, name, kinds, f) {
            fields.push(f)?;
        }
    }
    Ok(())
}

/// The fields of all types that have this name and are of these kinds.
///
/// # Errors
///
/// Want of memory.
pub fn fields_named(
    alloc: Global,
    types: &TypeTable,
    name: &[u8],
    kinds: Kinds,
) -> Result<Vec<FieldId>, AllocError>
    ensures { IfOk result (λ fields. fields.items ≡ formulas.fields_named types.now name.now (is_of kinds)) }
{
    let mut fields = Vec::new(alloc);
    for index in 0..types.types() {
        push_named(&mut fields, types, name, kinds, TypeId(index))?;
    }
    Ok(fields)
}
