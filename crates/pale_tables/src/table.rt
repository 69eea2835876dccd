//! The type table of the declarations.

ghost use Rattle.std.specs.Prelude.{◌≡◌, ◌≤◌, [], ◌++◌, None, length, map, IfOk, IfErr, OnOk};
ghost use Rattle.std.specs.List.{AllByRecursion};
ghost use Rattle.store_core.specs.Tables.{IsTypeTable, IsFieldEntry, KnowsType, AreDistinct, variants_of, fields_of, variant_count, field_names, with_type};
ghost use Rattle.pale_tables.specs.Faults.{IsStop};
ghost use Rattle.pale_tables.specs.Types.{field_row, type_row, names_in, type_table, types_fault, type_names_fault};
ghost use Rattle.pale_tables.specs.Stages.{named, bare, owner_in};

use crate::type_names::TypeNames;
use crate::types::{FieldRow, TypeRow, read_types};
use pale_syntax::TypeDeclaration;
use pale_text::TextStop;
use std::alloc::{AllocError, Global};
use store_core::{ByteList, FieldKind, Owner, TypeId, TypeTable, VariantId};

/// The whole type, or the one variant of it, that has a field.
fn owner_of(ty: TypeId, only: Option<u32>) -> Owner
    ensures { result ≡ owner_in ty only }
{
    match only {
        None => Owner::Common(ty),
        Some(index) => Owner::Variant(VariantId { ty, index }),
    }
}

fn copy_kind(alloc: Global, kind: &FieldKind) -> Result<FieldKind, AllocError>
    ensures { IfOk result (λ copy. copy ≡ kind.now) }
{
    match kind {
        FieldKind::Bool => Ok(FieldKind::Bool),
        FieldKind::Data(target) => Ok(FieldKind::Data(*target)),
        FieldKind::Pointer(target, route) => { Ok(FieldKind::Pointer(*target, route.copy(alloc)?)) }
    }
}

/// The types with their names alone.
fn add_types(table: &mut TypeTable, rows: &[TypeRow]) -> Result<(), AllocError>
    requires empty { table.old ≡ [] }
    requires rows { IsTypeTable (map type_row rows.now) }
    ensures { OnOk result (table.new ≡ map named (map type_row rows.now)) }
{
    for row in rows {
        let _ty = table.add_type(row.name.as_slice())?;
    }
    Ok(())
}

/// The variants of one type.
fn add_variants(table: &mut TypeTable, ty: TypeId, names: &[ByteList]) -> Result<(), AllocError>
    requires known { KnowsType table.old ty }
    requires new { AreDistinct (variants_of table.old ty ++ names.now) }
    requires few { length (variants_of table.old ty ++ names.now) ≤ 16 }
    ensures { OnOk result (table.new ≡ with_type table.old ty (λ t. record t { variants = t.variants ++ names.now })) }
{
    for name in names {
        let _variant = table.add_variant(ty, name.as_slice())?;
    }
    Ok(())
}

/// The variants of all types.
fn add_all_variants(table: &mut TypeTable, rows: &[TypeRow]) -> Result<(), AllocError>
    requires types { table.old ≡ map named (map type_row rows.now) }
    requires rows { IsTypeTable (map type_row rows.now) }
    ensures { OnOk result (table.new ≡ map bare (map type_row rows.now)) }
{
    for (number, row) in rows.iter().enumerate() {
        add_variants(table, TypeId(number as u32), row.variants.as_slice())?;
    }
    Ok(())
}

/// The fields of one type.
fn add_fields(
    alloc: Global,
    table: &mut TypeTable,
    ty: TypeId,
    fields: &[FieldRow],
) -> Result<(), AllocError>
    requires known { KnowsType table.old ty }
    requires new { AreDistinct (field_names (fields_of table.old ty ++ map field_row fields.now)) }
    requires few { length (fields_of table.old ty ++ map field_row fields.now) ≤ 32 }
    requires each { AllByRecursion (IsFieldEntry table.old (variant_count table.old ty)) (map field_row fields.now) }
    ensures { OnOk result (table.new ≡ with_type table.old ty (λ t. record t { fields = t.fields ++ map field_row fields.now })) }
{
    for field in fields {
        let kind = copy_kind(alloc, &field.kind)?;
        let _field = table.add_field(owner_of(ty, field.only), field.name.as_slice(), kind)?;
    }
    Ok(())
}

/// The fields of all types.
fn add_all_fields(alloc: Global, table: &mut TypeTable, rows: &[TypeRow]) -> Result<(), AllocError>
    requires types { table.old ≡ map bare (map type_row rows.now) }
    requires rows { IsTypeTable (map type_row rows.now) }
    ensures { OnOk result (table.new ≡ map type_row rows.now) }
{
    for (number, row) in rows.iter().enumerate() {
        add_fields(alloc, table, TypeId(number as u32), row.fields.as_slice())?;
    }
    Ok(())
}

/// The table of rows: all types with their names, and then their variants and fields, which may name types that come later.
fn build_table(alloc: Global, rows: &[TypeRow]) -> Result<TypeTable, AllocError>
    requires { IsTypeTable (map type_row rows.now) }
    ensures { IfOk result (λ table. table ≡ map type_row rows.now) }
{
    let mut table = TypeTable::new(alloc);
    add_types(&mut table, rows)?;
    add_all_variants(&mut table, rows)?;
    add_all_fields(alloc, &mut table, rows)?;
    Ok(table)
}

/// The type table of the declarations, whose names have no fault.
///
/// # Errors
///
/// `Refused` is the first fault of the types in order, as `read_types` says.
#[tactic(auto, unfolding(crate::specs::Types::types_fault, crate::specs::Types::type_table))]
pub fn read_table(
    alloc: Global,
    names: &TypeNames,
    types: &[&TypeDeclaration],
) -> Result<TypeTable, TextStop>
    requires names { names.now ≡ names_in (map (λ t. t.now) types.now) }
    requires new { type_names_fault [] (map (λ t. t.now.name) types.now) ≡ None }
    ensures met { OnOk result (types_fault (map (λ t. t.now) types.now) ≡ None) }
    ensures table { IfOk result (λ table. table ≡ type_table (map (λ t. t.now) types.now)) }
    ensures stop { IfErr result (IsStop (types_fault (map (λ t. t.now) types.now))) }
{
    let rows = read_types(alloc, names, types)?;
    Ok(build_table(alloc, rows.as_slice())?)
}
