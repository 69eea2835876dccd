//! A line `cell` against the table of types.

ghost use Rattle.std.specs.Prelude.{◌≡◌, ◌<◌, ◌++◌, length, map, None, Ok, IfOk, IfErr, OnOk, IsSomeAnd};
ghost use Rattle.store_core.specs.Tables.{fields_of, KnowsVariant};
ghost use Rattle.store_text.specs.Saying.{IsStop, IsLacking, or_fault, variant_named, field_had, say_field, say_fields, named_in, named_at, cell_said};
ghost use Rattle.store_text.specs.DraftBodies.{said_cell};
ghost use Rattle.store_text.specs.declared.fault.StoreKind.TheVariants as stop;

use crate::fault::StoreKind;
use crate::read::holds::{Mention, field_holds, is_said, note, value_for};
use crate::read::spelled::{CellLine, Given};
use plain_data::Items;
use std::alloc::Global;
use store_core::{ByteList, FieldId, TypeId, TypeTable, Value, VariantId};

/// A cell without its number.
#[derive(Drop)]
pub struct SaidCell {
    pub variant: VariantId,
    /// The value of each field of its type by the field's number, `None` where its variant hasn't the field.
    pub values: Items<Option<Value>>,
}

/// The variant without a name, or the one of this name.
fn variant_named(
    types: &TypeTable,
    ty: TypeId,
    name: &Option<ByteList>,
) -> Result<VariantId, StoreKind>
    ensures value { result ≡ variant_named types.now ty name.now }
    ensures known { IfOk result (KnowsVariant types.now) }
{
    match name {
        None => match types.unnamed(ty) {
            None => Err(StoreKind::Missing),
            Some(variant) => Ok(variant),
        },
        Some(name) => match types.find_variant(ty, name.as_slice()) {
            None => Err(StoreKind::UnknownName),
            Some(variant) => Ok(variant),
        },
    }
}

/// The field of the variant that has this name.
#[tactic(auto, unfolding(crate::specs::Saying::field_had))]
fn field_had(types: &TypeTable, v: VariantId, name: &[u8]) -> Result<FieldId, StoreKind>
    ensures { result ≡ field_had types.now v name.now }
{
    let Some(field) = types.find_field(v.ty, name) else {
        return Err(StoreKind::UnknownName);
    };
    if types.has(v, field) {
        Ok(field)
    } else {
        Err(StoreKind::UnknownName)
    }
}

/// Puts a field's value among those given so far.
#[tactic(auto, unfolding(crate::specs::Saying::say_field))]
fn say_field(
    alloc: Global,
    types: &TypeTable,
    v: VariantId,
    values: &mut Items<Option<Value>>,
    given: &Given,
) -> Result<(), StoreKind>
    requires { length values.old ≡ length (fields_of types.now v.ty) }
    ensures said { OnOk result (say_field types.now v values.old given.now ≡ Ok values.new) }
    ensures stop { IfErr result (IsStop (say_field types.now v values.old given.now)) }
    ensures len { length values.new ≡ length values.old }
{
    let field = field_had(types, v, given.name.as_slice())?;
    let Some(kind) = types.kind(field) else {
        return Err(StoreKind::UnknownName);
    };
    let place = field.index as usize;
    if is_said(values, place) {
        return Err(StoreKind::Repeated);
    }
    let value = value_for(alloc, field_holds(kind), &given.value)?;
    values.set(place, Some(value));
    Ok(())
}

/// No value for each field of a type.
fn no_values(
    alloc: Global,
    types: &TypeTable,
    ty: TypeId,
) -> Result<Items<Option<Value>>, StoreKind>
    ensures values { IfOk result (λ values. values ≡ map (λ f. None) (fields_of types.now ty)) }
    ensures stop { IfErr result (λ kind. kind ≡ stop.NoMemory) }
{
    let mut values = Items::new(alloc);
    for _place in 0..types.fields(ty) {
        values.push(None)?;
    }
    Ok(values)
}

/// The values of a cell's fields.
fn say_fields(
    alloc: Global,
    types: &TypeTable,
    v: VariantId,
    fields: &[Given],
) -> Result<Items<Option<Value>>, StoreKind>
    ensures values { IfOk result (λ values. say_fields types.now v (map (λ f. None) (fields_of types.now v.ty)) fields.now ≡ Ok values) }
    ensures stop { IfErr result (IsStop (say_fields types.now v (map (λ f. None) (fields_of types.now v.ty)) fields.now)) }
    ensures len { IfOk result (λ values. length values ≡ length (fields_of types.now v.ty)) }
{
    let mut values = no_values(alloc, types, v.ty)?;
    for given in fields {
        say_field(alloc, types, v, &mut values, given)?;
    }
    Ok(values)
}

/// Notes where the value of the field at a place names cells; `Missing` where the variant has it and there is no value.
fn note_field(
    named: &mut Items<Mention>,
    types: &TypeTable,
    v: VariantId,
    line: u32,
    index: u32,
    value: &Option<Value>,
) -> Result<(), StoreKind>
    requires known { KnowsVariant types.now v }
    requires within { index < length (fields_of types.now v.ty) }
    ensures named { OnOk result (IsSomeAnd (named_at line v.index (fields_of types.now v.ty) index value.now) (λ more. named.new ≡ named.old ++ more)) }
    ensures stop { IfErr result (IsLacking (named_at line v.index (fields_of types.now v.ty) index value.now)) }
{
    let field = FieldId { ty: v.ty, index };
    let Some(value) = value else {
        if types.has(v, field) {
            return Err(StoreKind::Missing);
        }
        return Ok(());
    };
    let Some(kind) = types.kind(field) else {
        return Err(StoreKind::Missing);
    };
    note(named, line, field_holds(kind), value)?;
    Ok(())
}

/// Where a cell's fields name cells; `Missing` where a field of the variant has no value.
fn named_in(
    alloc: Global,
    types: &TypeTable,
    v: VariantId,
    line: u32,
    values: &[Option<Value>],
) -> Result<Items<Mention>, StoreKind>
    requires known { KnowsVariant types.now v }
    requires each { length values.now ≡ length (fields_of types.now v.ty) }
    ensures named { IfOk result (λ named. or_fault stop.Missing (named_in line v.index (fields_of types.now v.ty) values.now) ≡ Ok named) }
    ensures stop { IfErr result (IsStop (or_fault stop.Missing (named_in line v.index (fields_of types.now v.ty) values.now))) }
{
    let mut named = Items::new(alloc);
    for index in 0..types.fields(v.ty) {
        note_field(&mut named, types, v, line, index, &values[index as usize])?;
    }
    Ok(named)
}

/// A cell, and where it names others.
#[tactic(auto, unfolding(crate::specs::Saying::cell_said))]
pub fn cell_said(
    alloc: Global,
    types: &TypeTable,
    line: u32,
    cell: &CellLine,
) -> Result<(SaidCell, Items<Mention>), StoreKind>
    ensures said { IfOk result (λ said. cell_said types.now line cell.now ≡ Ok (said_cell said.0, said.1)) }
    ensures stop { IfErr result (IsStop (cell_said types.now line cell.now)) }
{
    let Some(ty) = types.find_type(cell.ty.as_slice()) else {
        return Err(StoreKind::UnknownName);
    };
    let variant = variant_named(types, ty, &cell.variant)?;
    let values = say_fields(alloc, types, variant, cell.fields.as_slice())?;
    let named = named_in(alloc, types, variant, line, values.as_slice())?;
    Ok((SaidCell { variant, values }, named))
}
