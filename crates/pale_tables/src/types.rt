//! Declarations of types.

ghost use Rattle.std.specs.Prelude.{◌≡◌, ◌≤◌, [], ◌++◌, ◌∷◌, None, length, map, flat_map, filter_map, fold, IfOk, IfErr, OnOk};
ghost use Rattle.pale_tables.specs.Faults.{first_of, IsStop};
ghost use Rattle.pale_tables.specs.Names.{with_name, each_once};
ghost use Rattle.pale_tables.specs.Types.{bool_name, data_name, pointer_name, variant_name, names_in, noted, with_variants};
ghost use Rattle.pale_tables.specs.Types.{kind_of, field_entry, variant_fields, type_entry, field_row, type_row};
ghost use Rattle.pale_tables.specs.Types.{type_names_fault, form_fault, field_fault, fields_fault, with_fields, variants_fault, declaration_fault};

use crate::names::Names;
use crate::routes::read_route;
use crate::type_names::{Followed, TypeNames};
use pale_syntax::{FieldDeclaration, FieldForm, Name, TypeDeclaration, VariantDeclaration};
use pale_text::{RefusalKind, TextStop};
use plain_data::Items;
use std::alloc::{AllocError, Global};
use store_core::{ByteList, FieldKind};

const MOST_TYPES: usize = 32;

const MOST_FIELDS: usize = 32;

const MOST_VARIANTS: usize = 16;

/// A field as it is declared, with its names looked up.
#[derive(Drop)]
pub struct FieldRow {
    pub name: ByteList,
    /// The index of the one variant that has it, or `None` where all have it.
    pub only: Option<u32>,
    pub kind: FieldKind,
}

/// A type as it is declared, with its names looked up.
#[derive(Drop)]
pub struct TypeRow {
    pub name: ByteList,
    pub variants: Items<ByteList>,
    pub fields: Items<FieldRow>,
}

/// Looks at the names of types, in order of the text.
///
/// # Errors
///
/// `Refused` is `duplicate` at the second type of a name, and `many-types` at the name of the 33rd type.
pub fn check_type_names(alloc: Global, types: &[&TypeDeclaration]) -> Result<(), TextStop>
    ensures met { OnOk result (type_names_fault [] (map (λ t. t.now.name) types.now) ≡ None) }
    ensures stop { IfErr result (IsStop (type_names_fault [] (map (λ t. t.now.name) types.now))) }
{
    let mut before = Names::new(alloc);
    for ty in types {
        let name = ty.name.bytes.as_slice();
        before.need_new(&ty.name, MOST_TYPES, RefusalKind::ManyTypes)?;
        before.add(name)?;
    }
    Ok(())
}

/// Adds the names of fields, each among those of its kind.
fn note_fields(names: &mut TypeNames, fields: &[FieldDeclaration]) -> Result<(), AllocError>
    ensures { OnOk result (names.new ≡ noted fields.now names.old) }
{
    for field in fields {
        let name = field.name.bytes.as_slice();
        match field.form {
            FieldForm::Bool => names.bool_fields.add(name)?,
            FieldForm::Data(_) => names.data_fields.add(name)?,
            FieldForm::Pointer(_, _, _) => names.pointer_fields.add(name)?,
        }
    }
    Ok(())
}

/// Adds the names of the variants and of their fields.
#[tactic(auto, using(crate::proofs::TypesLemmas::noted_append))]
fn note_variants(
    alloc: Global,
    names: &mut TypeNames,
    variants: &[VariantDeclaration],
) -> Result<(), AllocError>
    ensures { OnOk result (names.new ≡ with_variants variants.now names.old) }
{
    let mut named = Names::new(alloc);
    for variant in variants {
        named.add(variant.name.bytes.as_slice())?;
        note_fields(names, variant.fields.as_slice())?;
    }
    names.variants.push(named)?;
    Ok(())
}

/// The names that the declarations give.
#[tactic(auto, using(crate::proofs::TypesLemmas::types_next, crate::proofs::TypesLemmas::types_all))]
pub fn read_names(alloc: Global, types: &[&TypeDeclaration]) -> Result<TypeNames, AllocError>
    ensures { IfOk result (λ names. names ≡ names_in (map (λ t. t.now) types.now)) }
{
    let mut names = TypeNames::new(alloc);
    for ty in types {
        names.types.add(ty.name.bytes.as_slice())?;
        note_fields(&mut names, ty.fields.as_slice())?;
        note_variants(alloc, &mut names, ty.variants.as_slice())?;
    }
    Ok(names)
}

/// What a field holds.
#[tactic(auto, using(crate::proofs::NamesLemmas::type_first, crate::proofs::FaultLemmas::stops))]
fn read_form(alloc: Global, names: &TypeNames, form: &FieldForm) -> Result<FieldKind, TextStop>
    ensures met { OnOk result (form_fault names.now form.now ≡ None) }
    ensures kind { IfOk result (λ kind. kind ≡ kind_of names.now form.now) }
    ensures stop { IfErr result (IsStop (form_fault names.now form.now)) }
{
    match form {
        FieldForm::Bool => Ok(FieldKind::Bool),
        FieldForm::Data(target) => Ok(FieldKind::Data(names.find_type(target)?)),
        FieldForm::Pointer(target, bracket, route) => {
            let target = names.find_type(target)?;
            let route = read_route(alloc, names, Followed::Data, *bracket, route)?;
            Ok(FieldKind::Pointer(target, route))
        }
    }
}

/// A field after those that the type has before.
fn read_field(
    alloc: Global,
    names: &TypeNames,
    before: &mut Names,
    only: Option<u32>,
    field: &FieldDeclaration,
) -> Result<FieldRow, TextStop>
    ensures met { OnOk result (field_fault names.now before.old field.now ≡ None) }
    ensures row { IfOk result (λ row. field_row row ≡ field_entry names.now only field.now) }
    ensures before { OnOk result (before.new ≡ before.old ++ field.now.name.bytes ∷ []) }
    ensures stop { IfErr result (IsStop (field_fault names.now before.old field.now)) }
{
    let name = field.name.bytes.as_slice();
    before.need_new(&field.name, MOST_FIELDS, RefusalKind::ManyFields)?;
    let kind = read_form(alloc, names, &field.form)?;
    before.add(name)?;
    let name = Items::from_slice(alloc, name)?;
    Ok(FieldRow { name, only, kind })
}

/// Fields after those that the type has before.
fn read_fields(
    alloc: Global,
    names: &TypeNames,
    before: &mut Names,
    only: Option<u32>,
    fields: &[FieldDeclaration],
    rows: &mut Items<FieldRow>,
) -> Result<(), TextStop>
    ensures met { OnOk result (fields_fault names.now before.old fields.now ≡ None) }
    ensures rows { OnOk result (map field_row rows.new ≡ map field_row rows.old ++ map (field_entry names.now only) fields.now) }
    ensures before { OnOk result (before.new ≡ with_fields before.old fields.now) }
    ensures stop { IfErr result (IsStop (fields_fault names.now before.old fields.now)) }
{
    for field in fields {
        let row = read_field(alloc, names, before, only, field)?;
        rows.push(row)?;
    }
    Ok(())
}

/// The variants of a type, each with its fields.
fn read_variants(
    alloc: Global,
    names: &TypeNames,
    before: &mut Names,
    variants: &[VariantDeclaration],
    rows: &mut Items<FieldRow>,
) -> Result<Items<ByteList>, TextStop>
    ensures met { OnOk result (variants_fault names.now before.old [] variants.now ≡ None) }
    ensures names { IfOk result (λ list. list ≡ map variant_name variants.now) }
    ensures rows { OnOk result (map field_row rows.new ≡ map field_row rows.old ++ variant_fields names.now 0 variants.now) }
    ensures stop { IfErr result (IsStop (variants_fault names.now before.old [] variants.now)) }
{
    let mut named = Names::new(alloc);
    let mut list = Items::new(alloc);
    for variant in variants {
        let name = variant.name.bytes.as_slice();
        named.need_new(&variant.name, MOST_VARIANTS, RefusalKind::ManyVariants)?;
        let only = Some(named.len() as u32);
        read_fields(alloc, names, before, only, variant.fields.as_slice(), rows)?;
        named.add(name)?;
        list.push(Items::from_slice(alloc, name)?)?;
    }
    Ok(list)
}

/// A type: its common fields, and then each variant in order.
#[tactic(auto, unfolding(crate::specs::Types::declaration_fault))]
fn read_type(alloc: Global, names: &TypeNames, ty: &TypeDeclaration) -> Result<TypeRow, TextStop>
    ensures met { OnOk result (declaration_fault names.now ty.now ≡ None) }
    ensures row { IfOk result (λ row. type_row row ≡ type_entry names.now ty.now) }
    ensures stop { IfErr result (IsStop (declaration_fault names.now ty.now)) }
{
    let mut before = Names::new(alloc);
    let mut fields = Items::new(alloc);
    read_fields(
        alloc,
        names,
        &mut before,
        None,
        ty.fields.as_slice(),
        &mut fields,
    )?;
    let variants = read_variants(
        alloc,
        names,
        &mut before,
        ty.variants.as_slice(),
        &mut fields,
    )?;
    let name = Items::from_slice(alloc, ty.name.bytes.as_slice())?;
    Ok(TypeRow {
        name,
        variants,
        fields,
    })
}

/// The types in order, whose names have no fault.
///
/// # Errors
///
/// `Refused` is the first fault: in each type the common fields and then each variant, its name before its fields. `duplicate` and
/// `many-fields` at a field's name, `duplicate` and `many-variants` at a variant's, `unknown` at a type's name, and the faults of
/// routes.
pub fn read_types(
    alloc: Global,
    names: &TypeNames,
    types: &[&TypeDeclaration],
) -> Result<Items<TypeRow>, TextStop>
    ensures met { OnOk result (first_of (declaration_fault names.now) (map (λ t. t.now) types.now) ≡ None) }
    ensures rows { IfOk result (λ rows. map type_row rows ≡ map (type_entry names.now) (map (λ t. t.now) types.now)) }
    ensures stop { IfErr result (IsStop (first_of (declaration_fault names.now) (map (λ t. t.now) types.now))) }
{
    let mut rows = Items::new(alloc);
    for ty in types {
        let row = read_type(alloc, names, ty)?;
        rows.push(row)?;
    }
    Ok(rows)
}
