//! The store text of a store.
ghost use Rattle.std.specs.Prelude.{◌≡◌, ◌++◌, IfOk, OnOk, length, codes};
ghost use Rattle.std.specs.List.{AllByRecursion, join_by};
ghost use Rattle.std.specs.Fmt.{decimal};
ghost use Rattle.store_core.specs.Tables.{fields_of};
ghost use Rattle.store_core.specs.Stores.{Fits};
ghost use Rattle.store_core.specs.StoreBodies.{cell_entry};
ghost use Rattle.std.specs.FinMap.{entries};
ghost use Rattle.store_text.specs.StoreText.{HasSlots, cell_text, value_text, slot_text, slots_text, variant_text, var_line, var_lines, cell_line};
ghost use Rattle.store_text.specs.StoreText.{cell_lines, store_text_of};

use plain_data::at;
use std::alloc::{AllocError, Global};
use store_core::{
    CellBody, CellId, FieldId, Store, TypeId, TypeTable, Value, VarId, VarTable, VariantId,
};

fn push_number(alloc: Global, text: &mut Vec<u8>, number: u32) -> Result<(), AllocError>
    ensures { OnOk result (text.new.items ≡ text.old.items ++ decimal number) }
{
    text.extend_from_slice(number.to_string(alloc)?.as_bytes())
}

/// The cells of a set, separated by one space.
fn push_members(alloc: Global, text: &mut Vec<u8>, cells: &[CellId]) -> Result<(), AllocError>
    ensures { OnOk result (text.new.items ≡ text.old.items ++ join_by cell_text (codes " ") cells.now) }
{
    let Some((first, others)) = cells.split_first() else {
        return Ok(());
    };
    push_number(alloc, text, first.0)?;
    for cell in others {
        text.push(b' ')?;
        push_number(alloc, text, cell.0)?;
    }
    Ok(())
}

fn push_value(alloc: Global, text: &mut Vec<u8>, value: &Value) -> Result<(), AllocError>
    ensures { OnOk result (text.new.items ≡ text.old.items ++ value_text value.now) }
{
    match value {
        Value::Bool(true) => text.extend_from_slice(b"true"),
        Value::Bool(false) => text.extend_from_slice(b"false"),
        Value::Cell(None) => text.extend_from_slice(b"null"),
        Value::Cell(Some(cell)) => push_number(alloc, text, cell.0),
        Value::Cells(cells) => {
            text.extend_from_slice(b"{")?;
            push_members(alloc, text, cells.as_slice())?;
            text.extend_from_slice(b"}")
        }
    }
}

fn push_var(alloc: Global, text: &mut Vec<u8>, name: &[u8], value: &Value) -> Result<(), AllocError>
    ensures { OnOk result (text.new.items ≡ text.old.items ++ var_line name.now value.now) }
{
    text.extend_from_slice(b"var ")?;
    text.extend_from_slice(name)?;
    text.extend_from_slice(b" ")?;
    push_value(alloc, text, value)?;
    text.extend_from_slice(b"\n")
}

fn push_vars(
    alloc: Global,
    text: &mut Vec<u8>,
    vars: &VarTable,
    values: &[Value],
) -> Result<(), AllocError>
    requires { length values.now ≡ length vars.now }
    ensures { OnOk result (text.new.items ≡ text.old.items ++ var_lines vars.now values.now) }
{
    for index in 0..vars.vars() {
        let (Some(name), Some(value)) = (vars.name(VarId(index)), at(values, index as usize)) else {
            unreachable!()
        };
        push_var(alloc, text, name, value)?;
    }
    Ok(())
}

/// ` FIELD=VALUE`, and nothing where the field isn't had.
fn push_field(
    alloc: Global,
    text: &mut Vec<u8>,
    name: &[u8],
    slot: &Option<Value>,
) -> Result<(), AllocError>
    ensures { OnOk result (text.new.items ≡ text.old.items ++ slot_text name.now slot.now) }
{
    let Some(value) = slot else {
        return Ok(());
    };
    text.extend_from_slice(b" ")?;
    text.extend_from_slice(name)?;
    text.extend_from_slice(b"=")?;
    push_value(alloc, text, value)
}

fn push_fields(
    alloc: Global,
    text: &mut Vec<u8>,
    types: &TypeTable,
    ty: TypeId,
    slots: &[Option<Value>],
) -> Result<(), AllocError>
    requires { length slots.now ≡ length (fields_of types.now ty) }
    ensures { OnOk result (text.new.items ≡ text.old.items ++ slots_text (fields_of types.now ty) slots.now) }
{
    for index in 0..types.fields(ty) {
        let (Some(name), Some(slot)) = (
            types.field_name(FieldId { ty, index }),
            at(slots, index as usize),
        ) else {
            unreachable!()
        };
        push_field(alloc, text, name, slot)?;
    }
    Ok(())
}

/// `TYPE`, or `TYPE:VARIANT` for a named variant.
fn push_variant(text: &mut Vec<u8>, types: &TypeTable, v: VariantId) -> Result<(), AllocError>
    ensures { OnOk result (text.new.items ≡ text.old.items ++ variant_text types.now v) }
{
    if let Some(name) = types.type_name(v.ty) {
        text.extend_from_slice(name)?;
    }
    if let Some(name) = types.variant_name(v) {
        text.extend_from_slice(b":")?;
        text.extend_from_slice(name)?;
    }
    Ok(())
}

fn push_cell(
    alloc: Global,
    text: &mut Vec<u8>,
    types: &TypeTable,
    cell: &CellBody,
) -> Result<(), AllocError>
    requires { length cell.now.values ≡ length (fields_of types.now cell.now.variant.ty) }
    ensures { OnOk result (text.new.items ≡ text.old.items ++ cell_line types.now cell.now.number (cell_entry cell.now).1) }
{
    text.extend_from_slice(b"cell ")?;
    push_number(alloc, text, cell.number)?;
    text.extend_from_slice(b" ")?;
    push_variant(text, types, cell.variant)?;
    push_fields(alloc, text, types, cell.variant.ty, cell.values.as_slice())?;
    text.extend_from_slice(b"\n")
}

fn push_cells(
    alloc: Global,
    text: &mut Vec<u8>,
    types: &TypeTable,
    store: &Store,
) -> Result<(), AllocError>
    requires { AllByRecursion (λ e. HasSlots types.now e.1) (entries store.now.cells) }
    ensures { OnOk result (text.new.items ≡ text.old.items ++ cell_lines types.now (entries store.now.cells)) }
{
    for place in 0..store.cells() {
        let Some(cell) = store.body_at(place) else {
            unreachable!()
        };
        push_cell(alloc, text, types, cell)?;
    }
    Ok(())
}

/// The store text of a store that fits its tables.
pub fn store_text(
    alloc: Global,
    types: &TypeTable,
    vars: &VarTable,
    store: &Store,
) -> Result<Vec<u8>, AllocError>
    requires { Fits types.now vars.now store.now }
    ensures { IfOk result (λ text. text.items ≡ store_text_of types.now vars.now store.now) }
{
    let mut text = Vec::new(alloc);
    text.extend_from_slice(b"store\n")?;
    push_vars(alloc, &mut text, vars, store.values())?;
    push_cells(alloc, &mut text, types, store)?;
    text.extend_from_slice(b"end\n")?;
    Ok(text)
}
