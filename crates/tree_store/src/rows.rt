//! What a layout says of each type and each slot, looked up once.

ghost use Rattle.std.specs.Prelude.{length, IfOk};
ghost use Rattle.store_core.specs.Tables.{fields_of};
ghost use Rattle.tree_encode.specs.declared.counting.Counted.TheVariants.{Children};
ghost use Rattle.tree_encode.specs.Counting.{is_counted, is_data_var};
ghost use Rattle.tree_store.specs.Rows.{AreNumbered, AreBools, IsRow, AreRows, IsRows, field_in, var_number};

use plain_data::Items;
use std::alloc::{AllocError, Global};
use store_core::{FieldId, TypeId, VarId};
use tree_encode::Layout;
use ws2s_core::Track;

/// The fields of a type that its cells' tree has.
#[derive(Drop)]
pub(crate) struct Row {
    /// The data fields, each at the number of the child that it leads to.
    pub children: Items<FieldId>,
    /// The bool fields with their tracks.
    pub bools: Items<(FieldId, Track)>,
}

/// A row for each type by its number, and the data variable of each slot.
#[derive(Drop)]
pub(crate) struct Rows {
    pub types: Items<Row>,
    pub slots: Items<VarId>,
}

/// The data fields of a type in order.
fn children_of(alloc: Global, l: &Layout<'_>, ty: TypeId) -> Result<Items<FieldId>, AllocError>
    ensures { IfOk result (λ fields. AreNumbered (is_counted Children) (field_in ty) (fields_of l.now.types ty) (length (fields_of l.now.types ty)) fields) }
{
    let mut fields = Items::new(alloc);
    for index in 0..l.types().fields(ty) {
        let field = FieldId { ty, index };
        if l.child(field).is_some() {
            fields.push(field)?;
        }
    }
    Ok(fields)
}

/// The bool fields of a type, with their tracks.
fn bools_of(
    alloc: Global,
    l: &Layout<'_>,
    ty: TypeId,
) -> Result<Items<(FieldId, Track)>, AllocError>
    ensures { IfOk result (λ bools. AreBools l.now.types ty (length (fields_of l.now.types ty)) bools) }
{
    let mut bools = Items::new(alloc);
    for index in 0..l.types().fields(ty) {
        let field = FieldId { ty, index };
        if let Some(track) = l.bool_track(field) {
            bools.push((field, track))?;
        }
    }
    Ok(bools)
}

/// The row of a type.
fn row_of(alloc: Global, l: &Layout<'_>, ty: TypeId) -> Result<Row, AllocError>
    ensures { IfOk result (λ row. IsRow l.now.types ty row) }
{
    let children = children_of(alloc, l, ty)?;
    let bools = bools_of(alloc, l, ty)?;
    Ok(Row { children, bools })
}

/// The rows of all types.
fn type_rows(alloc: Global, l: &Layout<'_>) -> Result<Items<Row>, AllocError>
    ensures { IfOk result (λ rows. AreRows l.now.types (length l.now.types) rows) }
{
    let mut rows = Items::new(alloc);
    for index in 0..l.types().types() {
        rows.push(row_of(alloc, l, TypeId(index))?)?;
    }
    Ok(rows)
}

/// The data variables in order.
fn slot_vars(alloc: Global, l: &Layout<'_>) -> Result<Items<VarId>, AllocError>
    ensures { IfOk result (λ slots. AreNumbered is_data_var var_number l.now.vars (length l.now.vars) slots) }
{
    let mut slots = Items::new(alloc);
    for index in 0..l.vars().vars() {
        let var = VarId(index);
        if l.slot(var).is_some() {
            slots.push(var)?;
        }
    }
    Ok(slots)
}

/// The rows of a layout.
pub(crate) fn rows_of(alloc: Global, l: &Layout<'_>) -> Result<Rows, AllocError>
    ensures { IfOk result (λ rows. IsRows l.now.types l.now.vars rows) }
{
    let types = type_rows(alloc, l)?;
    let slots = slot_vars(alloc, l)?;
    Ok(Rows { types, slots })
}
