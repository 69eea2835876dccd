//! What the cells of a tree hold.

ghost use Rattle.std.specs.Prelude.{◌≡◌, ◌+◌, ◌<◌, suc, true, false, length, List, Some, IfOk};
ghost use Rattle.std.specs.Option.{option_map_or};
ghost use Rattle.gta_theory.specs.Assignments.{Position};
ghost use Rattle.ws2s_core.specs.LabelTrees.{IsTree, assignment_of};
ghost use Rattle.store_core.specs.Tables.{FieldEntry, KnowsVariant, field_at, fields_of};
ghost use Rattle.store_core.specs.StoreBodies.{AreLive, IsKept, cell_entry};
ghost use Rattle.store_core.specs.StoreBodies as kept;
ghost use Rattle.tree_encode.specs.declared.counting.Counted.TheVariants.{Children};
ghost use Rattle.tree_encode.specs.Counting.{counts, is_counted};
ghost use Rattle.tree_store.specs.Decoded.{Standing, slot_in, slots_in, cell_in, entries_in};
ghost use Rattle.witness_store.specs.Finding.{IsFoundAs, AreFoundAs};
ghost use Rattle.witness_store.specs.Reading.{IsBehind, AreRead};

use crate::cells::Found;
use crate::nodes::{is_on, left_of, number_at, right_of};
use plain_data::Items;
use std::alloc::{AllocError, Global};
use store_core::{CellBody, CellId, FieldId, FieldKind, Value};
use tree_encode::Layout;
use ws2s_core::TreeNode;

/// Whether fields of the kind lead to children.
fn leads_on(kind: &FieldKind) -> bool
    ensures { result ≡ counts Children kind.now }
{
    match kind {
        FieldKind::Data(_) => true,
        FieldKind::Bool | FieldKind::Pointer(_, _) => false,
    }
}

/// Whether the field is there and leads to a child.
fn is_data(l: &Layout<'_>, field: FieldId) -> bool
    ensures { result ≡ option_map_or (is_counted Children) (field_at l.now.types field) false }
{
    match l.types().kind(field) {
        Some(kind) => leads_on(kind),
        None => false,
    }
}

/// The place for the next field: behind a data field it is the right child.
fn place_behind(
    l: &Layout<'_>,
    nodes: &[TreeNode],
    field: FieldId,
    place: Option<u32>,
) -> Option<u32>
    ensures { (p : Position) → IsTree nodes.now → field.index < length (fields_of l.now.types field.ty) →
        IsBehind l.now.types nodes.now p field.ty field.index place →
        IsBehind l.now.types nodes.now p field.ty (field.index + 1) result }
{
    if is_data(l, field) {
        right_of(nodes, place)
    } else {
        place
    }
}

/// What a cell has in a field, where the field's child is the left one of this place; `None` where its variant hasn't the
/// field.
fn slot_of(
    l: &Layout<'_>,
    nodes: &[TreeNode],
    numbers: &[Option<CellId>],
    cell: Found,
    field: FieldId,
    place: Option<u32>,
) -> Option<Value>
    ensures { (cells : List Standing) (x : Standing) (entry : FieldEntry) → AreRead l.now.types nodes.now cells numbers.now →
        IsFoundAs nodes.now cell x → KnowsVariant l.now.types x.variant → field.ty ≡ x.variant.ty →
        field_at l.now.types field ≡ Some entry → IsBehind l.now.types nodes.now x.at field.ty field.index place →
        result ≡ slot_in l.now.types (assignment_of nodes.now) cells x field entry }
{
    if !l.types().has(cell.variant, field) {
        return None;
    }
    let kind = l.types().kind(field)?;
    match kind {
        FieldKind::Bool => {
            let truth = is_on(nodes, Some(cell.node), l.bool_track(field));
            Some(Value::Bool(truth))
        }
        FieldKind::Data(_) => {
            let child = left_of(nodes, place);
            Some(Value::Cell(number_at(numbers, child)))
        }
        FieldKind::Pointer(_, _) => Some(Value::Cell(None)),
    }
}

/// The values of the fields of a cell: its data fields lead to the left children of the node and of those that follow it to
/// the right, one after the other.
fn values_of(
    alloc: Global,
    l: &Layout<'_>,
    nodes: &[TreeNode],
    numbers: &[Option<CellId>],
    cell: Found,
) -> Result<Items<Option<Value>>, AllocError>
    ensures { IfOk result (λ values. (cells : List Standing) (x : Standing) → AreRead l.now.types nodes.now cells numbers.now →
        IsFoundAs nodes.now cell x → KnowsVariant l.now.types x.variant →
        values ≡ slots_in l.now.types (assignment_of nodes.now) cells x 0 (fields_of l.now.types x.variant.ty)) }
{
    let ty = cell.variant.ty;
    let mut values = Items::new(alloc);
    let mut place = Some(cell.node);
    for index in 0..l.types().fields(ty) {
        let field = FieldId { ty, index };
        values.push(slot_of(l, nodes, numbers, cell, field, place))?;
        place = place_behind(l, nodes, field, place);
    }
    Ok(values)
}

/// A cell with what it holds, under this number.
fn body_of(
    alloc: Global,
    l: &Layout<'_>,
    nodes: &[TreeNode],
    numbers: &[Option<CellId>],
    cell: Found,
    number: u32,
) -> Result<CellBody, AllocError>
    ensures number { IfOk result (λ body. body.number ≡ number) }
    ensures live { IfOk result (λ body. body.is_live ≡ true) }
    ensures entry { IfOk result (λ body. (cells : List Standing) (x : Standing) → AreRead l.now.types nodes.now cells numbers.now →
        IsFoundAs nodes.now cell x → KnowsVariant l.now.types x.variant →
        cell_entry body ≡ (number, cell_in l.now.types (assignment_of nodes.now) cells x)) }
{
    let values = values_of(alloc, l, nodes, numbers, cell)?;
    Ok(CellBody {
        number,
        variant: cell.variant,
        values,
        is_live: true,
    })
}

/// The cells with what they hold, numbered from 1.
pub(crate) fn bodies_of(
    alloc: Global,
    l: &Layout<'_>,
    nodes: &[TreeNode],
    numbers: &[Option<CellId>],
    cells: &[Found],
) -> Result<Vec<CellBody>, AllocError>
    requires { length cells.now < 4294967295 }
    ensures kept { IfOk result (λ bodies. IsKept bodies.items (suc (length cells.now))) }
    ensures live { IfOk result (λ bodies. AreLive bodies.items) }
    ensures entries { IfOk result (λ bodies. (standing : List Standing) → AreRead l.now.types nodes.now standing numbers.now →
        AreFoundAs nodes.now cells.now standing →
        kept.cells_of bodies.items ≡ entries_in l.now.types (assignment_of nodes.now) standing 1 standing) }
{
    let mut bodies = Vec::new(alloc);
    let mut number = 1u32;
    for cell in cells {
        bodies.push(body_of(alloc, l, nodes, numbers, *cell, number)?)?;
        number += 1;
    }
    Ok(bodies)
}
