//! How the index from child to parent is made.

ghost use Rattle.std.specs.Prelude.{◌≡◌, ◌↔◌, Some, IfOk, OnOk, IsTrue, IsSomeAnd};
ghost use Rattle.store_core.specs.declared.ids.CellId.{CellId};
ghost use Rattle.store_core.specs.Tables.{field_at};
ghost use Rattle.store_core.specs.Stores.{field_value};
ghost use Rattle.routing_walks.specs.Walks.{Leads, IsFollowed};
ghost use Rattle.routing_walks.specs.Gathering.{Gathers, HasAll};
ghost use Rattle.routing_expr.specs.Searches.{fields_in, IsLink};

use crate::followed::Followed;
use crate::links::{Link, Links};
use std::alloc::{AllocError, Global};
use store_core::{CellId, FieldId, FieldKind, Store, TypeTable, Value};

/// Whether the field is one that is followed.
pub(crate) fn is_followed(types: &TypeTable, followed: Followed, field: FieldId) -> bool
    ensures { IsTrue result ↔ IsSomeAnd (field_at types.now field) (λ entry. IsFollowed (fields_in followed) entry.kind) }
{
    match types.kind(field) {
        Some(FieldKind::Data(_)) => true,
        Some(FieldKind::Pointer(_, _)) => followed == Followed::DataAndPointers,
        _ => false,
    }
}

/// The cell that a field holds, dead or live.
fn held(store: &Store, parent: CellId, field: FieldId) -> Option<CellId>
    ensures { (d : CellId) → (result ≡ Some d) ↔ (field_value store.now parent field ≡ Some (Value.Cell (Some d))) }
{
    match store.field(parent, field) {
        Some(Value::Cell(Some(cell))) => Some(*cell),
        _ => None,
    }
}

/// The live cell to which a followed field leads.
pub(crate) fn child_at(
    types: &TypeTable,
    store: &Store,
    followed: Followed,
    parent: CellId,
    field: FieldId,
) -> Option<CellId>
    ensures { (d : CellId) → (result ≡ Some d) ↔ Leads types.now store.now (fields_in followed) field parent d }
{
    if !is_followed(types, followed, field) {
        return None;
    }
    let child = held(store, parent, field)?;
    store.type_of(child)?;
    Some(child)
}

/// Puts the links from a cell at the end.
fn push_links(
    links: &mut Vec<Link>,
    types: &TypeTable,
    store: &Store,
    followed: Followed,
    parent: CellId,
) -> Result<(), AllocError>
    ensures { OnOk result (Gathers links.old.items links.new.items (λ link. (link.parent ≡ parent) × IsLink types.now store.now (fields_in followed) link)) }
{
    let Some(ty) = store.type_of(parent) else {
        return Ok(());
    };
    for index in 0..types.fields(ty) {
        let field = FieldId { ty, index };
        if let Some(child) = child_at(types, store, followed, parent, field) {
            links.push(Link {
                child,
                parent,
                field,
            })?;
        }
    }
    Ok(())
}

impl Links {
    /// The links over followed fields.
    pub(crate) fn new(
        alloc: Global,
        types: &TypeTable,
        store: &Store,
        followed: Followed,
    ) -> Result<Links, AllocError>
        ensures { IfOk result (λ links. HasAll links.links.items (IsLink types.now store.now (fields_in followed))) }
    {
        let mut links = Vec::new(alloc);
        for place in 0..store.cells() {
            let Some(parent) = store.cell_at(place) else {
                unreachable!()
            };
            push_links(&mut links, types, store, followed, parent)?;
        }
        links.sort_by_key(|link| link.child.0)?;
        Ok(Links { links })
    }
}
