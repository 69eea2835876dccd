//! Where a single step leads.

ghost use Rattle.std.specs.Prelude.{◌≡◌, ◌↔◌, Some, IfOk, IsTrue, IsSomeAnd};
ghost use Rattle.store_core.specs.declared.ids.CellId.{CellId};
ghost use Rattle.store_core.specs.declared.ids.FieldId.{FieldId};
ghost use Rattle.store_core.specs.Tables.{field_at};
ghost use Rattle.routing_walks.specs.Walks.{DataAlone, IsNamed, IsParent, IsFollowed, IsRoot, IsLeaf, IsOfType, IsOfVariant, HasTruth};
ghost use Rattle.routing_walks.specs.Gathering.{HasAll};
ghost use Rattle.routing_expr.specs.Searches.{IsIndexed, LeadsIn};
ghost use Rattle.routing_expr.specs.Machines.{label_of, label_of_test};
ghost use Rattle.routing_expr.specs.Spots.{TakesIn};

use crate::followed::Followed;
use crate::indexing::child_at;
use crate::machine::{Step, Test};
use crate::search::Search;
use std::alloc::AllocError;
use store_core::{CellId, FieldId, FieldKind, TypeId, TypeTable, Value, VariantId};

/// The field of this name that a type has, of which there is one at most.
fn field_named(types: &TypeTable, ty: TypeId, name: &[u8]) -> Option<FieldId>
    ensures { (f : FieldId) → (result ≡ Some f) ↔ ((f.ty ≡ ty) × IsNamed types.now f name.now) }
{
    if ty.0 >= types.types() {
        return None;
    }
    types.find_field(ty, name)
}

fn is_named(types: &TypeTable, field: FieldId, name: &[u8]) -> bool
    ensures { IsTrue result ↔ IsNamed types.now field name.now }
{
    match field_named(types, field.ty, name) {
        Some(found) => found == field,
        None => false,
    }
}

impl Search<'_> {
    /// The cell to which the field of this name leads.
    fn child(&self, name: &[u8], from: CellId) -> Option<CellId>
        ensures { (d : CellId) → (result ≡ Some d) ↔ LeadsIn self.now name.now from d }
    {
        let ty = self.store.type_of(from)?;
        let field = field_named(self.types, ty, name)?;
        child_at(self.types, self.store, self.followed, from, field)
    }

    fn is_data(&self, field: FieldId) -> bool
        ensures { IsTrue result ↔ IsSomeAnd (field_at self.now.types.now field) (λ entry. IsFollowed DataAlone entry.kind) }
    {
        matches!(self.types.kind(field), Some(FieldKind::Data(_)))
    }

    /// The cells of which a field of this name leads to the cell.
    fn parents(&self, name: &[u8], from: CellId) -> Result<Vec<CellId>, AllocError>
        requires { IsIndexed self.now }
        ensures { IfOk result (λ cells. HasAll cells.items (λ a. LeadsIn self.now name.now a from)) }
    {
        let mut parents = Vec::new(self.alloc);
        for link in self.links.to(from) {
            if is_named(self.types, link.field, name) {
                parents.push(link.parent)?;
            }
        }
        Ok(parents)
    }

    /// The cells of which a data field leads to the cell.
    fn all_parents(&self, from: CellId) -> Result<Vec<CellId>, AllocError>
        requires { IsIndexed self.now }
        ensures { IfOk result (λ cells. HasAll cells.items (λ a. IsParent self.now.types.now self.now.store.now a from)) }
    {
        let mut parents = Vec::new(self.alloc);
        for link in self.links.to(from) {
            if self.is_data(link.field) {
                parents.push(link.parent)?;
            }
        }
        Ok(parents)
    }

    fn is_root(&self, cell: CellId) -> bool
        requires { IsIndexed self.now }
        ensures { IsTrue result ↔ IsRoot self.now.types.now self.now.store.now cell }
    {
        if self.store.type_of(cell).is_none() {
            return false;
        }
        for link in self.links.to(cell) {
            if self.is_data(link.field) {
                return false;
            }
        }
        true
    }

    fn is_leaf(&self, cell: CellId) -> bool
        ensures { IsTrue result ↔ IsLeaf self.now.types.now self.now.store.now cell }
    {
        let Some(ty) = self.store.type_of(cell) else {
            return false;
        };
        for index in 0..self.types.fields(ty) {
            let field = FieldId { ty, index };
            if child_at(self.types, self.store, Followed::Data, cell, field).is_some() {
                return false;
            }
        }
        true
    }

    fn has_truth(&self, name: &[u8], truth: bool, cell: CellId) -> bool
        ensures { IsTrue result ↔ HasTruth self.now.types.now self.now.store.now name.now truth cell }
    {
        let Some(ty) = self.store.type_of(cell) else {
            return false;
        };
        let Some(field) = field_named(self.types, ty, name) else {
            return false;
        };
        match self.store.field(cell, field) {
            Some(Value::Bool(held)) => *held == truth,
            _ => false,
        }
    }

    pub(crate) fn is_of_type(&self, ty: TypeId, cell: CellId) -> bool
        ensures { IsTrue result ↔ IsOfType self.now.store.now ty cell }
    {
        match self.store.type_of(cell) {
            Some(found) => found == ty,
            None => false,
        }
    }

    fn is_of_variant(&self, v: VariantId, cell: CellId) -> bool
        ensures { IsTrue result ↔ IsOfVariant self.now.store.now v cell }
    {
        match self.store.variant_of(cell) {
            Some(found) => found == v,
            None => false,
        }
    }

    fn passes(&self, test: Test, cell: CellId) -> bool
        requires { IsIndexed self.now }
        ensures { IsTrue result ↔ TakesIn self.now (label_of_test test.entry) cell cell }
    {
        match test {
            Test::Live => self.store.type_of(cell).is_some(),
            Test::Root => self.is_root(cell),
            Test::Leaf => self.is_leaf(cell),
            Test::IsType(ty) => self.is_of_type(ty, cell),
            Test::IsVariant(v) => self.is_of_variant(v, cell),
            Test::IsBool(name, truth) => self.has_truth(name, truth, cell),
        }
    }

    /// The cell, where there is one.
    fn just(&self, cell: Option<CellId>) -> Result<Vec<CellId>, AllocError>
        ensures { IfOk result (λ cells. HasAll cells.items (λ d. cell ≡ Some d)) }
    {
        let mut cells = Vec::new(self.alloc);
        if let Some(cell) = cell {
            cells.push(cell)?;
        }
        Ok(cells)
    }

    /// The cells to which a step leads.
    pub(crate) fn next(&self, step: Step, from: CellId) -> Result<Vec<CellId>, AllocError>
        requires { IsIndexed self.now }
        ensures { IfOk result (λ cells. HasAll cells.items (TakesIn self.now (label_of step.entry) from)) }
    {
        match step {
            Step::Down(name) => self.just(self.child(name, from)),
            Step::Up(name) => self.parents(name, from),
            Step::UpAny => self.all_parents(from),
            Step::Stay(test) if self.passes(test, from) => self.just(Some(from)),
            Step::Stay(_) => self.just(None),
        }
    }
}
