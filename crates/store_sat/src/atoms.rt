//! Assertions without parts.

ghost use Rattle.std.specs.Prelude.{◌≡◌, ◌↔◌, IfOk, IsTrue, IsSomeAnd, Contains};
ghost use Rattle.store_core.specs.declared.ids.CellId.{CellId};
ghost use Rattle.store_core.specs.CellLists.{AreRising};
ghost use Rattle.store_core.specs.Stores.{IsLive};
ghost use Rattle.routing_walks.specs.Walks.{Walk, IsOfType, IsOfVariant};
ghost use Rattle.store_logic.specs.Terms.{cell_at, set_at};
ghost use Rattle.store_sat.specs.Tasks.{around};

use crate::terms::{Place, has};
use crate::walks::Walks;
use std::alloc::AllocError;
use store_core::{CellId, Route, Store, TypeId, VariantId};
use store_logic::{Base, Term};

/// Whether a cell is live and of the type.
pub(crate) fn is_of_type(store: &Store, ty: TypeId, cell: CellId) -> bool
    ensures { IsTrue result ↔ IsOfType store.now ty cell }
{
    match store.type_of(cell) {
        Some(own) => own == ty,
        None => false,
    }
}

impl Place<'_> {
    /// Whether a term is a live cell of the variant.
    pub(crate) fn is(&self, term: &Term, variant: VariantId) -> bool
        ensures { IsTrue result ↔ IsSomeAnd (cell_at self.now.store.now (around self.now.bound.now) term.now) (IsOfVariant self.now.store.now variant) }
    {
        match self.cell(term) {
            Some(cell) => self.store.variant_of(cell) == Some(variant),
            None => false,
        }
    }

    /// Whether two terms are the same cell, or both null.
    pub(crate) fn same(&self, one: &Term, other: &Term) -> bool
        ensures { IsTrue result ↔
            (cell_at self.now.store.now (around self.now.bound.now) one.now ≡ cell_at self.now.store.now (around self.now.bound.now) other.now) }
    {
        self.cell(one) == self.cell(other)
    }

    /// Whether a term is a cell of the set.
    pub(crate) fn is_member(&self, term: &Term, set: Base) -> bool
        ensures { IsTrue result ↔
            IsSomeAnd (cell_at self.now.store.now (around self.now.bound.now) term.now) (Contains (set_at self.now.store.now (around self.now.bound.now) set)) }
    {
        match self.cell(term) {
            Some(cell) => has(self.set(set), cell),
            None => false,
        }
    }

    /// Whether each live cell of the first set is in the second.
    pub(crate) fn is_subset(&self, set: Base, other: Base) -> bool
        ensures { IsTrue result ↔ ((c : CellId) → IsLive self.now.store.now c → Contains (set_at self.now.store.now (around self.now.bound.now) set) c
            → Contains (set_at self.now.store.now (around self.now.bound.now) other) c) }
    {
        are_covered(self.store, self.set(set), self.set(other))
    }
}

/// Whether a cell is dead or one of these.
fn is_covered(store: &Store, others: &[CellId], cell: CellId) -> bool
    requires { AreRising others.now }
    ensures { IsTrue result ↔ (IsLive store.now cell → Contains others.now cell) }
{
    match store.type_of(cell) {
        Some(_) => has(others, cell),
        None => true,
    }
}

/// Whether each of the cells is dead or one of the others.
fn are_covered(store: &Store, cells: &[CellId], others: &[CellId]) -> bool
    requires { AreRising others.now }
    ensures { IsTrue result ↔ ((c : CellId) → IsLive store.now c → Contains cells.now c → Contains others.now c) }
{
    for cell in cells {
        if !is_covered(store, others, *cell) {
            return false;
        }
    }
    true
}

/// Whether a walk of the route leads from the one term to the other.
pub(crate) fn is_walk<'a>(
    walks: &mut Walks<'a>,
    place: &Place,
    from: &Term,
    route: &'a Route,
    to: &Term,
) -> Result<bool, AllocError>
    requires { walks.old.store ≡ place.now.store.now }
    ensures value { IfOk result (λ truth. IsTrue truth ↔ IsSomeAnd (cell_at place.now.store.now (around place.now.bound.now) from.now)
        (λ a. IsSomeAnd (cell_at place.now.store.now (around place.now.bound.now) to.now)
        (λ b. Walk walks.old.types place.now.store.now walks.old.fields route.now a b))) }
    ensures kept { walks.new ≡ walks.old }
{
    let Some(from) = place.cell(from) else {
        return Ok(false);
    };
    let Some(to) = place.cell(to) else {
        return Ok(false);
    };
    walks.is_walk(route, from, to)
}
