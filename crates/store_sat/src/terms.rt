//! What the terms of an assertion stand for.

ghost use Rattle.std.specs.Prelude.{◌≡◌, ◌↔◌, IsTrue, unwrap_or, Contains};
ghost use Rattle.std.specs.Option.{option_copied};
ghost use Rattle.store_core.specs.CellLists.{AreRising};
ghost use Rattle.store_logic.specs.Terms.{null, base_value, field_of_value, value_along, cell_at, truth_at, set_at};
ghost use Rattle.store_sat.specs.Tasks.{around};

use crate::bound::Bound;
use store_core::{CellId, FieldId, Store, Value};
use store_logic::{Base, Term};

/// A place in an assertion: the store and what is bound there.
#[derive(Clone, Copy)]
pub(crate) struct Place<'a> {
    pub(crate) store: &'a Store,
    pub(crate) bound: &'a Bound,
}

impl<'a> Place<'a> {
    /// What a name stands for; `None` for null.
    fn base(&self, base: Base) -> Option<&'a Value>
        ensures { unwrap_or (option_copied result) null ≡ base_value self.now.store.now (around self.now.bound.now) base }
    {
        match base {
            Base::Var(var) => self.store.var(var),
            Base::Bound(between) => self.bound.get(between),
            Base::Param(_) => None,
        }
    }

    /// The value of a field of a value; `None` for null.
    fn field(&self, value: Option<&'a Value>, field: FieldId) -> Option<&'a Value>
        ensures { unwrap_or (option_copied result) null ≡ field_of_value self.now.store.now (unwrap_or (option_copied value.entry) null) field }
    {
        match value {
            Some(Value::Cell(Some(cell))) => self.store.field(*cell, field),
            _ => None,
        }
    }

    /// What fields lead to, one after the other, from a value; `None` for null.
    fn along(&self, start: Option<&'a Value>, fields: &[FieldId]) -> Option<&'a Value>
        ensures { unwrap_or (option_copied result) null ≡ value_along self.now.store.now (unwrap_or (option_copied start.entry) null) fields.now }
    {
        let mut value = start;
        for field in fields {
            value = self.field(value, *field);
        }
        value
    }

    /// The live cell that a term is; `None` where it is null.
    pub(crate) fn cell(&self, term: &Term) -> Option<CellId>
        ensures { result ≡ cell_at self.now.store.now (around self.now.bound.now) term.now }
    {
        let Term::At(base, fields) = term else {
            return None;
        };
        match self.along(self.base(*base), fields.as_slice()) {
            Some(Value::Cell(Some(cell))) => {
                self.store.type_of(*cell)?;
                Some(*cell)
            }
            _ => None,
        }
    }

    /// Whether a term is true; null is not.
    pub(crate) fn truth(&self, term: &Term) -> bool
        ensures { result ≡ truth_at self.now.store.now (around self.now.bound.now) term.now }
    {
        let Term::At(base, fields) = term else {
            return false;
        };
        match self.along(self.base(*base), fields.as_slice()) {
            Some(Value::Bool(truth)) => *truth,
            _ => false,
        }
    }

    /// The set that a name stands for, which may hold dead cells.
    pub(crate) fn set(&self, base: Base) -> &'a [CellId]
        ensures value { result.now ≡ set_at self.now.store.now (around self.now.bound.now) base }
        ensures rising { AreRising result.now }
    {
        match self.base(base) {
            Some(Value::Cells(cells)) => cells.as_slice(),
            _ => &[],
        }
    }
}

/// Whether the cell is one of these, whose numbers rise. Takes no memory.
pub fn has(cells: &[CellId], cell: CellId) -> bool
    requires { AreRising cells.now }
    ensures { IsTrue result ↔ Contains cells.now cell }
{
    cells.binary_search_by_key(&cell.0, |c| c.0).is_ok()
}
