//! Stores worked by hand, as texts: the first condition of a cut that each breaks, the cells reached from a variable, and the
//! store and the ends of walks on a set of its cells.

ghost use Rattle.store_core.specs.Stores.{Fits};

mod stores;

use crate::questions::{Question, answers};
use crate::walks::lists;
use routing_expr::{Followed, cut_fault, ends_on, reached, store_on};
use routing_walks::CutFault;
use std::alloc::{AllocError, Global};
use std::test::Fail;
use store_core::{CellId, CellList, Route, Store, TypeTable, Value, VarId, VarTable};
use store_logic::Assertion;
use stores::{STORES, VARS};

/// What is said of a store.
pub(crate) struct Cut {
    fault: Option<CutFault>,
    /// The cells reached from `x`.
    reached: &'static str,
    /// How many cells the store on the set `S` has.
    live: usize,
    /// The ends of `next*` from the cell 1 on it.
    ends: &'static str,
}

/// Whether the cells reached from `x` are those.
fn is_reached(
    alloc: Global,
    types: &TypeTable,
    vars: &VarTable,
    store: &Store,
    wanted: &str,
) -> Result<bool, AllocError> {
    let from_x = reached(alloc, types, vars, store, &[VarId(0)])?;
    Ok(lists(&from_x, wanted))
}

/// How many cells the store on these has.
fn live_on(alloc: Global, store: &Store, cells: &CellList) -> Result<usize, AllocError> {
    let on = store_on(alloc, store, cells)?;
    Ok(on.cells())
}

/// Whether the route leads from the cell 1 to those, on these cells.
fn leads_on(
    alloc: Global,
    types: &TypeTable,
    store: &Store,
    cells: &CellList,
    route: &Route,
    wanted: &str,
) -> Result<bool, AllocError> {
    let found = ends_on(alloc, types, store, cells, route, Followed::Data, CellId(1))?;
    Ok(lists(&found, wanted))
}

/// Whether the store and the walk on `S` are as it is said.
fn is_on_set(
    alloc: Global,
    types: &TypeTable,
    pre: &Assertion,
    store: &Store,
    cut: &Cut,
) -> Result<bool, AllocError> {
    let (Some(Value::Cells(cells)), Assertion::Walk(_, route, _)) = (store.var(VarId(2)), pre)
    else {
        return Ok(false);
    };
    Ok(
        live_on(alloc, store, cells)? == cut.live
            && leads_on(alloc, types, store, cells, route, cut.ends)?,
    )
}

/// Whether what is said is so. The precondition walks `next*`.
pub(crate) fn is_cut(
    alloc: Global,
    types: &TypeTable,
    vars: &VarTable,
    pre: &Assertion,
    store: &Store,
    cut: &Cut,
) -> Result<bool, AllocError>
    requires { Fits types.now vars.now store.now }
{
    Ok(
        cut_fault(alloc, types, vars, store)? == cut.fault
            && is_reached(alloc, types, vars, store, cut.reached)?
            && is_on_set(alloc, types, pre, store, cut)?,
    )
}

#[test]
fn cuts_parts_and_sets_of_cells_are_judged(rt: HostRuntime) -> Result<(), Fail> {
    for (text, cut) in STORES {
        let is_so = answers(rt.alloc(), VARS, "x<next*>y", text, Question::Cut(cut))?;
        assert!(rt; is_so, "{text}");
    }
    Ok(())
}
