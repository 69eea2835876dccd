//! The cells that paths of data fields reach from listed variables.

ghost use Rattle.std.specs.Prelude.{◌≡◌, ◌⊎◌, ◌↔◌, IfOk, OnOk};
ghost use Rattle.store_core.specs.declared.ids.CellId.{CellId};
ghost use Rattle.store_core.specs.Stores.{IsLive};
ghost use Rattle.routing_walks.specs.WellFormed.{Names};
ghost use Rattle.routing_walks.specs.Regions.{IsReachedFrom, IsPart};
ghost use Rattle.routing_walks.specs.Sets.{Lists, Has};
ghost use Rattle.routing_walks.specs.Reaching.{IsUnreached};
ghost use Rattle.routing_expr.specs.Reached.{IsRootCell, IsChild, Reaches};

use crate::names::named_cell;
use routing_walks::Place;
use std::alloc::{AllocError, Global};
use std::collections::BTreeSet;
use store_core::{CellId, CellList, FieldId, Store, TypeTable, VarId, VarTable};

/// How far a store is searched from variables along the data fields.
#[derive(Drop)]
struct Reach {
    /// The numbers of the live cells that aren't reached yet.
    left: BTreeSet<u32>,
    /// The cells that are reached and whose data fields weren't looked at.
    waiting: Vec<CellId>,
}

impl Reach {
    /// The cell is reached, if it is live.
    fn add(&mut self, cell: CellId) -> Result<(), AllocError>
        ensures { OnOk result (Reaches (λ c. c ≡ cell) self.old self.new) }
    {
        if self.left.remove(&cell.0) {
            self.waiting.push(cell)?;
        }
        Ok(())
    }

    /// The cell that a place names is reached, if it is one of the backbone.
    fn add_named(
        &mut self,
        types: &TypeTable,
        vars: &VarTable,
        store: &Store,
        place: Place,
    ) -> Result<(), AllocError>
        ensures { OnOk result (Reaches (Names types.now vars.now store.now place) self.old self.new) }
    {
        match named_cell(types, vars, store, place) {
            None => Ok(()),
            Some(cell) => self.add(cell),
        }
    }

    /// The cells that these data variables name are reached.
    fn add_roots(
        &mut self,
        types: &TypeTable,
        vars: &VarTable,
        store: &Store,
        roots: &[VarId],
    ) -> Result<(), AllocError>
        ensures { OnOk result (Reaches (IsRootCell types.now vars.now store.now roots.now) self.old self.new) }
    {
        for root in roots {
            self.add_named(types, vars, store, Place::Var(*root))?;
        }
        Ok(())
    }

    /// The cells that the data fields of a cell name are reached.
    fn add_children(
        &mut self,
        types: &TypeTable,
        vars: &VarTable,
        store: &Store,
        cell: CellId,
    ) -> Result<(), AllocError>
        ensures { OnOk result (Reaches (IsChild types.now vars.now store.now cell) self.old self.new) }
    {
        let Some(ty) = store.type_of(cell) else {
            return Ok(());
        };
        for index in 0..types.fields(ty) {
            let field = FieldId { ty, index };
            self.add_named(types, vars, store, Place::Field(cell, field))?;
        }
        Ok(())
    }
}

/// The numbers of the live cells.
fn live_cells(alloc: Global, store: &Store) -> Result<BTreeSet<u32>, AllocError>
    ensures { IfOk result (λ numbers. (c : CellId) → Has numbers c ↔ IsLive store.now c) }
{
    let mut numbers = BTreeSet::new(alloc);
    for place in 0..store.cells() {
        let Some(cell) = store.cell_at(place) else {
            unreachable!()
        };
        numbers.insert(cell.0)?;
    }
    Ok(numbers)
}

/// The numbers of the live cells that no path of data fields reaches from these data variables.
pub(crate) fn unreached(
    alloc: Global,
    types: &TypeTable,
    vars: &VarTable,
    store: &Store,
    roots: &[VarId],
) -> Result<BTreeSet<u32>, AllocError>
    ensures left { IfOk result (λ left. (c : CellId) → Has left c → IsUnreached types.now vars.now store.now roots.now c) }
    ensures reached { IfOk result (λ left. (c : CellId) → IsLive store.now c → Has left c ⊎ IsReachedFrom types.now vars.now store.now roots.now c) }
{
    let mut reach = Reach {
        left: live_cells(alloc, store)?,
        waiting: Vec::new(alloc),
    };
    reach.add_roots(types, vars, store, roots)?;
    while let Some(cell) = reach.waiting.pop() {
        reach.add_children(types, vars, store, cell)?;
    }
    let Reach { left, .. } = reach;
    Ok(left)
}

/// The live cells of which the numbers aren't among these.
fn live_outside(alloc: Global, store: &Store, left: &BTreeSet<u32>) -> Result<CellList, AllocError>
    ensures { IfOk result (Lists (λ c. IsLive store.now c × (Has left.now c → ⊥))) }
{
    let mut cells = CellList::new(alloc);
    for place in 0..store.cells() {
        let Some(cell) = store.cell_at(place) else {
            unreachable!()
        };
        if !left.contains(&cell.0) {
            cells.push(cell)?;
        }
    }
    Ok(cells)
}

/// The cells that paths of data fields reach from these data variables, each once, by number. A variable that isn't a data
/// variable reaches none.
pub fn reached(
    alloc: Global,
    types: &TypeTable,
    vars: &VarTable,
    store: &Store,
    roots: &[VarId],
) -> Result<CellList, AllocError>
    ensures { IfOk result (IsPart types.now vars.now store.now roots.now) }
{
    let left = unreached(alloc, types, vars, store, roots)?;
    live_outside(alloc, store, &left)
}
