//! What the lines of a text have said so far, and the store that they make.

ghost use Rattle.std.specs.Prelude.{◌≡◌, ◌<◌, length, map, Some, Ok, None, IfOk, IfErr, IsSomeAnd, OnOk};
ghost use Rattle.store_text.specs.Saying.{IsStop, IsLacking, or_fault, nothing_said, say_var, say_cell};
ghost use Rattle.store_text.specs.Spelling.{line_of, all_of};
ghost use Rattle.store_text.specs.Reading.{say_line, store_said};
ghost use Rattle.store_core.specs.StoreBodies.{cells_of, AreInOrder, AreLive};
ghost use Rattle.store_text.specs.DraftBodies.{said_cells};

use crate::fault::StoreKind;
use crate::read::fields::{SaidCell, cell_said};
use crate::read::forms::line_of;
use crate::read::holds::{Mention, is_said, note, value_for, var_holds};
use crate::read::spelled::{CellLine, Given, Line};
use plain_data::Items;
use std::alloc::{AllocError, Global};
use std::collections::BTreeMap;
use std::marker::Model;
use store_core::{CellBody, Store, TypeTable, Value, VarTable};

/// What the lines so far have said.
#[derive(Drop)]
pub struct Draft {
    cells: BTreeMap<u32, SaidCell>,
    /// The value of each variable by its number, `None` where no line has given it.
    vars: Items<Option<Value>>,
    /// Where cells are named, in the order of the lines.
    mentions: Items<Mention>,
    /// One above the greatest number of a cell, 1 without cells.
    next: u32,
}

impl Model for Draft {
    ghost use Rattle.std.specs.Coded.{codes};
    ghost use Rattle.store_text.specs.Saying.{Said};
    ghost use Rattle.store_core.specs.StoreCodes.{code_of_map};

    ghost Value = { Said };

    ghost coded = { Prim.hlevel (codes, code_of_map) };

    ghost use Rattle.store_text.specs.DraftBodies.{said_of, IsUpToDate};

    ghost view = { λ d. said_of d.cells.entries d.vars d.mentions };

    ghost invariant = { λ d. IsUpToDate d.cells.entries d.next };
}

impl Draft {
    /// Nothing said.
    pub fn new(alloc: Global, vars: &VarTable) -> Result<Draft, AllocError>
        ensures { IfOk result (λ draft. draft ≡ nothing_said vars.now) }
    {
        let mut values = Items::new(alloc);
        for _place in 0..vars.vars() {
            values.push(None)?;
        }
        Ok(Draft {
            cells: BTreeMap::new(alloc),
            vars: values,
            mentions: Items::new(alloc),
            next: 1,
        })
    }

    /// Adds a variable's value. After a fault nothing is known of the draft.
    #[tactic(auto, unfolding(crate::specs::Saying::say_var))]
    fn say_var(
        &mut self,
        alloc: Global,
        vars: &VarTable,
        line: u32,
        given: &Given,
    ) -> Result<(), StoreKind>
        requires { length self.old.vars ≡ length vars.now }
        ensures said { OnOk result (say_var vars.now line self.old given.now ≡ Ok self.new) }
        ensures stop { IfErr result (IsStop (say_var vars.now line self.old given.now)) }
        ensures len { length self.new.vars ≡ length self.old.vars }
    {
        let Some(v) = vars.find(given.name.as_slice()) else {
            return Err(StoreKind::UnknownName);
        };
        let Some(kind) = vars.kind(v) else {
            return Err(StoreKind::UnknownName);
        };
        let place = v.0 as usize;
        if is_said(&self.vars, place) {
            return Err(StoreKind::Repeated);
        }
        let holds = var_holds(*kind);
        let value = value_for(alloc, holds, &given.value)?;
        note(&mut self.mentions, line, holds, &value)?;
        self.vars.set(place, Some(value));
        Ok(())
    }

    /// Adds a cell. After a fault nothing is known of the draft.
    #[tactic(auto, unfolding(crate::specs::Saying::say_cell))]
    fn say_cell(
        &mut self,
        alloc: Global,
        types: &TypeTable,
        line: u32,
        cell: &CellLine,
    ) -> Result<(), StoreKind>
        requires { cell.now.number < 4294967295 }
        ensures said { OnOk result (say_cell types.now line self.old cell.now ≡ Ok self.new) }
        ensures stop { IfErr result (IsStop (say_cell types.now line self.old cell.now)) }
        ensures len { length self.new.vars ≡ length self.old.vars }
    {
        if self.cells.contains_key(&cell.number) {
            return Err(StoreKind::Repeated);
        }
        let (said, named) = cell_said(alloc, types, line, cell)?;
        self.mentions.append(named)?;
        self.cells.insert(cell.number, said)?;
        self.next = self.next.max(cell.number + 1);
        Ok(())
    }

    /// Adds what a line says. After a fault nothing is known of the draft.
    #[tactic(auto, unfolding(crate::specs::Reading::say_line))]
    pub fn say_line(
        &mut self,
        alloc: Global,
        types: &TypeTable,
        vars: &VarTable,
        line: u32,
        bytes: &[u8],
    ) -> Result<(), StoreKind>
        requires { length self.old.vars ≡ length vars.now }
        ensures said { OnOk result (say_line types.now vars.now line self.old (line_of bytes.now) ≡ Ok self.new) }
        ensures stop { IfErr result (IsStop (say_line types.now vars.now line self.old (line_of bytes.now))) }
        ensures len { length self.new.vars ≡ length self.old.vars }
    {
        match line_of(alloc, bytes)? {
            None => Err(StoreKind::Syntax),
            Some(Line::Var(given)) => self.say_var(alloc, vars, line, &given),
            Some(Line::Cell(cell)) => self.say_cell(alloc, types, line, &cell),
        }
    }

    /// The store that was said, and where cells are named in it; `Missing` where a variable has no value.
    pub fn into_store(self, alloc: Global) -> Result<(Store, Items<Mention>), StoreKind>
        ensures store { IfOk result (λ made. (made.1 ≡ self.mentions)
            × IsSomeAnd (all_of (λ x. x) self.vars) (λ values. made.0 ≡ store_said self values)) }
        ensures stop { IfErr result (IsLacking (all_of (λ x. x) self.vars)) }
    {
        let Draft {
            cells,
            vars,
            mentions,
            next,
        } = self;
        let values = all_given(alloc, vars)?;
        let bodies = bodies_of(alloc, cells)?;
        Ok((Store::of(bodies, values, next), mentions))
    }
}

/// The values of all variables; `Missing` where one has none.
fn all_given(alloc: Global, vars: Items<Option<Value>>) -> Result<Items<Value>, StoreKind>
    ensures values { IfOk result (λ values. all_of (λ x. x) vars ≡ Some values) }
    ensures stop { IfErr result (IsLacking (all_of (λ x. x) vars)) }
{
    let mut values = Items::new(alloc);
    for value in vars.into_vec() {
        let Some(value) = value else {
            return Err(StoreKind::Missing);
        };
        values.push(value)?;
    }
    Ok(values)
}

/// The cells as a store keeps them.
fn bodies_of(alloc: Global, cells: BTreeMap<u32, SaidCell>) -> Result<Vec<CellBody>, AllocError>
    ensures cells { IfOk result (λ bodies. cells_of bodies.items ≡ said_cells cells.entries) }
    ensures rising { IfOk result (λ bodies. AreInOrder bodies.items) }
    ensures live { IfOk result (λ bodies. AreLive bodies.items) }
{
    let mut bodies = Vec::new(alloc);
    for (number, cell) in cells {
        let SaidCell { variant, values } = cell;
        bodies.push(CellBody {
            number,
            variant,
            values,
            is_live: true,
        })?;
    }
    Ok(bodies)
}
