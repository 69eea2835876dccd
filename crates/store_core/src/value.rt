//! What a field or a variable holds at a time.

ghost use Rattle.std.specs.Prelude.{◌≡◌, ◌<◌, ◌↔◌, [], ◌∷◌, ◌++◌, length, IsTrue, IfOk, OnOk, OnErr, slice_get, Contains};
ghost use Rattle.std.specs.List.{AllByRecursion};

use crate::ids::CellId;
use std::alloc::{AllocError, Global};
use std::marker::Model;

/// A finite set of cells, by number.
#[derive(Debug, Drop)]
pub struct CellList {
    /// In rising order, each once.
    cells: Vec<CellId>,
}

impl Model for CellList {
    ghost use Rattle.std.specs.Prelude.{List};
    ghost use Rattle.store_core.specs.declared.ids.CellId.{CellId};
    ghost use Rattle.store_core.specs.CellLists.{AreRising};

    ghost Value = { List CellId };

    ghost view = { λ l. l.cells.items };

    ghost invariant = { λ l. AreRising l.cells.items };
}

impl CellList {
    ghost use Rattle.store_core.specs.CellLists.{AreRising};

    /// No cell. Takes no memory.
    pub fn new(alloc: Global) -> CellList
        ensures { result ≡ [] }
    {
        CellList {
            cells: Vec::new(alloc),
        }
    }

    /// Adds a cell whose number is above all others.
    pub fn push(&mut self, cell: CellId) -> Result<(), AllocError>
        requires { AllByRecursion (λ d. d.0 < cell.0) self.old }
        ensures ok { OnOk result (self.new ≡ self.old ++ cell ∷ []) }
        ensures err { OnErr result (self.new ≡ self.old) }
    {
        self.cells.push(cell)?;
        Ok(())
    }

    /// How many cells there are. Takes no memory.
    pub fn len(&self) -> usize
        ensures { result ≡ length self.now }
    {
        self.cells.len()
    }

    /// Whether there is no cell. Takes no memory.
    pub fn is_empty(&self) -> bool
        ensures { IsTrue result ↔ (self.now ≡ []) }
    {
        self.cells.is_empty()
    }

    /// The cell at a place by number, counted from 0; `None` exactly past the last. Takes no memory.
    pub fn get(&self, place: usize) -> Option<CellId>
        ensures { result ≡ slice_get self.now place }
    {
        self.cells.get(place).copied()
    }

    /// The cells in rising order. Takes no memory.
    pub fn as_slice(&self) -> &[CellId]
        ensures value { result.now ≡ self.now }
        ensures rising { AreRising self.now }
    {
        self.cells.as_slice()
    }

    /// The same set, in memory of its own.
    pub fn copy(&self, alloc: Global) -> Result<CellList, AllocError>
        ensures { IfOk result (λ copy. copy ≡ self.now) }
    {
        let cells = Vec::from_slice(alloc, self.cells.as_slice())?;
        Ok(CellList { cells })
    }
}

/// The three classes of values.
#[derive(Clone, Copy, Debug, PartialEq, Eq)]
pub enum Class {
    /// Truth values.
    Truth,
    /// Null and cells.
    Reference,
    /// Sets of cells.
    Set,
}

/// What a field or a variable holds.
#[derive(Debug, Drop)]
pub enum Value {
    /// A truth value.
    Bool(bool),
    /// Null, or a cell, which may be dead.
    Cell(Option<CellId>),
    /// A set of cells.
    Cells(CellList),
}

impl Value {
    ghost use Rattle.store_core.specs.Stores.{class_of};

    /// The class of the value. Takes no memory.
    pub fn class(&self) -> Class
        ensures { result ≡ class_of self.now }
    {
        match self {
            Value::Bool(_) => Class::Truth,
            Value::Cell(_) => Class::Reference,
            Value::Cells(_) => Class::Set,
        }
    }

    /// The same value, in memory of its own.
    pub fn copy(&self, alloc: Global) -> Result<Value, AllocError>
        ensures { IfOk result (λ copy. copy ≡ self.now) }
    {
        match self {
            Value::Bool(truth) => Ok(Value::Bool(*truth)),
            Value::Cell(cell) => Ok(Value::Cell(*cell)),
            Value::Cells(cells) => Ok(Value::Cells(cells.copy(alloc)?)),
        }
    }
}
