//! The store: its cells, its variables and the next number.

ghost use Rattle.std.specs.Prelude.{◌≡◌, ◌+◌, ◌<◌, length, Some, None, true, IsSome, IfOk, IfSome, IfNone, OnOk, OnErr, IsSomeAnd, slice_get, option_map};
ghost use Rattle.std.specs.Option.{option_copied, option_and_then};
ghost use Rattle.std.specs.FinMap.{entries, keys, get};
ghost use Rattle.store_core.specs.StoreBodies.{map_of, live_of, AreInOrder, LacksNumber};
ghost use Rattle.store_core.specs.Tables.{KnowsVariant, field_at};
ghost use Rattle.store_core.specs.Stores as stores;
ghost use Rattle.store_core.specs.Stores.{IsLive, IsAbove, cell_of, field_value, var_value, class_of, field_class, var_class, blank, blank_slot};
ghost use Rattle.store_core.specs.Stores.{blank_cell, empty_store};

use crate::ids::{CellId, FieldId, TypeId, VarId, VariantId};
use crate::kind::{FieldKind, VarKind};
use crate::store_copy::{copy_cells, copy_values};
use crate::types::TypeTable;
use crate::value::{CellList, Value};
use crate::vars::VarTable;
use plain_data::{Items, at};
use std::alloc::{AllocError, Global};
use std::marker::Model;

/// A cell, as a store is made of them.
#[derive(Drop)]
pub struct CellBody {
    pub number: u32,
    pub variant: VariantId,
    /// The value of each field of its type by the field's number, `None` where its variant hasn't the field.
    pub values: Items<Option<Value>>,
    /// Unset where the cell was freed: it keeps its place until the store is settled.
    pub is_live: bool,
}

/// A finite map from cell numbers to cells, with a value for each variable and a number above every cell number ever used.
#[derive(Drop)]
pub struct Store {
    /// By rising number, so that a number is found by halving and a new cell goes last. Freed cells stand among the live ones,
    /// so that no cell moves where one is freed.
    cells: Vec<CellBody>,
    /// How many of the cells were freed.
    freed: usize,
    /// The value of each variable by its number.
    vars: Items<Value>,
    next: u32,
}

impl Model for Store {
    ghost use Rattle.std.specs.Coded.{codes};
    ghost use Rattle.store_core.specs.Stores.{StoreMap};
    ghost use Rattle.store_core.specs.StoreCodes.{code_of_map};

    ghost Value = { StoreMap };

    ghost coded = { Prim.hlevel (codes, code_of_map) };

    ghost use Rattle.store_core.specs.StoreBodies.{store_of, live_of, IsStored};

    ghost view = { λ s. store_of (live_of s.cells.items) s.vars s.next };

    ghost invariant = { λ s. IsStored s.cells.items s.freed s.next };
}

/// The value of a field that nothing was stored in.
fn blank_field(kind: &FieldKind) -> Value
    ensures { result ≡ blank (field_class kind.now) }
{
    match kind {
        FieldKind::Bool => Value::Bool(false),
        FieldKind::Data(_) | FieldKind::Pointer(_, _) => Value::Cell(None),
    }
}

/// The value of a variable that nothing was stored in.
fn blank_var(alloc: Global, kind: VarKind) -> Value
    ensures { result ≡ blank (var_class kind) }
{
    match kind {
        VarKind::Bool | VarKind::LogicBool => Value::Bool(false),
        VarKind::Data(_) | VarKind::Pointer(_) => Value::Cell(None),
        VarKind::LogicSet(_) => Value::Cells(CellList::new(alloc)),
    }
}

/// The value of a new cell's field: blank where the variant has the field.
fn blank_in(types: &TypeTable, v: VariantId, f: FieldId) -> Option<Value>
    requires known { KnowsVariant types.now v }
    requires same { f.ty ≡ v.ty }
    ensures { result ≡ option_and_then (blank_slot v.index) (field_at types.now f) }
{
    if !types.has(v, f) {
        return None;
    }
    let kind = types.kind(f)?;
    Some(blank_field(kind))
}

/// The values of a new cell of the variant.
fn blank_values(
    alloc: Global,
    types: &TypeTable,
    v: VariantId,
) -> Result<Items<Option<Value>>, AllocError>
    requires { KnowsVariant types.now v }
    ensures { IfOk result (λ values. values ≡ (blank_cell types.now v).values) }
{
    let mut values = Items::new(alloc);
    for index in 0..types.fields(v.ty) {
        values.push(blank_in(types, v, FieldId { ty: v.ty, index }))?;
    }
    Ok(values)
}

/// The place of the cell with a number, live or freed; `None` exactly where no cell has it.
fn search(cells: &[CellBody], c: CellId) -> Option<usize>
    requires { AreInOrder cells.now }
    ensures missing { IfNone result (LacksNumber cells.now c.0) }
    ensures found { IfSome result (λ place. IsSomeAnd (slice_get cells.now place) (λ b. b.number ≡ c.0)) }
{
    cells.binary_search_by_key(&c.0, |cell| cell.number).ok()
}

/// The place of the live cell with a number, among cells of which some were freed; `None` exactly where none is live.
fn place_of(cells: &[CellBody], c: CellId) -> Option<usize>
    requires { AreInOrder cells.now }
    ensures missing { IfNone result (get (map_of (live_of cells.now)) c.0 ≡ None) }
    ensures found { IfSome result (λ place. IsSomeAnd (slice_get cells.now place) (λ b. (b.number ≡ c.0) × (b.is_live ≡ true))) }
{
    let place = search(cells, c)?;
    if at(cells, place)?.is_live {
        Some(place)
    } else {
        None
    }
}

/// The live cell at a place among the live ones, where cells between them were freed.
fn live_at(cells: &[CellBody], place: usize) -> Option<&CellBody>
    ensures { option_copied result ≡ slice_get (live_of cells.now) place }
{
    let mut before = 0;
    for cell in cells {
        if cell.is_live {
            if before == place {
                return Some(cell);
            }
            before += 1;
        }
    }
    None
}

impl Store {
    ghost use Rattle.store_core.specs.StoreBodies.{cell_entry, store_of, AreLive, IsKept};

    /// The store of these cells, which are live, and whose numbers rise and are below the next. Takes no memory.
    pub fn of(cells: Vec<CellBody>, vars: Items<Value>, next: u32) -> Store
        requires kept { IsKept cells.items next }
        requires live { AreLive cells.items }
        ensures { result ≡ store_of cells.items vars next }
    {
        Store {
            cells,
            freed: 0,
            vars,
            next,
        }
    }

    /// No cell, the next number 1, and each variable null, false or the empty set.
    pub fn empty(alloc: Global, vars: &VarTable) -> Result<Store, AllocError>
        ensures { IfOk result (λ store. store ≡ empty_store vars.now) }
    {
        let mut values = Items::new(alloc);
        for index in 0..vars.vars() {
            let Some(kind) = vars.kind(VarId(index)) else {
                unreachable!()
            };
            values.push(blank_var(alloc, *kind))?;
        }
        Ok(Store {
            cells: Vec::new(alloc),
            freed: 0,
            vars: values,
            next: 1,
        })
    }

    /// An equal store, in memory of its own.
    pub fn copy(&self, alloc: Global) -> Result<Store, AllocError>
        ensures { IfOk result (λ copy. copy ≡ self.now) }
    {
        Ok(Store {
            cells: copy_cells(alloc, self.cells.as_slice())?,
            freed: self.freed,
            vars: copy_values(alloc, self.vars.as_slice())?,
            next: self.next,
        })
    }

    /// How many live cells there are. Takes no memory.
    pub fn cells(&self) -> usize
        ensures { result ≡ length (keys self.now.cells) }
    {
        self.cells.len() - self.freed
    }

    /// A live cell; `None` exactly where it isn't live.
    fn find(&self, c: CellId) -> Option<&CellBody>
        ensures { option_map (λ cell. (cell_entry cell.now).1) result ≡ cell_of self.now c }
    {
        let cells = self.cells.as_slice();
        at(cells, place_of(cells, c)?)
    }

    /// The live cell at a place by number, counted from 0; `None` exactly at their count and past it. A look-up, but where cells
    /// were freed since the store was settled it goes over the cells before. Takes no memory.
    pub fn body_at(&self, place: usize) -> Option<&CellBody>
        ensures cell { option_map (λ cell. cell_entry cell.now) result ≡ slice_get (entries self.now.cells) place }
        ensures live { IfSome result (λ cell. cell.now.is_live ≡ true) }
    {
        let cells = self.cells.as_slice();
        if self.freed == 0 {
            at(cells, place)
        } else {
            live_at(cells, place)
        }
    }

    /// The value of each variable by its number. Takes no memory.
    pub fn values(&self) -> &[Value]
        ensures { result.now ≡ self.now.vars }
    {
        self.vars.as_slice()
    }

    /// The type of a cell; `None` exactly for a cell that isn't live. Takes no memory.
    pub fn type_of(&self, c: CellId) -> Option<TypeId>
        ensures { result ≡ option_map (λ cell. cell.variant.ty) (cell_of self.now c) }
    {
        Some(self.find(c)?.variant.ty)
    }

    /// The variant of a cell; `None` exactly for a cell that isn't live. Takes no memory.
    pub fn variant_of(&self, c: CellId) -> Option<VariantId>
        ensures { result ≡ option_map (λ cell. cell.variant) (cell_of self.now c) }
    {
        Some(self.find(c)?.variant)
    }

    /// The value of a cell's field; `None` exactly where the cell isn't live or hasn't the field. Takes no memory.
    pub fn field(&self, c: CellId, f: FieldId) -> Option<&Value>
        ensures { option_copied result ≡ field_value self.now c f }
    {
        let cell = self.find(c)?;
        if cell.variant.ty != f.ty {
            return None;
        }
        cell.values.get(f.index as usize)?.as_ref()
    }

    /// The value of a variable; `None` exactly for an unknown number. Takes no memory.
    pub fn var(&self, v: VarId) -> Option<&Value>
        ensures { option_copied result ≡ var_value self.now v }
    {
        self.vars.get(v.0 as usize)
    }

    /// The number that the next cell gets, above the number of every live cell. Takes no memory.
    pub fn next(&self) -> u32
        ensures value { result ≡ self.now.next }
        ensures above { IsAbove self.now }
    {
        self.next
    }

    /// The live cell at a place by number, counted from 0; `None` exactly at their count and past it. Takes no memory.
    pub fn cell_at(&self, place: usize) -> Option<CellId>
        ensures { result ≡ option_map (λ number. record { 0 = number }) (slice_get (keys self.now.cells) place) }
    {
        let cell = self.body_at(place)?;
        Some(CellId(cell.number))
    }

    /// Makes a cell of the variant with the next number, its fields false or null. The variant is known, and the next number
    /// is below 4,294,967,295.
    pub fn put_cell(&mut self, types: &TypeTable, v: VariantId) -> Result<CellId, AllocError>
        requires known { KnowsVariant types.now v }
        requires room { self.old.next < 4294967295 }
        ensures value { IfOk result (λ c. c.0 ≡ self.old.next) }
        ensures put { OnOk result (self.new ≡ stores.put_cell self.old types.now v) }
        ensures err { OnErr result (self.new ≡ self.old) }
    {
        let alloc = *self.cells.allocator();
        let number = self.next;
        let cell = CellBody {
            number,
            variant: v,
            values: blank_values(alloc, types, v)?,
            is_live: true,
        };
        self.cells.push(cell)?;
        self.next = number + 1;
        Ok(CellId(number))
    }

    /// Stores a value in a cell's field. The cell is live and has the field, whose value is of the same class. Takes no memory.
    pub fn set_field(&mut self, c: CellId, f: FieldId, v: Value)
        requires { IsSomeAnd (field_value self.old c f) (λ old. class_of v ≡ class_of old) }
        ensures { self.new ≡ stores.set_field self.old c f v }
    {
        let Some(place) = place_of(self.cells.as_slice(), c) else {
            unreachable!()
        };
        let cell = &mut self.cells[place];
        cell.values.set(f.index as usize, Some(v));
    }

    /// Stores a value in a variable. The variable is known, and its value is of the same class. Takes no memory.
    pub fn set_var(&mut self, v: VarId, x: Value)
        requires { IsSomeAnd (var_value self.old v) (λ old. class_of x ≡ class_of old) }
        ensures { self.new ≡ stores.set_var self.old v x }
    {
        self.vars.set(v.0 as usize, x);
    }

    /// Frees a cell, which is live; its number is never used again. Takes no memory.
    pub fn remove(&mut self, c: CellId)
        requires { IsLive self.old c }
        ensures { self.new ≡ stores.remove_cell self.old c }
    {
        let Some(place) = place_of(self.cells.as_slice(), c) else {
            unreachable!()
        };
        self.cells[place].is_live = false;
        self.freed += 1;
    }

    /// Lets the freed cells go, after which each place is a look-up again. The store is the same. Takes no memory.
    pub fn settle(&mut self)
        ensures { self.new ≡ self.old }
    {
        if self.freed > 0 {
            self.cells.retain(|cell| cell.is_live);
            self.freed = 0;
        }
    }
}
