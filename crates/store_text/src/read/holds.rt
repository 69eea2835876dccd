//! Which values a variable or field may hold, and which cells a value names.

ghost use Rattle.std.specs.Prelude.{◌≡◌, [], ◌++◌, map, slice_get, Some, Ok, IfOk, IfErr, OnOk};
ghost use Rattle.store_text.specs.Saying.{IsStop, field_holds, var_holds, is_said, members_after, cells_numbered, set_of, value_for, mentions_of, mention};

use crate::fault::StoreKind;
use crate::read::spelled::Spelled;
use plain_data::Items;
use std::alloc::{AllocError, Global};
use std::collections::BTreeSet;
use store_core::{CellId, CellList, FieldKind, TypeId, Value, VarKind};

/// What a variable or field holds, with the type of the cells that it may name.
#[derive(Clone, Copy, Debug, PartialEq, Eq)]
pub enum Holds {
    /// A truth value.
    Truth,
    /// Null or a cell of the type.
    Reference(TypeId),
    /// A set of cells of the type.
    Set(TypeId),
}

/// That a line names a cell, where a cell of this type may stand.
#[derive(Clone, Copy, Debug, PartialEq, Eq)]
pub struct Mention {
    pub line: u32,
    pub target: TypeId,
    pub cell: CellId,
}

/// What a field of this kind holds.
pub fn field_holds(kind: &FieldKind) -> Holds
    ensures { result ≡ field_holds kind.now }
{
    match kind {
        FieldKind::Bool => Holds::Truth,
        FieldKind::Data(target) => Holds::Reference(*target),
        FieldKind::Pointer(target, _) => Holds::Reference(*target),
    }
}

/// What a variable of this kind holds.
pub fn var_holds(kind: VarKind) -> Holds
    ensures { result ≡ var_holds kind }
{
    match kind {
        VarKind::Bool | VarKind::LogicBool => Holds::Truth,
        VarKind::Data(target) | VarKind::Pointer(target) => Holds::Reference(target),
        VarKind::LogicSet(target) => Holds::Set(target),
    }
}

/// Whether a value was given for a place.
pub fn is_said(values: &Items<Option<Value>>, place: usize) -> bool
    ensures { result ≡ is_said (slice_get values.now place) }
{
    matches!(values.get(place), Some(Some(_)))
}

/// The members of a set by number; one again is `Repeated`.
fn members(alloc: Global, numbers: &[u32]) -> Result<BTreeSet<u32>, StoreKind>
    ensures members { IfOk result (λ set. members_after [] numbers.now ≡ Some set.keys) }
    ensures stop { IfErr result (IsStop (set_of numbers.now)) }
{
    let mut set = BTreeSet::new(alloc);
    for number in numbers {
        if !set.insert(*number)? {
            return Err(StoreKind::Repeated);
        }
    }
    Ok(set)
}

/// Cells by their numbers.
fn cells_numbered(alloc: Global, numbers: &BTreeSet<u32>) -> Result<CellList, AllocError>
    ensures { IfOk result (λ cells. cells ≡ cells_numbered numbers.now.keys) }
{
    let mut cells = CellList::new(alloc);
    for number in numbers {
        cells.push(CellId(*number))?;
    }
    Ok(cells)
}

/// The set of these cells.
#[tactic(auto, unfolding(crate::specs::Saying::set_of))]
fn set_of(alloc: Global, numbers: &[u32]) -> Result<Value, StoreKind>
    ensures value { IfOk result (λ value. set_of numbers.now ≡ Ok value) }
    ensures stop { IfErr result (IsStop (set_of numbers.now)) }
{
    let members = members(alloc, numbers)?;
    let cells = cells_numbered(alloc, &members)?;
    Ok(Value::Cells(cells))
}

/// The value, where a value of this class may stand.
#[tactic(auto, unfolding(crate::specs::Saying::value_for))]
pub fn value_for(alloc: Global, holds: Holds, value: &Spelled) -> Result<Value, StoreKind>
    ensures value { IfOk result (λ x. value_for holds value.now ≡ Ok x) }
    ensures stop { IfErr result (IsStop (value_for holds value.now)) }
{
    match (holds, value) {
        (Holds::Truth, Spelled::Truth(truth)) => Ok(Value::Bool(*truth)),
        (Holds::Reference(_), Spelled::Null) => Ok(Value::Cell(None)),
        (Holds::Reference(_), Spelled::Number(number)) => Ok(Value::Cell(Some(CellId(*number)))),
        (Holds::Set(_), Spelled::Numbers(numbers)) => set_of(alloc, numbers.as_slice()),
        _ => Err(StoreKind::WrongType),
    }
}

/// Notes where these cells are named.
fn note_cells(
    mentions: &mut Items<Mention>,
    line: u32,
    target: TypeId,
    cells: &[CellId],
) -> Result<(), AllocError>
    ensures { OnOk result (mentions.new ≡ mentions.old ++ map (mention line target) cells.now) }
{
    for cell in cells {
        mentions.push(Mention {
            line,
            target,
            cell: *cell,
        })?;
    }
    Ok(())
}

/// Notes where a value names cells.
pub fn note(
    mentions: &mut Items<Mention>,
    line: u32,
    holds: Holds,
    value: &Value,
) -> Result<(), AllocError>
    ensures { OnOk result (mentions.new ≡ mentions.old ++ mentions_of line holds value.now) }
{
    match (holds, value) {
        (Holds::Reference(target), Value::Cell(Some(cell))) => mentions.push(Mention {
            line,
            target,
            cell: *cell,
        }),
        (Holds::Set(target), Value::Cells(cells)) => {
            note_cells(mentions, line, target, cells.as_slice())
        }
        _ => Ok(()),
    }
}
