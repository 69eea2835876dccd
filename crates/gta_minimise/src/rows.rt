//! Rows that classes share, and the part of a space by these.

ghost use Rattle.std.specs.Prelude.{◌≡◌, ◌<◌, ◌≤◌, ◌^◌, ℕ, length, slice_index, IfOk};
ghost use Rattle.std.specs.List.{range_with_len};
ghost use Rattle.gta_theory.specs.Guides.{IsSpace};
ghost use Rattle.gta_reach.specs.Form.{guide_of, IsForm};
ghost use Rattle.gta_refine.specs.Refined.{part_at, IsRefined};
ghost use Rattle.gta_minimise.specs.Rows.{IsRowStep, AreSharedRows};
ghost use Rattle.gta_minimise.specs.Quotient.{IsSharedPart};

use gta_classes::set_at;
use gta_core::Part;
use gta_reach::{Form, above};
use gta_refine::{NumberList, SpaceClasses};
use plain_data::Items;
use std::alloc::{AllocError, Global};

/// The rows of a child's classes. Classes whose representatives are of one kind share a row.
#[derive(Drop)]
pub(crate) struct SharedRows {
    /// For each class the number of its row.
    pub numbers: NumberList,
    /// For each row the representative of a class that has it.
    pub states: NumberList,
}

/// The number of a kind's row, a new one for the state where the kind has none. For each kind there is a link: its row plus
/// one, or 0.
fn row_of(
    links: &mut Vec<u32>,
    states: &mut NumberList,
    kind: u32,
    state: u32,
) -> Result<u32, AllocError>
    requires inside { kind < length links.old.items }
    requires few { length states.old ≤ 2 ^ 31 }
    ensures { IfOk result (IsRowStep kind state links.old.items states.old links.new.items states.new) }
{
    let link = links[kind as usize];
    if link > 0 {
        return Ok(link - 1);
    }
    let row = states.len() as u32;
    states.push(state)?;
    set_at(links, kind, row + 1);
    Ok(row)
}

/// The rows of classes with these representatives.
pub(crate) fn share_rows(
    alloc: Global,
    kinds: &[u32],
    representatives: &[u32],
) -> Result<SharedRows, AllocError>
    requires inside { (x : ℕ) → x < length representatives.now → slice_index representatives.now x < length kinds.now }
    requires few { length representatives.now ≤ 2 ^ 31 }
    ensures { IfOk result (λ shared. AreSharedRows kinds.now representatives.now shared.numbers shared.states) }
{
    let mut links = vec![in alloc; 0; above(kinds)]?;
    let mut numbers = Items::from_vec(Vec::with_capacity(alloc, representatives.len())?);
    let mut states = Items::from_vec(Vec::with_capacity(alloc, representatives.len())?);
    for state in representatives {
        let kind = kinds[*state as usize];
        let row = row_of(&mut links, &mut states, kind, *state)?;
        numbers.push(row)?;
    }
    Ok(SharedRows { numbers, states })
}

/// The part of a space, over roots in order of the left states, and for each of these in order of the right ones.
#[derive(Drop)]
pub(crate) struct SharedPart {
    pub part: Part,
    /// For each row of the part a state of the left child that has it.
    pub lefts: NumberList,
    /// For each column of the part a state of the right child that has it.
    pub rights: NumberList,
}

/// The numbers below.
fn count_up(alloc: Global, many: usize) -> Result<NumberList, AllocError>
    ensures { IfOk result (λ numbers. numbers ≡ range_with_len 0 many) }
{
    if many > u32::MAX as usize {
        return Err(AllocError);
    }
    let mut numbers = NumberList::from_vec(Vec::with_capacity(alloc, many)?);
    for number in 0..many as u32 {
        numbers.push(number)?;
    }
    Ok(numbers)
}

/// The classes of a space.
pub(crate) fn classes_of(classes: &[SpaceClasses], space: u32) -> &SpaceClasses
    requires { space < length classes.now }
    ensures { result.now ≡ part_at classes.now space }
{
    &classes[space as usize]
}

/// The part of a space of the automaton of classes. Classes whose representatives had a row in common have it still, so
/// that there is a root for each pair of rows and not of classes.
pub(crate) fn shared_part(
    alloc: Global,
    form: &Form,
    space: u32,
    classes: &[SpaceClasses],
) -> Result<SharedPart, AllocError>
    requires form { IsForm form.now }
    requires refined { IsRefined form.now classes.now }
    requires inside { IsSpace (guide_of form.now) space }
    ensures { IfOk result (λ made. IsSharedPart form.now classes.now space made.part made.lefts made.rights) }
{
    let own = &form.spaces.as_slice()[space as usize];
    let lefts = classes_of(classes, own.children.0)
        .representatives
        .as_slice();
    let rights = classes_of(classes, own.children.1)
        .representatives
        .as_slice();
    let rows = share_rows(alloc, own.rows.as_slice(), lefts)?;
    let columns = share_rows(alloc, own.columns.as_slice(), rights)?;
    let here = classes_of(classes, space);
    let cells = count_up(alloc, rows.states.len() * columns.states.len())?;
    let part = Part {
        states: here.representatives.len() as u32,
        initial: here.classes.as_slice()[own.initial as usize],
        children: own.children,
        first: 0,
        rows: rows.numbers,
        columns: columns.numbers,
        width: columns.states.len() as u32,
        cells,
    };
    Ok(SharedPart {
        part,
        lefts: rows.states,
        rights: columns.states,
    })
}
