//! The lines of sets.

ghost use Rattle.std.specs.Prelude.{◌≡◌, ◌↔◌, ◌∷◌, [], ◌++◌, map, length, slice_index, EachIndex, IfOk, OnOk, IsTrue, MatchOption};
ghost use Rattle.std.specs.List.Sorted.{IsStrictlyIncreasing};
ghost use Rattle.cert_tables.specs.Orders.{AreSetsInOrder};
ghost use Rattle.cert_lists.specs.States.{state_count, HasMembers, AreSetsOf};

use crate::firsts::first_set;
use crate::pairs::has_state;
use cert_steps::{FaultKind, Stop, are_below, is_rising};
use cert_tables::{SetTable, Table, set_may_follow};
use cert_text::{Line, SetLine};
use plain_data::Items;
use std::alloc::{AllocError, Global};

/// How many states a space has. 0 for another space.
fn state_count(table: &Table, space: u32) -> u32
    ensures { result ≡ state_count table.now space }
{
    match table.spaces.get(space as usize) {
        Some(space) => space.states,
        None => 0,
    }
}

/// Whether the states that a set names are there.
fn has_members(a: &Table, c: &Table, line: &SetLine) -> bool
    ensures { IsTrue result ↔ HasMembers a.now c.now line.now }
{
    has_state(c, line.space, line.state)
        && are_below(line.members.as_slice(), state_count(a, line.space))
}

/// What is wrong with a set behind others, but that it may stand there already.
fn set_fault(a: &Table, c: &Table, sets: &SetTable, line: &SetLine) -> Option<FaultKind>
    requires { AreSetsInOrder sets.now }
    ensures { MatchOption result (HasMembers a.now c.now line.now × IsStrictlyIncreasing line.now.members
        × AreSetsInOrder (sets.now ++ line.now ∷ []))
        (λ kind. ¬ (HasMembers a.now c.now line.now × IsStrictlyIncreasing line.now.members × AreSetsInOrder (sets.now ++ line.now ∷ []))) }
{
    if !has_members(a, c, line) {
        return Some(FaultKind::Unknown);
    }
    if !is_rising(line.members.as_slice()) || !set_may_follow(sets, line) {
        return Some(FaultKind::Table);
    }
    None
}

/// A copy of a set's line.
fn copy_of(alloc: Global, line: &SetLine) -> Result<SetLine, AllocError>
    ensures { IfOk result (λ copy. copy ≡ line.now) }
{
    Ok(SetLine {
        space: line.space,
        state: line.state,
        members: Items::from_slice(alloc, line.members.as_slice())?,
    })
}

/// Puts a set behind others; `left` lines are left where it stands.
fn add_set(
    alloc: Global,
    a: &Table,
    c: &Table,
    sets: &mut SetTable,
    left: usize,
    line: &SetLine,
) -> Result<(), Stop>
    requires { AreSetsOf a.now c.now sets.old }
    ensures fits { OnOk result (AreSetsOf a.now c.now sets.new) }
    ensures value { OnOk result (sets.new ≡ sets.old ++ line.now ∷ []) }
{
    if let Some(kind) = set_fault(a, c, sets, line) {
        return Err(Stop::Fault(left, kind));
    }
    let copy = copy_of(alloc, line)?;
    if !sets.push(alloc, copy)? {
        return Err(Stop::Fault(left, FaultKind::Table));
    }
    Ok(())
}

/// The sets of a step, by the automaton of the part and its own, and what follows their lines.
///
/// # Errors
///
/// The first line that is wrong in its place; want of memory.
pub fn read_sets<'a>(
    alloc: Global,
    a: &Table,
    c: &Table,
    lines: &'a [Line],
) -> Result<(SetTable, &'a [Line]), Stop>
    ensures { IfOk result (λ cut. (lines.now ≡ map Line.Set cut.0 ++ cut.1.now) × AreSetsOf a.now c.now cut.0) }
{
    let mut sets = SetTable::new(alloc);
    let mut left = lines;
    while let Some((line, rest)) = first_set(left) {
        add_set(alloc, a, c, &mut sets, left.len(), line)?;
        left = rest;
    }
    Ok((sets, left))
}
