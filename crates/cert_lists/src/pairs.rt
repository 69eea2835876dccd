//! The lines of pairs.

ghost use Rattle.std.specs.Prelude.{◌≡◌, ◌↔◌, ◌∷◌, [], ◌++◌, map, IfOk, OnOk, IsTrue, MatchOption};
ghost use Rattle.cert_tables.specs.Orders.{ArePairsInOrder};
ghost use Rattle.cert_lists.specs.States.{HasState, ArePairsOf, HasStates};

use crate::firsts::first_pair;
use cert_steps::{FaultKind, Stop};
use cert_tables::{PairTable, Table, pair_may_follow};
use cert_text::{Line, PairLine};
use std::alloc::{AllocError, Global};

/// Whether a table has a state in a space.
pub(crate) fn has_state(table: &Table, space: u32, state: u32) -> bool
    ensures { IsTrue result ↔ HasState table.now space state }
{
    match table.spaces.get(space as usize) {
        Some(space) => state < space.states,
        None => false,
    }
}

/// Whether the states that a pair names are there.
fn has_states(a: &Table, b: &Table, c: &Table, line: PairLine) -> bool
    ensures { IsTrue result ↔ HasStates a.now b.now c.now line }
{
    has_state(a, line.space, line.first)
        && has_state(b, line.space, line.second)
        && has_state(c, line.space, line.state)
}

/// What is wrong with a pair behind others.
fn pair_fault(
    a: &Table,
    b: &Table,
    c: &Table,
    pairs: &PairTable,
    line: PairLine,
) -> Option<FaultKind>
    requires { ArePairsOf a.now b.now c.now pairs.now }
    ensures { MatchOption result (ArePairsOf a.now b.now c.now (pairs.now ++ line ∷ []))
        (λ kind. ¬ ArePairsOf a.now b.now c.now (pairs.now ++ line ∷ [])) }
{
    if !has_states(a, b, c, line) {
        return Some(FaultKind::Unknown);
    }
    if !pair_may_follow(pairs, line) {
        return Some(FaultKind::Table);
    }
    None
}

/// Puts a pair behind others; `left` lines are left where it stands.
fn add_pair(
    a: &Table,
    b: &Table,
    c: &Table,
    pairs: &mut PairTable,
    left: usize,
    line: PairLine,
) -> Result<(), Stop>
    requires { ArePairsOf a.now b.now c.now pairs.old }
    ensures fits { OnOk result (ArePairsOf a.now b.now c.now pairs.new) }
    ensures value { OnOk result (pairs.new ≡ pairs.old ++ line ∷ []) }
{
    if let Some(kind) = pair_fault(a, b, c, pairs, line) {
        return Err(Stop::Fault(left, kind));
    }
    if !pairs.push(line)? {
        return Err(Stop::Fault(left, FaultKind::Table));
    }
    Ok(())
}

/// The pairs of a step, by the automata of the two parts and its own, and what follows their lines.
///
/// # Errors
///
/// The first line that is wrong in its place; want of memory.
pub fn read_pairs<'a>(
    alloc: Global,
    a: &Table,
    b: &Table,
    c: &Table,
    lines: &'a [Line],
) -> Result<(PairTable, &'a [Line]), Stop>
    ensures { IfOk result (λ cut. (lines.now ≡ map Line.Pair cut.0 ++ cut.1.now) × ArePairsOf a.now b.now c.now cut.0) }
{
    let mut pairs = PairTable::new(alloc);
    let mut left = lines;
    while let Some((line, rest)) = first_pair(left) {
        add_pair(a, b, c, &mut pairs, left.len(), line)?;
        left = rest;
    }
    Ok((pairs, left))
}
