//! The lines of settled states.

ghost use Rattle.std.specs.Prelude.{◌≡◌, ◌++◌, map, IfOk};
ghost use Rattle.cert_nodes.specs.Spots.{AreDrawn};
ghost use Rattle.cert_tables.specs.Automata.{table_automaton};
ghost use Rattle.cert_lists.specs.Settled.{ReadsSettled};

use crate::firsts::{first_settle, first_start};
use crate::pairs::has_state;
use cert_nodes::Diagrams;
use cert_settled::{SettleFault, SettledStates, settle_all};
use cert_steps::{FaultKind, Stop, lines_from, wrong_form};
use cert_tables::Table;
use cert_text::{Line, SettleLine, StartLine};
use plain_data::Items;
use std::alloc::{AllocError, Global};
use ws2s_core::Guide;

/// The lines of initial states, at most so many, and what follows them.
fn read_starts<'a>(
    alloc: Global,
    most: u32,
    lines: &'a [Line],
) -> Result<(Items<StartLine>, &'a [Line]), AllocError>
    ensures { IfOk result (λ cut. lines.now ≡ map Line.Start cut.0 ++ cut.1.now) }
{
    let mut starts = Items::new(alloc);
    let mut left = lines;
    for _space in 0..most {
        let Some((line, rest)) = first_start(left) else {
            return Ok((starts, left));
        };
        starts.push(line)?;
        left = rest;
    }
    Ok((starts, left))
}

/// The lines of states that settle, and what follows them.
fn read_settles<'a>(
    alloc: Global,
    lines: &'a [Line],
) -> Result<(Items<SettleLine>, &'a [Line]), AllocError>
    ensures { IfOk result (λ cut. lines.now ≡ map Line.Settle cut.0 ++ cut.1.now) }
{
    let mut settles = Items::new(alloc);
    let mut left = lines;
    while let Some((line, rest)) = first_settle(left) {
        settles.push(line)?;
        left = rest;
    }
    Ok((settles, left))
}

/// Whether lines tell a state.
fn is_told(starts: &[StartLine], settles: &[SettleLine], space: u32, state: u32) -> bool {
    starts
        .iter()
        .any(|line| line.space == space && line.state == state)
        || settles
            .iter()
            .any(|line| line.space == space && line.state == state)
}

/// The lines of settled states, as they stand.
#[derive(Drop)]
struct SettledLines {
    starts: Items<StartLine>,
    settles: Items<SettleLine>,
}

/// What is wrong with the start line in a place.
fn start_kind(a: &Table, starts: &[StartLine], place: usize) -> Option<FaultKind> {
    let line = starts.get(place)?;
    if has_state(a, line.space, line.state) {
        Some(FaultKind::Table)
    } else {
        Some(FaultKind::Unknown)
    }
}

/// What is wrong with the settle line in a place.
fn settle_kind(g: &Guide, a: &Table, lines: &SettledLines, place: usize) -> FaultKind {
    let starts = lines.starts.as_slice();
    let settles = lines.settles.as_slice();
    let Some(line) = settles.get(place) else {
        return FaultKind::Table;
    };
    let Some((left, right)) = g.children(line.space) else {
        return FaultKind::Unknown;
    };
    let (before, _) = settles.split_at(place);
    if has_state(a, line.space, line.state)
        && is_told(starts, before, left, line.left)
        && is_told(starts, before, right, line.right)
    {
        FaultKind::Table
    } else {
        FaultKind::Unknown
    }
}

/// Where and why settled states are wrong; `all` are the lines from the first on, and `behind` those behind them.
fn settle_stop(
    g: &Guide,
    a: &Table,
    lines: &SettledLines,
    all: &[Line],
    behind: &[Line],
    fault: SettleFault,
) -> Stop {
    match fault {
        SettleFault::Start(place) => {
            let left = all.len().saturating_sub(place);
            match start_kind(a, lines.starts.as_slice(), place) {
                Some(kind) => Stop::Fault(left, kind),
                None => wrong_form(lines_from(all, place)),
            }
        }
        SettleFault::Settle(place) => {
            let before = lines.starts.len().saturating_add(place);
            Stop::Fault(
                all.len().saturating_sub(before),
                settle_kind(g, a, lines, place),
            )
        }
        SettleFault::Open => Stop::Open(behind.len()),
        SettleFault::NoMemory => Stop::NoMemory,
    }
}

/// The states that a dropped track starts with, by the part's automaton, and what follows their lines.
///
/// # Errors
///
/// The first line that is wrong in its place; `Open` where all are right and a step leads out of the states; want of memory.
pub fn read_settled<'a>(
    alloc: Global,
    g: &Guide,
    nodes: &Diagrams,
    a: &Table,
    track: u32,
    lines: &'a [Line],
) -> Result<(SettledStates, &'a [Line]), Stop>
    requires { AreDrawn nodes.now }
    ensures { IfOk result (λ cut. ReadsSettled g.now (table_automaton nodes.now a.now) track lines.now cut.0 cut.1.now) }
{
    let (starts, left) = read_starts(alloc, g.spaces(), lines)?;
    let (settles, rest) = read_settles(alloc, left)?;
    let told = SettledLines { starts, settles };
    match settle_all(
        alloc,
        g,
        nodes,
        a,
        track,
        told.starts.as_slice(),
        told.settles.as_slice(),
    ) {
        Ok(states) => Ok((states, rest)),
        Err(fault) => Err(settle_stop(g, a, &told, lines, rest, fault)),
    }
}
