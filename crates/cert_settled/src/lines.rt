//! The lines that tell settled states.

ghost use Rattle.std.specs.Prelude.{◌≡◌, ◌↔◌, [], ◌∷◌, ◌++◌, ◌≤◌, length, map, IsTrue, IfOk, IfErr, OnOk, OnErr, if◌then◌else◌};
ghost use Rattle.cert_nodes.specs.declared.spots.Diagrams.{Diagrams};
ghost use Rattle.cert_nodes.specs.Spots.{AreDrawn};
ghost use Rattle.cert_tables.specs.Automata.{table_automaton};
ghost use Rattle.cert_settled.specs.Settled.{start_state, settle_state, told_states, IsStart, HasStarts, SettlesNew, AreSettles, AreSettling};
ghost use Rattle.cert_settled.specs.Settled.{IsFirstFault, IsStartFault, IsSettleFault};

use crate::closed::is_closed;
use crate::states::{Placed, SettledStates};
use crate::steps::settles;
use cert_nodes::Diagrams;
use cert_tables::{Table, initial};
use cert_text::{SettleLine, StartLine};
use std::alloc::{AllocError, Global};
use ws2s_core::Guide;

/// What is wrong with lines that tell settled states. Places are counted from 0 among the lines of a form.
#[derive(Clone, Copy, Debug, PartialEq, Eq)]
pub enum SettleFault {
    /// The start line in this place doesn't name the space of that place and its initial state, or there is none and that space
    /// has none.
    Start(usize),
    /// The settle line in this place doesn't settle a state, or settles one that earlier lines tell.
    Settle(usize),
    /// All lines are right, and a step leads out of the states that they tell.
    Open,
    /// Memory ran out.
    NoMemory,
}

impl From<AllocError> for SettleFault {
    ghost use Rattle.std.specs.Prelude.{◌≡◌};
    ghost use Rattle.cert_settled.specs.declared.lines.SettleFault.TheVariants.{NoMemory};

    ghost from_gives = { λ _ fault. fault ≡ NoMemory };

    fn from(_: AllocError) -> SettleFault {
        SettleFault::NoMemory
    }
}

/// Whether a start line names the space of its place and its initial state. Takes no memory.
pub fn is_start(g: &Guide, a: &Table, place: usize, line: StartLine) -> bool
    ensures { (nodes : Diagrams) → IsTrue result ↔ IsStart g.now (table_automaton nodes a.now) place line }
{
    line.space < g.spaces() && line.space as usize == place && line.state == initial(a, line.space)
}

/// Puts the state that a line settles behind the others. `false` where it settles none, or one that is there.
///
/// # Errors
///
/// Want of memory; the states are then as they were.
pub fn settle(
    g: &Guide,
    nodes: &Diagrams,
    a: &Table,
    track: u32,
    states: &mut SettledStates,
    line: SettleLine,
) -> Result<bool, AllocError>
    requires { AreDrawn nodes.now }
    ensures answer { IfOk result (λ is_new. IsTrue is_new ↔ SettlesNew g.now (table_automaton nodes.now a.now) track states.old line) }
    ensures value { IfOk result (λ is_new. states.new ≡ (if is_new then states.old ++ settle_state line ∷ [] else states.old)) }
    ensures err { OnErr result (states.new ≡ states.old) }
{
    if !settles(g, nodes, a, track, states, line) {
        return Ok(false);
    }
    states.push(Placed {
        space: line.space,
        state: line.state,
    })
}

/// Whether there are as many start lines as spaces.
fn has_all(g: &Guide, starts: &[StartLine]) -> bool
    ensures { IsTrue result ↔ (length g.now ≤ length starts.now) }
{
    g.spaces() as usize <= starts.len()
}

/// The states that start lines tell.
fn start_all(
    alloc: Global,
    g: &Guide,
    a: &Table,
    starts: &[StartLine],
) -> Result<SettledStates, SettleFault>
    ensures value { IfOk result (λ states. states ≡ map start_state starts.now) }
    ensures right { (nodes : Diagrams) → OnOk result (HasStarts g.now (table_automaton nodes a.now) starts.now) }
    ensures fault { (nodes : Diagrams) → IfErr result (IsStartFault g.now (table_automaton nodes a.now) starts.now) }
{
    let mut states = SettledStates::new(alloc);
    for (place, line) in starts.iter().enumerate() {
        if !is_start(g, a, place, *line) {
            return Err(SettleFault::Start(place));
        }
        states.push(Placed {
            space: line.space,
            state: line.state,
        })?;
    }
    if !has_all(g, starts) {
        return Err(SettleFault::Start(starts.len()));
    }
    Ok(states)
}

/// Puts the states that settle lines tell behind the others.
fn settle_each(
    g: &Guide,
    nodes: &Diagrams,
    a: &Table,
    track: u32,
    lines: &[SettleLine],
    states: &mut SettledStates,
) -> Result<(), SettleFault>
    requires { AreDrawn nodes.now }
    ensures value { OnOk result (states.new ≡ states.old ++ map settle_state lines.now) }
    ensures right { OnOk result (AreSettles g.now (table_automaton nodes.now a.now) track states.old lines.now (length lines.now)) }
    ensures fault { IfErr result (IsSettleFault g.now (table_automaton nodes.now a.now) track states.old lines.now) }
{
    for (place, line) in lines.iter().enumerate() {
        let is_new = settle(g, nodes, a, track, states, *line)?;
        if !is_new {
            return Err(SettleFault::Settle(place));
        }
    }
    Ok(())
}

/// The states that start and settle lines tell, in their order: where each line is right, and no step leads out of the states.
///
/// # Errors
///
/// The first line that is wrong, or missing among the start lines; `Open` where all are right and a step leads out of what they
/// tell; want of memory.
pub fn settle_all(
    alloc: Global,
    g: &Guide,
    nodes: &Diagrams,
    a: &Table,
    track: u32,
    starts: &[StartLine],
    lines: &[SettleLine],
) -> Result<SettledStates, SettleFault>
    requires { AreDrawn nodes.now }
    ensures value { IfOk result (λ states. states ≡ told_states starts.now lines.now) }
    ensures right { OnOk result (AreSettling g.now (table_automaton nodes.now a.now) track starts.now lines.now) }
    ensures fault { IfErr result (IsFirstFault g.now (table_automaton nodes.now a.now) track starts.now lines.now) }
{
    let mut states = start_all(alloc, g, a, starts)?;
    settle_each(g, nodes, a, track, lines, &mut states)?;
    if !is_closed(alloc, g, nodes, a, track, &states)? {
        return Err(SettleFault::Open);
    }
    Ok(states)
}
