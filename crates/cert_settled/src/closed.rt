//! Whether no step on a label with at most the dropped track leads out of settled states.

ghost use Rattle.std.specs.Prelude.{◌↔◌, ℕ, Contains, IsTrue, IfOk, map};
ghost use Rattle.cert_nodes.specs.Spots.{AreDrawn};
ghost use Rattle.cert_tables.specs.Automata.{table_automaton};
ghost use Rattle.cert_settled.specs.Settling.{placed, HasClass, IsCellClosed, IsRowClosed, AreCellsClosed, IsClosedIn, IsClosedUnder};

use crate::states::{Placed, SettledStates};
use crate::steps::cell_of;
use cert_nodes::Diagrams;
use cert_tables::{Table, class};
use indexmap::IndexSet;
use std::alloc::{AllocError, Global};
use ws2s_core::Guide;

/// The classes that the states of a child space have on one side, each once.
fn classes_of(
    alloc: Global,
    is_right: bool,
    space: u32,
    child: u32,
    a: &Table,
    states: &[Placed],
) -> Result<IndexSet<u32>, AllocError>
    ensures { IfOk result (λ classes. (k : ℕ) →
        Contains classes.keys k ↔ HasClass is_right space child a.now (map placed states.now) k) }
{
    let mut classes = IndexSet::new(alloc);
    for state in states {
        if state.space == child {
            classes.insert_full(class(a, is_right, space, state.state))?;
        }
    }
    Ok(classes)
}

/// Whether what two classes lead to is there, without the dropped track and with it.
fn is_cell_closed(
    nodes: &Diagrams,
    space: u32,
    a: &Table,
    track: u32,
    states: &SettledStates,
    left: u32,
    right: u32,
) -> bool
    requires { AreDrawn nodes.now }
    ensures { IsTrue result ↔ IsCellClosed nodes.now space a.now track states.now left right }
{
    let unset = cell_of(nodes, a, space, left, right, track, false);
    let set = cell_of(nodes, a, space, left, right, track, true);
    states.has(space, unset) && states.has(space, set)
}

/// Whether what a class leads to with each of the right side's is there.
fn is_row_closed(
    nodes: &Diagrams,
    space: u32,
    a: &Table,
    track: u32,
    states: &SettledStates,
    left: u32,
    rights: &[u32],
) -> bool
    requires { AreDrawn nodes.now }
    ensures { IsTrue result ↔ IsRowClosed nodes.now space a.now track states.now rights.now left }
{
    for right in rights {
        if !is_cell_closed(nodes, space, a, track, states, left, *right) {
            return false;
        }
    }
    true
}

/// Whether what the classes of both sides lead to is there.
fn are_cells_closed(
    nodes: &Diagrams,
    space: u32,
    a: &Table,
    track: u32,
    states: &SettledStates,
    lefts: &[u32],
    rights: &[u32],
) -> bool
    requires { AreDrawn nodes.now }
    ensures { IsTrue result ↔ AreCellsClosed nodes.now space a.now track states.now lefts.now rights.now }
{
    for left in lefts {
        if !is_row_closed(nodes, space, a, track, states, *left, rights) {
            return false;
        }
    }
    true
}

/// Whether no step leads out of the states in a space. Each two classes that occur are looked at once.
fn is_closed_in(
    alloc: Global,
    g: &Guide,
    nodes: &Diagrams,
    space: u32,
    a: &Table,
    track: u32,
    states: &SettledStates,
) -> Result<bool, AllocError>
    requires { AreDrawn nodes.now }
    ensures { IfOk result (λ closed. IsTrue closed ↔ IsClosedIn g.now (table_automaton nodes.now a.now) track states.now space) }
{
    let (left, right) = g.children(space).unwrap_or((0, 0));
    let lefts = classes_of(alloc, false, space, left, a, states.as_slice())?;
    let rights = classes_of(alloc, true, space, right, a, states.as_slice())?;
    Ok(are_cells_closed(
        nodes,
        space,
        a,
        track,
        states,
        lefts.as_slice(),
        rights.as_slice(),
    ))
}

/// Whether no step on a label with at most the dropped track leads out of the states. Each two classes that occur in a space
/// are looked at once.
///
/// # Errors
///
/// Want of memory.
pub fn is_closed(
    alloc: Global,
    g: &Guide,
    nodes: &Diagrams,
    a: &Table,
    track: u32,
    states: &SettledStates,
) -> Result<bool, AllocError>
    requires { AreDrawn nodes.now }
    ensures { IfOk result (λ closed. IsTrue closed ↔ IsClosedUnder g.now (table_automaton nodes.now a.now) track states.now) }
{
    for space in 0..g.spaces() {
        if !is_closed_in(alloc, g, nodes, space, a, track, states)? {
            return Ok(false);
        }
    }
    Ok(true)
}
