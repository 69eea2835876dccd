//! Steps on labels with at most the dropped track.

ghost use Rattle.std.specs.Prelude.{◌≡◌, ◌↔◌, IsTrue};
ghost use Rattle.cert_nodes.specs.Nodes.{AreNodes, state_on, functions_of};
ghost use Rattle.cert_nodes.specs.Spots.{AreDrawn, state_at};
ghost use Rattle.cert_tables.specs.Automata.{spot_in, table_automaton};
ghost use Rattle.cert_settled.specs.Settling.{alone, Settles};

use crate::states::SettledStates;
use cert_nodes::{Diagrams, NodeTable};
use cert_tables::{Table, class, spot};
use cert_text::{SettleLine, Target};
use ws2s_core::Guide;

/// The state that a target leads to where no track is set, or this one alone.
fn state_of(nodes: &NodeTable, target: Target, track: u32, bit: bool) -> u32
    requires { AreNodes nodes.now }
    ensures { result ≡ state_on (functions_of nodes.now) target (alone track bit) }
{
    match target {
        Target::State(state) => state,
        Target::Node(number) => match nodes.node(number) {
            None => 0,
            Some(node) => {
                let side = if bit && node.track == track {
                    node.high
                } else {
                    node.low
                };
                state_of(nodes, side, track, bit)
            }
        },
    }
}

/// The state that two classes lead to where no track is set, or this one alone.
pub(crate) fn cell_of(
    nodes: &Diagrams,
    a: &Table,
    space: u32,
    left: u32,
    right: u32,
    track: u32,
    bit: bool,
) -> u32
    requires { AreDrawn nodes.now }
    ensures { result ≡ state_at nodes.now 0 (alone track bit) (spot_in a.now space left right) }
{
    let at = spot(a, space, left, right);
    if at.in_atoms {
        state_of(&nodes.atoms, at.target, track, bit)
    } else {
        state_of(&nodes.told, at.target, track, bit)
    }
}

/// The state of the step from two states of the child spaces where no track is set, or this one alone. Takes no memory.
pub fn step_of(
    nodes: &Diagrams,
    a: &Table,
    space: u32,
    left: u32,
    right: u32,
    track: u32,
    bit: bool,
) -> u32
    requires { AreDrawn nodes.now }
    ensures { result ≡ (table_automaton nodes.now a.now).step space left right (alone track bit) }
{
    cell_of(
        nodes,
        a,
        space,
        class(a, false, space, left),
        class(a, true, space, right),
        track,
        bit,
    )
}

/// Whether a line names two states of the child spaces that are there, and the state that their step is. Takes no memory.
pub fn settles(
    g: &Guide,
    nodes: &Diagrams,
    a: &Table,
    track: u32,
    states: &SettledStates,
    line: SettleLine,
) -> bool
    requires { AreDrawn nodes.now }
    ensures { IsTrue result ↔ Settles g.now (table_automaton nodes.now a.now) track states.now line }
{
    match g.children(line.space) {
        None => false,
        Some((left, right)) => {
            states.has(left, line.left)
                && states.has(right, line.right)
                && step_of(
                    nodes,
                    a,
                    line.space,
                    line.left,
                    line.right,
                    track,
                    line.has_bound,
                ) == line.state
        }
    }
}
