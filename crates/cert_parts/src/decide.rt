//! Decision nodes over one track or two.

ghost use Rattle.std.specs.Prelude.{◌≡◌, ℕ, IfOk, OnOk, if◌then◌else◌};
ghost use Rattle.labels.specs.Labels.{Label};
ghost use Rattle.ws2s_core.specs.Nodes.{Extends};
ghost use Rattle.cert_nodes.specs.Nodes.{AreNodes};
ghost use Rattle.cert_parts.specs.Atoms.{chosen};
ghost use Rattle.cert_parts.specs.Leading.{LeadsTo};

use crate::choice::Choice;
use cert_nodes::NodeTable;
use cert_text::{NodeLine, Target};
use std::alloc::{AllocError, Global};

/// The target that leads where one does with the track unset, and where another does with it set.
fn choose(
    nodes: &mut NodeTable,
    track: u32,
    low: Target,
    high: Target,
) -> Result<Target, AllocError>
    requires { AreNodes nodes.old }
    ensures drawn { AreNodes nodes.new }
    ensures grown { OnOk result (Extends nodes.old nodes.new) }
    ensures leads { IfOk result (λ t. (f h : Label → ℕ) → LeadsTo nodes.old low f → LeadsTo nodes.old high h →
        LeadsTo nodes.new t (λ label. if label track then h label else f label)) }
{
    if low == high {
        return Ok(low);
    }
    let count = nodes.len();
    if count >= u32::MAX as usize {
        return Err(AllocError);
    }
    let number = count as u32 + 1;
    let made = nodes.push(NodeLine {
        node: number,
        track,
        low,
        high,
    });
    match made {
        Ok(()) => Ok(Target::Node(number)),
        Err(_) => Err(AllocError),
    }
}

/// The target that leads to the first state with the track unset, and to the second with it set.
fn choose_state(
    nodes: &mut NodeTable,
    track: u32,
    low: u32,
    high: u32,
) -> Result<Target, AllocError>
    requires { AreNodes nodes.old }
    ensures drawn { AreNodes nodes.new }
    ensures grown { OnOk result (Extends nodes.old nodes.new) }
    ensures leads { IfOk result (λ t. LeadsTo nodes.new t (λ label. if label track then high else low)) }
{
    choose(nodes, track, Target::State(low), Target::State(high))
}

/// The target that leads to a choice's state, where the first track is asked before the second.
fn choose_in_order(
    nodes: &mut NodeTable,
    x: u32,
    y: u32,
    choice: Choice,
) -> Result<Target, AllocError>
    requires { AreNodes nodes.old }
    ensures drawn { AreNodes nodes.new }
    ensures grown { OnOk result (Extends nodes.old nodes.new) }
    ensures leads { IfOk result (λ t. LeadsTo nodes.new t (λ label. chosen choice (label x) (label y))) }
{
    let low = choose_state(nodes, y, choice.neither, choice.second)?;
    let high = choose_state(nodes, y, choice.first, choice.both)?;
    choose(nodes, x, low, high)
}

/// The target that leads to a choice's state.
pub(crate) fn choose_by(
    nodes: &mut NodeTable,
    x: u32,
    y: u32,
    choice: Choice,
) -> Result<Target, AllocError>
    requires { AreNodes nodes.old }
    ensures drawn { AreNodes nodes.new }
    ensures grown { OnOk result (Extends nodes.old nodes.new) }
    ensures leads { IfOk result (λ t. LeadsTo nodes.new t (λ label. chosen choice (label x) (label y))) }
{
    if x == y {
        choose_state(nodes, x, choice.neither, choice.both)
    } else if x < y {
        choose_in_order(nodes, x, y, choice)
    } else {
        let turned = Choice {
            second: choice.first,
            first: choice.second,
            ..choice
        };
        choose_in_order(nodes, y, x, turned)
    }
}
