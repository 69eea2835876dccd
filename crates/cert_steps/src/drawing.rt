//! The decision nodes of a section and of the atoms, with the greatest state that each node of the section reaches.

ghost use Rattle.std.specs.Prelude.{◌≡◌, ◌∷◌, [], ◌++◌, OnOk, OnErr};
ghost use Rattle.cert_nodes.specs.Spots.{AreDrawn};
ghost use Rattle.cert_steps.specs.Places.{greatest_on, greatest_of, greatests_of};

use crate::fault::{FaultKind, Stop};
use cert_nodes::{Diagrams, NodeFault, NodeTable};
use cert_text::{NodeLine, Target};
use plain_data::{Items, at};
use std::alloc::{AllocError, Global};

/// The decision nodes of the atoms and of a section, and for each of the latter the greatest state that it reaches.
#[derive(Debug, Drop)]
pub struct Drawing {
    pub nodes: Diagrams,
    pub greatest: Items<u32>,
}

/// The greatest state that a target reaches.
pub(crate) fn greatest_at(greatest: &[u32], target: Target) -> u32
    ensures { result ≡ greatest_on greatest.now target }
{
    match target {
        Target::State(state) => state,
        Target::Node(number) => {
            if number == 0 {
                return 0;
            }
            match at(greatest, number as usize - 1) {
                Some(state) => *state,
                None => 0,
            }
        }
    }
}

/// The greatest state that a node's sides reach.
fn greatest_under(greatest: &[u32], node: NodeLine) -> u32
    ensures { result ≡ greatest_of greatest.now node }
{
    greatest_at(greatest, node.low).max(greatest_at(greatest, node.high))
}

/// What a node's fault is as a line's.
fn line_fault(left: usize, fault: NodeFault) -> Stop {
    match fault {
        NodeFault::Unknown => Stop::Fault(left, FaultKind::Unknown),
        NodeFault::Table => Stop::Fault(left, FaultKind::Table),
        NodeFault::NoMemory => Stop::NoMemory,
    }
}

/// Puts a node behind the others; `left` lines are left where it stands.
pub(crate) fn draw(drawing: &mut Drawing, left: usize, node: NodeLine) -> Result<(), Stop>
    requires drawn { AreDrawn drawing.old.nodes }
    requires known { drawing.old.greatest ≡ greatests_of drawing.old.nodes.told }
    ensures drawn { OnOk result (AreDrawn drawing.new.nodes) }
    ensures known { OnOk result (drawing.new.greatest ≡ greatests_of drawing.new.nodes.told) }
    ensures told { OnOk result (drawing.new.nodes.told ≡ drawing.old.nodes.told ++ node ∷ []) }
    ensures atoms { OnOk result (drawing.new.nodes.atoms ≡ drawing.old.nodes.atoms) }
{
    let greatest = greatest_under(drawing.greatest.as_slice(), node);
    drawing.greatest.push(greatest)?;
    match drawing.nodes.told.push(node) {
        Ok(()) => Ok(()),
        Err(fault) => Err(line_fault(left, fault)),
    }
}

impl Drawing {
    /// No nodes yet. Takes no memory.
    pub fn new(alloc: Global) -> Drawing
        ensures atoms { result.nodes.atoms ≡ [] }
        ensures told { result.nodes.told ≡ [] }
        ensures greatest { result.greatest ≡ [] }
    {
        Drawing {
            nodes: Diagrams {
                atoms: NodeTable::new(alloc),
                told: NodeTable::new(alloc),
            },
            greatest: Items::new(alloc),
        }
    }
}
