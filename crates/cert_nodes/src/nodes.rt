//! The decision nodes of a section.

ghost use Rattle.std.specs.Prelude.{◌≡◌, ◌↔◌, [], ◌∷◌, ◌++◌, length, IsTrue, IfErr, OnOk, OnErr};
ghost use Rattle.cert_nodes.specs.Nodes.{node_at, AreNodes, IsThere, is_under, MayFollow, IsFaultOf};

use cert_text::{NodeLine, Target};
use plain_data::{Items, at};
use std::alloc::{AllocError, Global};
use std::marker::Model;

/// Why a node can't stand behind the others.
#[derive(Clone, Copy, Debug, PartialEq, Eq)]
pub enum NodeFault {
    /// One of its sides is a node that isn't there.
    Unknown,
    /// It hasn't the next number, its sides are one, or a side asks no later track.
    Table,
    /// Memory ran out.
    NoMemory,
}

impl From<AllocError> for NodeFault {
    ghost use Rattle.std.specs.Prelude.{◌≡◌};
    ghost use Rattle.cert_nodes.specs.declared.nodes.NodeFault.TheVariants.{NoMemory};

    ghost from_gives = { λ _ fault. fault ≡ NoMemory };

    fn from(_: AllocError) -> NodeFault {
        NodeFault::NoMemory
    }
}

/// The decision nodes of a section, in the order of their numbers. Contracts see their lines.
#[derive(Debug, Drop)]
pub struct NodeTable {
    nodes: Items<NodeLine>,
}

impl Model for NodeTable {
    ghost use Rattle.std.specs.Prelude.{List};
    ghost use Rattle.cert_text.specs.declared.line.NodeLine.{NodeLine};

    ghost Value = { List NodeLine };

    ghost use Rattle.cert_text.specs.contracts.line.NodeLine as the_line;
    ghost use Rattle.std.specs.Coded.{coded_list};

    ghost coded = { coded_list the_line.the_row.coded };

    ghost view = { λ table. table.nodes };

    ghost use Rattle.cert_nodes.specs.Nodes.{AreNodes};

    ghost invariant = { λ table. AreNodes table.nodes };
}

impl NodeTable {
    /// No nodes yet. Takes no memory.
    pub fn new(alloc: Global) -> NodeTable
        ensures { result ≡ [] }
    {
        NodeTable {
            nodes: Items::new(alloc),
        }
    }

    /// How many nodes there are. Takes no memory.
    pub fn len(&self) -> usize
        ensures { result ≡ length self.now }
    {
        self.nodes.len()
    }

    /// The node with a number, counted from 1. `None` for another number. Takes no memory.
    pub fn node(&self, number: u32) -> Option<NodeLine>
        ensures { result ≡ node_at self.now number }
    {
        if number == 0 {
            return None;
        }
        at(self.nodes.as_slice(), number as usize - 1).copied()
    }

    /// Whether a target is a state, or one of the nodes. Takes no memory.
    pub fn has(&self, target: Target) -> bool
        ensures { IsTrue result ↔ IsThere self.now target }
    {
        match target {
            Target::State(_) => true,
            Target::Node(number) => number > 0 && number as usize <= self.nodes.len(),
        }
    }

    /// Whether a target may stand under a node of this track.
    fn is_under(&self, track: u32, target: Target) -> bool
        ensures { result ≡ is_under self.now track target }
    {
        match target {
            Target::State(_) => true,
            Target::Node(number) => match self.node(number) {
                None => false,
                Some(node) => track < node.track,
            },
        }
    }

    /// Whether a node whose sides are there may stand behind the others.
    fn may_follow(&self, node: NodeLine) -> bool
        requires low { IsThere self.now node.low }
        requires high { IsThere self.now node.high }
        ensures { IsTrue result ↔ MayFollow self.now node }
    {
        node.node > 0
            && node.node as usize - 1 == self.nodes.len()
            && node.low != node.high
            && self.is_under(node.track, node.low)
            && self.is_under(node.track, node.high)
    }

    /// Puts a node behind the others.
    ///
    /// # Errors
    ///
    /// `Unknown` where a side is a node that isn't there, and `Table` where both are there and the node can't follow; want of
    /// memory. The nodes are then as they were.
    pub fn push(&mut self, node: NodeLine) -> Result<(), NodeFault>
        ensures kept { OnOk result (self.new ≡ self.old ++ node ∷ []) }
        ensures err { OnErr result (self.new ≡ self.old) }
        ensures fault { IfErr result (λ fault. IsFaultOf self.old node fault) }
        ensures drawn { OnOk result (AreNodes self.new) }
    {
        if !self.has(node.low) || !self.has(node.high) {
            return Err(NodeFault::Unknown);
        }
        if !self.may_follow(node) {
            return Err(NodeFault::Table);
        }
        self.nodes.push(node)?;
        Ok(())
    }
}
