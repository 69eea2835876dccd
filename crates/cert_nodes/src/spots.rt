//! Spots in decision nodes.

ghost use Rattle.std.specs.Prelude.{◌≡◌};
ghost use Rattle.cert_nodes.specs.Spots.{nodes_of, node_of};

use crate::nodes::NodeTable;
use cert_text::{NodeLine, Target};

/// A target in the nodes of the atoms or in those of a section. The dropped track is as a label has it, or fixed.
#[derive(Clone, Copy, Debug, PartialEq, Eq, Hash)]
pub struct Spot {
    pub in_atoms: bool,
    pub target: Target,
    pub fixed: Option<bool>,
}

/// The nodes of the atoms, and those of a section.
#[derive(Debug, Drop)]
pub struct Diagrams {
    pub atoms: NodeTable,
    pub told: NodeTable,
}

impl Diagrams {
    /// The node that a spot stands at. `None` for a state, and where there is no such node.
    pub(crate) fn node(&self, spot: Spot) -> Option<NodeLine>
        ensures { result ≡ node_of (nodes_of self.now spot) spot.target }
    {
        let number = match spot.target {
            Target::State(_) => 0,
            Target::Node(number) => number,
        };
        let in_atoms = self.atoms.node(number);
        let in_told = self.told.node(number);
        if spot.in_atoms { in_atoms } else { in_told }
    }
}
