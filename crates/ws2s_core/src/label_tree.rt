//! Labelled trees: finite trees whose nodes carry the tracks that hold their position.

ghost use Rattle.std.specs.Prelude.{◌≡◌};
ghost use Rattle.ws2s_core.specs.LabelTrees.{IsTree};

use crate::track::TrackList;
use plain_data::Items;
use std::marker::Model;

/// A node of a tree: the tracks that hold its position, and the places of its children in the list of nodes.
#[derive(Debug, Drop)]
pub struct TreeNode {
    pub tracks: TrackList,
    pub left: Option<u32>,
    pub right: Option<u32>,
}

/// Nodes, each child before its parent.
pub type TreeNodeList = Items<TreeNode>;

/// A finite tree, as the list of its nodes, of which the last is the root. Without nodes it stands for the empty
/// assignment. Contracts see the list; `assignment_of` says which assignment it stands for.
#[derive(Debug, Drop)]
pub struct LabelTree {
    nodes: TreeNodeList,
}

impl Model for LabelTree {
    ghost use Rattle.std.specs.Prelude.{List};
    ghost use Rattle.ws2s_core.specs.declared.label_tree.TreeNode.{TreeNode};
    ghost use Rattle.ws2s_core.specs.LabelTrees.{IsTree};

    ghost Value = { List TreeNode };

    ghost view = { λ tree. tree.nodes };

    ghost invariant = { λ tree. IsTree tree.nodes };
}

impl LabelTree {
    /// The tree with these nodes. Takes no memory.
    pub fn new(nodes: TreeNodeList) -> LabelTree
        requires { IsTree nodes }
        ensures { result ≡ nodes }
    {
        LabelTree { nodes }
    }

    /// The nodes, each child before its parent, the root last. Takes no memory.
    pub fn nodes(&self) -> &[TreeNode]
        ensures value { result.now ≡ self.now }
        ensures inside { IsTree self.now }
    {
        self.nodes.as_slice()
    }
}
