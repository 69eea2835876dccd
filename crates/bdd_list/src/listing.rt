//! What is listed.

use plain_data::Items;

/// What names a function: a leaf by its state, or an inner node by its place in the list.
#[derive(Clone, Copy, Debug)]
pub enum Listed {
    Leaf(u32),
    Inner(u32),
}

/// A function by a choice: `low`'s where the track is unset, and `high`'s where it is set.
#[derive(Clone, Copy, Debug)]
pub struct ListedNode {
    pub track: u32,
    pub low: Listed,
    pub high: Listed,
}

/// Nodes in order: the sides of a node stand before it.
pub type ListedNodeList = Items<ListedNode>;

/// What is listed for each root, in order.
pub type ListedList = Items<Listed>;

/// The inner nodes under some roots, and the roots.
#[derive(Debug, Drop)]
pub struct Listing {
    pub nodes: ListedNodeList,
    pub roots: ListedList,
}
