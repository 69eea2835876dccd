//! What a shelf's references are.

ghost use Rattle.std.specs.Prelude.{◌≡◌, ◌<◌, ◌^◌, ℕ, IfSome, IfNone, IsSome, None, length};
ghost use Rattle.bdd_nodes.specs.Nodes.{state_named, node_of, rank, AreCanonical, IsNamedIn};
ghost use Rattle.bdd_nodes.specs.Shelf.{Contents, IsShelf, IsLeaf, IsValid, Splits, state_of, top_of, low_of, high_of, label_of, count_of, limit_of};

use crate::node::Node;
use crate::node_ref::{Named, NodeRef};
use crate::shelf::Shelf;
use plain_data::Items;

/// Which tracks are set: their numbers.
pub type Label = Items<u32>;

impl Shelf {
    /// The leaf of a state: it gives that state for every label, in every shelf.
    #[inline]
    pub fn leaf(state: u32) -> NodeRef
        requires { state < 2 ^ 31 }
        ensures { IsLeaf result state }
    {
        NodeRef::leaf(state)
    }

    /// How many inner nodes there are.
    #[inline]
    pub fn count(&self) -> u32
        ensures value { result ≡ count_of self.now }
        ensures shelf { IsShelf self.now }
    {
        self.nodes.len() as u32
    }

    /// How many inner nodes there may be.
    #[inline]
    pub fn limit(&self) -> u32
        ensures value { result ≡ limit_of self.now }
        ensures shelf { IsShelf self.now }
    {
        self.limit
    }

    /// The state that the reference gives for the label. Takes no memory.
    pub fn eval(&self, n: NodeRef, label: &Label) -> u32
        requires { IsValid self.now n }
        ensures value { result ≡ state_of self.now n (label_of label.now) }
        ensures small { result < 2 ^ 31 }
    {
        state_in(&self.nodes, n, label.as_slice())
    }

    /// The track that the reference asks first; `None` exactly for a leaf. Takes no memory.
    #[inline]
    pub fn top(&self, n: NodeRef) -> Option<u32>
        requires { IsValid self.now n }
        ensures value { result ≡ top_of self.now n }
        ensures splits { IfSome result (Splits self.now n) }
        ensures shelf { IsShelf self.now }
    {
        match n.named() {
            Named::Leaf(_) => None,
            Named::Inner(index) => Some(self.nodes[index as usize].track),
        }
    }

    /// What the reference is where the track that it asks first is unset; a leaf itself. Takes no memory.
    #[inline]
    pub fn low(&self, n: NodeRef) -> NodeRef
        requires { IsValid self.now n }
        ensures value { result ≡ low_of self.now n }
        ensures valid { IsValid self.now result }
        ensures leaf { top_of self.now n ≡ None → result ≡ n }
        ensures shelf { IsShelf self.now }
    {
        match n.named() {
            Named::Leaf(_) => n,
            Named::Inner(index) => self.nodes[index as usize].low,
        }
    }

    /// What the reference is where the track that it asks first is set; a leaf itself. Takes no memory.
    #[inline]
    pub fn high(&self, n: NodeRef) -> NodeRef
        requires { IsValid self.now n }
        ensures value { result ≡ high_of self.now n }
        ensures valid { IsValid self.now result }
        ensures leaf { top_of self.now n ≡ None → result ≡ n }
        ensures shelf { IsShelf self.now }
    {
        match n.named() {
            Named::Leaf(_) => n,
            Named::Inner(index) => self.nodes[index as usize].high,
        }
    }
}

/// Follows the label from the reference to a leaf.
fn state_in(nodes: &[Node], n: NodeRef, label: &[u32]) -> u32
    requires canonical { AreCanonical nodes.now }
    requires valid { IsNamedIn nodes.now (node_of n) }
    ensures value { result ≡ state_named nodes.now (node_of n) (label_of label.now) }
    ensures small { result < 2 ^ 31 }
{
    let mut at = n;
    loop {
        match at.named() {
            Named::Leaf(state) => return state,
            Named::Inner(index) => {
                let node = nodes[index as usize];
                at = if label.contains(&node.track) {
                    node.high
                } else {
                    node.low
                };
            }
        }
    }
}
