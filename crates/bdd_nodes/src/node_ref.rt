//! References to functions.

ghost use Rattle.std.specs.Prelude.{◌≡◌, ◌+◌, ◌<◌, ◌^◌, IfSome, IfNone, IsSome};

/// Where a function is kept: a leaf with its state, or the index of an inner node. One word.
#[derive(Clone, Copy, Debug, PartialEq, Eq, PartialOrd, Ord, Hash)]
pub struct NodeRef {
    /// A state below `INNER`, or `INNER` and an index.
    word: u32,
}

/// What a reference names: a leaf by its state, or an inner node by its index.
#[derive(Clone, Copy, Debug)]
pub(crate) enum Named {
    Leaf(u32),
    Inner(u32),
}

/// The least word of an inner node.
const INNER: u32 = 0x8000_0000;

impl NodeRef {
    ghost use Rattle.bdd_nodes.specs.Nodes.{node_of};
    ghost use Rattle.bdd_nodes.specs.Shelf.{Contents, IsLeaf, top_of};

    #[inline(always)]
    #[tactic(auto, unfolding(crate::specs::Nodes::node_of), using(std::proofs::lemmas::Bool::Decides::nat_tests))]
    pub(crate) fn leaf(state: u32) -> NodeRef
        requires { state < 2 ^ 31 }
        ensures { node_of result ≡ Named.Leaf state }
    {
        NodeRef { word: state }
    }

    #[inline(always)]
    #[tactic(auto, unfolding(crate::specs::Nodes::node_of), using(std::proofs::lemmas::Bool::Decides::nat_tests))]
    pub(crate) fn inner(index: u32) -> NodeRef
        requires { index < 2 ^ 31 }
        ensures { node_of result ≡ Named.Inner index }
    {
        NodeRef {
            word: index + INNER,
        }
    }

    #[inline(always)]
    #[tactic(auto, unfolding(crate::specs::Nodes::node_of), using(std::proofs::lemmas::Bool::Decides::nat_tests))]
    pub(crate) fn named(self) -> Named
        ensures { result ≡ node_of self }
    {
        if self.word < INNER {
            Named::Leaf(self.word)
        } else {
            Named::Inner(self.word - INNER)
        }
    }

    /// The reference as a number, which no other reference has.
    #[inline(always)]
    pub fn word(self) -> u32
        ensures { result ≡ self.word }
    {
        self.word
    }

    /// The state of a leaf; `None` exactly for an inner node.
    #[inline(always)]
    pub fn state(self) -> Option<u32>
        ensures leaf { IfSome result (IsLeaf self) }
        ensures inner { IfNone result ((shelf : Contents) → IsSome (top_of shelf self)) }
    {
        match self.named() {
            Named::Leaf(state) => Some(state),
            Named::Inner(_) => None,
        }
    }
}
