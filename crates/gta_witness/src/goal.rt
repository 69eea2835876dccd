//! What has a least weight, and why.

ghost use Rattle.std.specs.Ordering.{nat_cmp, on, as_partial_cmp};
ghost use Rattle.std.specs.Cmp.{partial_order_from_own_ties};
ghost use Rattle.std.specs.Cmp.Rules.{comparing};
ghost use Rattle.std.specs.Prelude.{◌≡◌, ◌≤◌, ◌↔◌, IsTrue, nat_eq};
ghost use Rattle.std.proofs.Common.{rules, refl};
ghost use Rattle.gta_witness.specs.Lightest.{HasRoom};
ghost use Rattle.gta_witness.specs.Rules.{goal_at, key, with_bits, with_node, together};

use bdd_list::Listed;
use std::cmp::Ordering;

/// What has a least weight.
#[derive(Clone, Copy, Debug, PartialEq, Eq, Hash)]
pub(crate) enum Goal {
    /// A state of a space.
    State { space: u32, state: u32 },
    /// A node under the functions of a space.
    Node { space: u32, index: u32 },
    /// A class of states of a space's left child.
    Row { space: u32, class: u32 },
    /// A class of states of a space's right child.
    Column { space: u32, class: u32 },
}

/// What a tree weighs: its bits, and where these are the same its nodes. The greatest number of either stands for all from there
/// on, since a tree that large has no room.
#[derive(Clone, Copy, Debug)]
pub(crate) struct Weight {
    pub bits: u64,
    pub nodes: u32,
}

impl Weight {
    /// Its place in the order of weights. The last place is that of all with the greatest number of bits.
    #[inline]
    pub(crate) fn key(self) -> u128
        ensures { result ≡ key self }
    {
        const LAST: u128 = u64::MAX as u128 * 4_294_967_296;
        let place = self.bits as u128 * 4_294_967_296 + self.nodes as u128;
        if place < LAST { place } else { LAST }
    }

    /// The weight with more bits.
    #[inline]
    pub(crate) fn with_bits(self, bits: u64) -> Weight
        ensures { result ≡ with_bits bits self }
    {
        Weight {
            bits: bits.saturating_add(self.bits),
            nodes: self.nodes,
        }
    }

    /// The weight of two trees under a node.
    #[inline]
    pub(crate) fn under_node(self, other: Weight) -> Weight
        ensures value { result ≡ with_node (together self other) }
        ensures no_less { key self ≤ key result }
        ensures no_less_other { key other ≤ key result }
    {
        Weight {
            bits: self.bits.saturating_add(other.bits),
            nodes: self.nodes.saturating_add(other.nodes).saturating_add(1),
        }
    }

    /// Whether both numbers are those of a tree, and stand for no greater ones.
    #[inline]
    pub(crate) fn has_room(self) -> bool
        ensures { IsTrue result ↔ HasRoom self.bits self.nodes }
    {
        self.bits < u64::MAX && self.nodes < u32::MAX
    }
}

/// By what a goal has its weight.
#[derive(Clone, Copy, Debug)]
pub(crate) enum Reason {
    /// The state is the initial one.
    Initial,
    /// The state is of the class.
    Member { state: u32 },
    /// The function of the two classes begins there.
    Cell { row: u32, column: u32 },
    /// It is a side of the node.
    Side { index: u32, is_high: bool },
}

/// What is found for a goal.
#[derive(Clone, Copy, Debug)]
pub(crate) struct Found {
    pub weight: Weight,
    pub reason: Reason,
    /// No lower weight can be found any more.
    pub is_settled: bool,
}

/// What is listed, as a goal of its space.
#[inline]
pub(crate) fn goal_of(space: u32, listed: Listed) -> Goal
    ensures { result ≡ goal_at space listed }
{
    match listed {
        Listed::Leaf(state) => Goal::State { space, state },
        Listed::Inner(index) => Goal::Node { space, index },
    }
}

/// A goal that waits in the queue, where the lowest weight is the greatest.
#[derive(Clone, Copy, Drop)]
pub(crate) struct Waiting {
    /// How far the weight's place is below the greatest number.
    pub nearness: u128,
    pub goal: Goal,
}

impl PartialEq for Waiting {
    ghost eq = { on (λ w. w.nearness) nat_eq };

    ghost laws = { Prim.search (comparing, rules) };

    fn eq(&self, other: &Waiting) -> bool {
        self.nearness == other.nearness
    }
}

impl Eq for Waiting {
    ghost laws = { Prim.search (comparing, rules) };
}

impl PartialOrd for Waiting {
    ghost partial_cmp = { as_partial_cmp (on (λ w. w.nearness) nat_cmp) };

    ghost laws = { partial_order_from_own_ties (Prim.search (comparing, rules)) (Prim.search (comparing, rules)) };

    fn partial_cmp(&self, other: &Waiting) -> Option<Ordering> {
        Some(self.cmp(other))
    }
}

impl Ord for Waiting {
    ghost cmp = { on (λ w. w.nearness) nat_cmp };

    ghost total = { Prim.search (comparing, rules) };

    ghost matches_partial_cmp = { λ x y. refl };

    ghost matches_eq = { Prim.search (comparing, rules) };

    fn cmp(&self, other: &Waiting) -> Ordering {
        self.nearness.cmp(&other.nearness)
    }
}
