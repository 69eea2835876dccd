//! The first state with each row of numbers, found by a hash of the row.

ghost use Rattle.std.specs.Prelude.{◌≡◌, ◌<◌, ◌/◌, ◌%◌, ◌^◌, ℕ, List, ◌++◌, [], ◌∷◌, length, slice_index, slice_set, vec_len, IfOk, OnOk};
ghost use Rattle.bdd_nodes.specs.declared.node_ref.NodeRef.{NodeRef};
ghost use Rattle.gta_refine.specs.Firsts.{hash_more, AreFirsts};

use bdd_nodes::NodeRef;
use std::alloc::{AllocError, Global};

/// States, each with a row of its own, in order. A link is a place among them plus one, and 0 ends a chain.
#[derive(Debug, Drop)]
pub(crate) struct Firsts {
    pub states: Vec<u32>,
    /// For each bucket the link to its latest state.
    pub buckets: Vec<usize>,
    /// For each state the link to the one before it in its bucket.
    pub chain: Vec<usize>,
}

impl Firsts {
    /// No states, with room for so many and as many buckets.
    pub(crate) fn new(alloc: Global, many: usize) -> Result<Firsts, AllocError>
        ensures first { IfOk result (λ firsts. (rows : ℕ → List NodeRef) →
            AreFirsts rows many firsts.states.items firsts.buckets.items firsts.chain.items) }
        ensures none { IfOk result (λ firsts. firsts.states.items ≡ []) }
    {
        let states = Vec::with_capacity(alloc, many)?;
        let buckets = vec![in alloc; 0; many]?;
        let chain = Vec::with_capacity(alloc, many)?;
        Ok(Firsts {
            states,
            buckets,
            chain,
        })
    }

    /// Puts a state behind the others, and before those of its bucket.
    pub(crate) fn put(&mut self, state: u32, bucket: usize) -> Result<(), AllocError>
        requires { bucket < length self.old.buckets.items }
        ensures states { OnOk result (self.new.states.items ≡ self.old.states.items ++ state ∷ []) }
        ensures chain { OnOk result (self.new.chain.items ≡ self.old.chain.items ++ slice_index self.old.buckets.items bucket ∷ []) }
        ensures buckets { OnOk result (self.new.buckets.items ≡ slice_set self.old.buckets.items bucket (vec_len self.new.states)) }
    {
        let before = self.buckets[bucket];
        self.chain.push(before)?;
        self.states.push(state)?;
        self.buckets[bucket] = self.states.len();
        Ok(())
    }
}

/// An odd factor without a pattern.
const FACTOR: u64 = 0x9E37_79B9_7F4A_7C15;

/// The hash of a row with one number more.
#[inline]
#[tactic(auto, unfolding(crate::specs::Firsts::hash_more))]
pub(crate) fn add_number(hash: u64, number: NodeRef) -> u64
    ensures { result ≡ hash_more hash number }
{
    hash.wrapping_add(u64::from(number.word()))
        .wrapping_mul(FACTOR)
}

/// Which of so many buckets a hash leads to, by its upper half.
#[inline]
pub(crate) fn bucket_by(hash: u64, buckets: usize) -> usize
    requires { 0 < buckets }
    ensures value { result ≡ (hash / 2 ^ 32) % buckets }
    ensures within { result < buckets }
{
    ((hash >> 32) % buckets as u64) as usize
}
