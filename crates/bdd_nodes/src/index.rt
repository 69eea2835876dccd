//! Finding a node: chains of indices, one for each bucket.

ghost use Rattle.std.specs.Prelude.{◌≡◌, ◌≢◌, ◌+◌, ◌<◌, ◌≤◌, ◌^◌, ℕ, [], ◌∷◌, ◌++◌, length, vec_len, vec_capacity, slice_index, slice_set};
ghost use Rattle.std.specs.Prelude.{IfOk, IfSome, IfNone};
ghost use Rattle.bdd_nodes.specs.Nodes.{node_at};
ghost use Rattle.bdd_nodes.specs.Hash.{bucket_of};
ghost use Rattle.bdd_nodes.specs.Index.{IsIndexed};
ghost use Rattle.bdd_nodes.specs.Room.{HasRoom};

use crate::node::Node;
use crate::within::{push_within, zeros_within};
use std::alloc::{AllocError, Global};

/// Chains of indices. A link is an index plus one, and 0 ends a chain.
#[derive(Debug, Drop)]
pub(crate) struct Index {
    /// For each bucket the link to its latest node.
    pub(crate) buckets: Vec<u32>,
    /// For each index the link to the node before it in its bucket.
    pub(crate) chain: Vec<u32>,
}

/// How many buckets there are at first, where the limit isn't less.
const FIRST_BUCKETS: u32 = 1_024;

impl Index {
    /// Chains without nodes, with room for so many and for as many buckets. `AllocError` for want of that memory.
    pub(crate) fn open(alloc: Global, limit: u32) -> Result<Index, AllocError>
        requires { 1 ≤ limit }
        ensures roomy { IfOk result (HasRoom limit) }
        ensures indexed { IfOk result (λ index. IsIndexed [] index.buckets.items index.chain.items 0) }
        ensures empty { IfOk result (λ index. index.chain.items ≡ []) }
    {
        let mut buckets = Vec::with_capacity(alloc, limit as usize)?;
        zeros_within(&mut buckets, limit.min(FIRST_BUCKETS) as usize);
        Ok(Index {
            buckets,
            chain: Vec::with_capacity(alloc, limit as usize)?,
        })
    }

    /// The index of the node, if it is there.
    #[inline(always)]
    pub(crate) fn find(&self, nodes: &[Node], bucket: usize, node: Node) -> Option<u32>
        requires its { bucket ≡ bucket_of node (length self.now.buckets.items) }
        requires bucket_in { bucket < vec_len self.now.buckets }
        requires indexed { IsIndexed nodes.now self.now.buckets.items self.now.chain.items (length nodes.now) }
        requires fits { length nodes.now ≤ vec_len self.now.chain }
        ensures found { IfSome result (λ index. node_at nodes.now index ≡ node) }
        ensures within { IfSome result (λ index. index < length nodes.now) }
        ensures absent { IfNone result ((i : ℕ) → i < length nodes.now → node_at nodes.now i ≢ node) }
    {
        let mut link = self.buckets[bucket];
        while link != 0 {
            let index = link - 1;
            if nodes[index as usize] == node {
                return Some(index);
            }
            link = self.chain[index as usize];
        }
        None
    }

    /// Puts the next index before the others of its bucket.
    #[inline(always)]
    fn put(&mut self, bucket: usize)
        requires bucket_in { bucket < vec_len self.old.buckets }
        requires room { vec_len self.old.chain < vec_capacity self.old.chain }
        requires small { vec_len self.old.chain + 1 < 2 ^ 32 }
        ensures bucket { self.new.buckets.items
            ≡ slice_set self.old.buckets.items bucket (vec_len self.old.chain + 1) }
        ensures before { self.new.chain.items
            ≡ self.old.chain.items ++ slice_index self.old.buckets.items bucket ∷ [] }
        ensures buckets_room { vec_capacity self.new.buckets ≡ vec_capacity self.old.buckets }
        ensures chain_room { vec_capacity self.old.chain ≤ vec_capacity self.new.chain }
    {
        push_within(&mut self.chain, self.buckets[bucket]);
        self.buckets[bucket] = self.chain.len() as u32;
    }

    /// Puts the last node, and makes more buckets where there are more nodes.
    #[inline(always)]
    pub(crate) fn put_last(&mut self, nodes: &[Node], bucket: usize, limit: u32)
        requires roomy { HasRoom limit self.old }
        requires small { limit < 2 ^ 31 }
        requires within { length nodes.now ≤ limit }
        requires last { length nodes.now ≡ vec_len self.old.chain + 1 }
        requires indexed { IsIndexed nodes.now self.old.buckets.items self.old.chain.items (vec_len self.old.chain) }
        requires its { bucket ≡ bucket_of (node_at nodes.now (vec_len self.old.chain)) (vec_len self.old.buckets) }
        requires bucket_in { bucket < vec_len self.old.buckets }
        ensures indexed { IsIndexed nodes.now self.new.buckets.items self.new.chain.items (length nodes.now) }
        ensures chain_len { vec_len self.new.chain ≡ length nodes.now }
        ensures roomy { HasRoom limit self.new }
    {
        self.put(bucket);
        if nodes.len() > self.buckets.len() {
            self.widen(nodes, limit);
        }
    }

    /// Makes twice the buckets, up to the limit, and puts all nodes.
    #[cold]
    #[inline(never)]
    fn widen(&mut self, nodes: &[Node], limit: u32)
        requires roomy { HasRoom limit self.old }
        requires small { limit < 2 ^ 31 }
        requires within { length nodes.now ≤ limit }
        ensures indexed { IsIndexed nodes.now self.new.buckets.items self.new.chain.items (length nodes.now) }
        ensures chain_len { vec_len self.new.chain ≡ length nodes.now }
        ensures roomy { HasRoom limit self.new }
    {
        let count = self.buckets.len() as u32;
        self.rebuild(nodes, limit.min(count * 2));
    }

    /// Puts all nodes, and them alone, into so many buckets.
    pub(crate) fn rebuild(&mut self, nodes: &[Node], count: u32)
        requires some { 1 ≤ count }
        requires room { count ≤ vec_capacity self.old.buckets }
        requires fits { length nodes.now ≤ vec_capacity self.old.chain }
        requires small { length nodes.now < 2 ^ 31 }
        ensures indexed { IsIndexed nodes.now self.new.buckets.items self.new.chain.items (length nodes.now) }
        ensures buckets_len { vec_len self.new.buckets ≡ count }
        ensures chain_len { vec_len self.new.chain ≡ length nodes.now }
        ensures buckets_room { vec_capacity self.old.buckets ≤ vec_capacity self.new.buckets }
        ensures chain_room { vec_capacity self.old.chain ≤ vec_capacity self.new.chain }
    {
        zeros_within(&mut self.buckets, count as usize);
        self.chain.clear();
        for index in 0..nodes.len() {
            let bucket = nodes[index].bucket(count);
            self.put(bucket);
        }
    }
}
