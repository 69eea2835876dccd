//! A shelf of decision nodes.

mod collect;
pub(crate) mod read;
mod tables;

ghost use Rattle.std.specs.Prelude.{◌≡◌, ◌+◌, ◌≤◌, ◌↔◌, IfOk, OnErr, IsErr, IfSome, IfNone, if◌then◌else◌};
ghost use Rattle.labels.specs.Labels.{Label};
ghost use Rattle.bdd_nodes.specs.Nodes.{node_of};
ghost use Rattle.bdd_nodes.specs.Shelf.{IsShelf, IsValid, IsSideFor, IsFullFor, Splits, AsksFrom, empty_shelf, count_of, limit_of, state_of};
ghost use Rattle.bdd_nodes.specs.Shelf.{choice_of, top_of, low_of, high_of, label_of};
ghost use Rattle.bdd_nodes.specs.Changes.{Keeps, SameTables, AddsOnly, is_valid};

use crate::index::Index;
use crate::node::Node;
use crate::node_ref::NodeRef;
use crate::roots::RootSet;
use crate::within::push_within;
use std::alloc::{AllocError, Global};
use std::marker::Model;
use thiserror::Error;

/// There is no room for a node that isn't there.
#[derive(Clone, Copy, Debug, PartialEq, Eq, Error)]
#[error("the shelf is full")]
pub struct Full;

/// Decision nodes of one owner, up to a limit, and the tables of roots that `collect` keeps.
#[derive(Debug, Drop)]
pub struct Shelf {
    limit: u32,
    /// In the order in which they were made: the sides of a node stand before it.
    nodes: Vec<Node>,
    /// It has a link for each node, and room for links and buckets for all that may come.
    index: Index,
    roots: RootSet,
}

impl Model for Shelf {
    ghost use Rattle.std.specs.Prelude.{vec_capacity};
    ghost use Rattle.bdd_nodes.specs.Shelf.{Contents};
    ghost use Rattle.bdd_nodes.specs.Stored.{IsStored};

    ghost Value = { Contents };

    ghost view = { λ a. record { nodes = a.nodes.items; limit = a.limit; roots = a.roots } };

    ghost invariant = { λ a. IsStored a.limit a.nodes.items (vec_capacity a.nodes) a.index a.roots };
}

impl Shelf {
    /// A shelf without nodes and tables, with all the memory for `limit` nodes and for collecting them: 20 bytes a node,
    /// which are reserved here and touched as nodes come. `AllocError` for want of that memory.
    pub fn open(alloc: Global, limit: u32) -> Result<Shelf, AllocError>
        requires some { 1 ≤ limit }
        requires small { limit ≤ 16000000 }
        ensures empty { IfOk result (λ shelf. shelf ≡ empty_shelf limit) }
        ensures shelf { IfOk result IsShelf }
    {
        Ok(Shelf {
            limit,
            nodes: Vec::with_capacity(alloc, limit as usize)?,
            index: Index::open(alloc, limit)?,
            roots: RootSet::new(alloc),
        })
    }

    /// The function that is `low`'s where the track is unset, and `high`'s where it is set. `Full` exactly where the
    /// sides differ, the limit is reached and nothing in the shelf stands for the function. Takes no memory.
    #[inline]
    pub fn make(&mut self, track: u32, low: NodeRef, high: NodeRef) -> Result<NodeRef, Full>
        requires low { IsSideFor self.old track low }
        requires high { IsSideFor self.old track high }
        ensures value { IfOk result (λ made. (label : Label) →
            state_of self.new made label ≡ choice_of self.old track low high label) }
        ensures valid { IfOk result (IsValid self.new) }
        ensures later { IfOk result (AsksFrom self.new track) }
        ensures kept { Keeps self.old self.new }
        ensures only { IfOk result (AddsOnly self.old self.new) }
        ensures count { IfOk result (λ made. count_of self.new
            ≡ (if is_valid self.old made then count_of self.old else count_of self.old + 1)) }
        ensures limit { limit_of self.new ≡ limit_of self.old }
        ensures tables { SameTables self.old self.new }
        ensures full { IsErr result ↔ IsFullFor self.old track low high }
        ensures err { OnErr result (self.new ≡ self.old) }
        ensures shelf { IsShelf self.new }
    {
        let limit = self.limit;
        let is_same = low == high;
        if is_same {
            return Ok(low);
        }
        let node = Node { track, low, high };
        let bucket = node.bucket(self.index.buckets.len() as u32);
        if let Some(index) = self.index.find(&self.nodes, bucket, node) {
            return Ok(NodeRef::inner(index));
        }
        let index = self.nodes.len() as u32;
        let is_full = index == limit;
        if is_full {
            return Err(Full);
        }
        push_within(&mut self.nodes, node);
        self.index.put_last(&self.nodes, bucket, limit);
        Ok(NodeRef::inner(index))
    }
}
