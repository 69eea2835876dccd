//! Numbers for functions: equal ones exactly where the functions give the same classes.
//!
//! The nodes are made anew, with states replaced by their classes, in a shelf of their own, which has one node for each
//! function. It is lent from one look to the next, so that what stays the same is found there.

ghost use Rattle.std.specs.Prelude.{◌≡◌, ◌+◌, ◌<◌, ◌≤◌, ◌^◌, ℕ, List, All, length, slice_index, vec_len, IfOk, OnOk};
ghost use Rattle.bdd_nodes.specs.Shelf.{Contents, IsShelf, count_of, limit_of};
ghost use Rattle.bdd_list.specs.declared.listing.ListedNode.{ListedNode};
ghost use Rattle.bdd_list.specs.Listing.{rank, IsIn, AreOrdered};
ghost use Rattle.gta_refine.specs.Numbered.{Stands, AreNumbered, IsNumbered, StandFor, TellApart};

use bdd_list::{Listed, ListedNode, Listing};
use bdd_nodes::{NodeRef, RefList, Shelf};
use std::alloc::{AllocError, Global};

/// The class of a state; 0 for an unknown one.
#[inline]
fn class_of(classes: &[u32], state: u32) -> u32
    requires { All (λ class. class < 2 ^ 31) classes.now }
    ensures value { result ≡ slice_index classes.now state }
    ensures small { result < 2 ^ 31 }
{
    match classes.get(state as usize) {
        Some(class) => *class,
        None => 0,
    }
}

/// The reference for what is listed, over those for the nodes: it gives the class of each state.
#[inline]
pub fn reference(refs: &[NodeRef], classes: &[u32], listed: Listed) -> NodeRef
    requires classes { All (λ class. class < 2 ^ 31) classes.now }
    requires inside { rank listed ≤ length refs.now }
    ensures { (shelf : Contents) (nodes : List ListedNode) → IsNumbered shelf classes.now nodes refs.now listed
        → Stands shelf classes.now nodes listed result }
{
    match listed {
        Listed::Leaf(state) => Shelf::leaf(class_of(classes, state)),
        Listed::Inner(index) => refs[index as usize],
    }
}

/// The most nodes that a shelf may have.
const MOST_NODES: usize = 16_000_000;

/// How many nodes a shelf may have at least.
const FEW_NODES: usize = 256;

/// How many nodes a shelf for so many nodes may have: it serves for several looks.
fn room(nodes: usize) -> Result<u32, AllocError>
    ensures some { IfOk result (λ limit. 1 ≤ limit) }
    ensures enough { IfOk result (λ limit. nodes ≤ limit) }
    ensures small { IfOk result (λ limit. limit ≤ 16000000) }
{
    if nodes > MOST_NODES {
        return Err(AllocError);
    }
    let wide = nodes * 2 + FEW_NODES;
    if wide > MOST_NODES {
        return Ok(MOST_NODES as u32);
    }
    Ok(wide as u32)
}

/// A shelf without nodes.
pub(crate) fn first_shelf(alloc: Global) -> Result<Shelf, AllocError> {
    Shelf::open(alloc, FEW_NODES as u32)
}

/// Has room for so many nodes more: where there is too little, the nodes that are there go.
fn make_room(alloc: Global, shelf: &mut Shelf, many: usize) -> Result<(), AllocError>
    ensures shelf { OnOk result (IsShelf shelf.new) }
    ensures room { OnOk result (count_of shelf.new + many ≤ limit_of shelf.new) }
{
    let count = shelf.count();
    let limit = shelf.limit();
    let free = limit - count;
    if free as usize >= many {
        return Ok(());
    }
    *shelf = Shelf::open(alloc, room(many)?)?;
    Ok(())
}

/// A reference for each node.
fn number_nodes(
    alloc: Global,
    shelf: &mut Shelf,
    nodes: &[ListedNode],
    classes: &[u32],
) -> Result<Vec<NodeRef>, AllocError>
    requires shelf { IsShelf shelf.old }
    requires room { count_of shelf.old + length nodes.now ≤ limit_of shelf.old }
    requires ordered { AreOrdered nodes.now }
    requires classes { All (λ class. class < 2 ^ 31) classes.now }
    ensures many { IfOk result (λ refs. vec_len refs ≡ length nodes.now) }
    ensures numbered { IfOk result (λ refs. AreNumbered shelf.new classes.now nodes.now refs.items) }
    ensures shelf { IfOk result (λ refs. IsShelf shelf.new) }
{
    let mut refs = Vec::with_capacity(alloc, nodes.len())?;
    for index in 0..nodes.len() {
        let node = nodes[index];
        let low = reference(&refs, classes, node.low);
        let high = reference(&refs, classes, node.high);
        let Ok(made) = shelf.make(node.track, low, high) else {
            unreachable!()
        };
        refs.push(made)?;
    }
    Ok(refs)
}

/// The references for what is listed, in order.
pub fn references(
    alloc: Global,
    refs: &[NodeRef],
    classes: &[u32],
    listed: &[Listed],
) -> Result<RefList, AllocError>
    requires classes { All (λ class. class < 2 ^ 31) classes.now }
    requires inside { All (λ one. rank one ≤ length refs.now) listed.now }
    ensures { IfOk result (StandFor classes.now refs.now listed.now) }
{
    let mut references = RefList::from_vec(Vec::with_capacity(alloc, listed.len())?);
    for index in 0..listed.len() {
        references.push(reference(refs, classes, listed[index]))?;
    }
    Ok(references)
}

/// A number for each root of the listing.
pub(crate) fn number_roots(
    alloc: Global,
    shelf: &mut Shelf,
    listing: &Listing,
    classes: &[u32],
) -> Result<RefList, AllocError>
    requires ordered { AreOrdered listing.now.nodes }
    requires inside { All (IsIn listing.now.nodes) listing.now.roots }
    requires classes { All (λ class. class < 2 ^ 31) classes.now }
    ensures { IfOk result (TellApart listing.now classes.now) }
{
    let nodes = listing.nodes.as_slice();
    make_room(alloc, shelf, nodes.len())?;
    let refs = number_nodes(alloc, shelf, nodes, classes)?;
    let numbers = references(alloc, &refs, classes, listing.roots.as_slice())?;
    Ok(numbers)
}
