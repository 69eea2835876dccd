//! Going down from each root to its leaves, and up again: a node is listed after its sides. A stack keeps the nodes that
//! wait, so that no call goes deep.

ghost use Rattle.std.specs.Prelude.{◌≡◌, ◌<◌, ◌+◌, ◌^◌, [], ◌∷◌, ℕ, List, All, Some, IfOk, length, slice_get, vec_len};
ghost use Rattle.bdd_nodes.specs.declared.node_ref.NodeRef.{NodeRef};
ghost use Rattle.bdd_nodes.specs.Shelf.{IsShelf, IsValid};
ghost use Rattle.bdd_list.specs.Listing.{IsListing};
ghost use Rattle.bdd_list.specs.Waits.{Work, Works, IsList, Lists, Extends, visit_cost, stack_cost, turn_cost};
ghost use Rattle.bdd_list.specs.declared.listing.ListedNode.{ListedNode};

use crate::listing::{Listed, ListedNode, Listing};
use bdd_nodes::{NodeRef, Shelf};
use plain_data::{Items, Stack};
use std::alloc::{AllocError, Global};
use std::collections::HashMap;

/// A node that waits for its sides: its track, and what is known of its sides.
#[derive(Clone, Copy, Debug)]
pub(crate) enum Frame {
    Low {
        node: NodeRef,
        track: u32,
        high: NodeRef,
    },
    High {
        node: NodeRef,
        track: u32,
        low: Listed,
    },
}

/// What is worked on: a reference, or what was listed for the node that waits on top.
#[derive(Clone, Copy, Debug)]
pub(crate) enum Turn {
    Visit(NodeRef),
    Done(Listed),
}

/// Goes down from a reference, unless it is listed.
fn visit(
    shelf: &Shelf,
    memo: &HashMap<NodeRef, Listed>,
    stack: &mut Stack<Frame>,
    r: NodeRef,
) -> Result<Turn, AllocError>
    requires { IsValid shelf.now r }
    ensures works { (work : Work) (nodes : List ListedNode) → work.shelf ≡ shelf.now
        → Works work nodes memo.now stack.old (Turn.Visit r)
        → IfOk result (Works work nodes memo.now stack.new) }
    ensures cost { IfOk result (λ turn. turn_cost turn + stack_cost stack.new < visit_cost r + stack_cost stack.old) }
{
    if let Some(state) = r.state() {
        return Ok(Turn::Done(Listed::Leaf(state)));
    }
    if let Some(listed) = memo.get(&r) {
        return Ok(Turn::Done(*listed));
    }
    let Some(track) = shelf.top(r) else {
        unreachable!()
    };
    stack.push(Frame::Low {
        node: r,
        track,
        high: shelf.high(r),
    })?;
    Ok(Turn::Visit(shelf.low(r)))
}

/// The place of the next node. Past the last one: want of memory.
fn next_place(nodes: &Vec<ListedNode>) -> Result<u32, AllocError>
    ensures { IfOk result (λ place. place ≡ vec_len nodes.now) }
{
    if nodes.len() > u32::MAX as usize {
        return Err(AllocError);
    }
    Ok(nodes.len() as u32)
}

/// Hands what was listed to the node that waits for it.
fn resume(
    nodes: &mut Vec<ListedNode>,
    memo: &mut HashMap<NodeRef, Listed>,
    stack: &mut Stack<Frame>,
    frame: Frame,
    listed: Listed,
) -> Result<Turn, AllocError>
    ensures works { (work : Work) → Works work nodes.old.items memo.old (frame ∷ stack.old) (Turn.Done listed)
        → IfOk result (Works work nodes.new.items memo.new stack.new) }
    ensures cost { IfOk result (λ turn. turn_cost turn + stack_cost stack.new < stack_cost (frame ∷ stack.old)) }
{
    match frame {
        Frame::Low { node, track, high } => {
            stack.push(Frame::High {
                node,
                track,
                low: listed,
            })?;
            Ok(Turn::Visit(high))
        }
        Frame::High { node, track, low } => {
            let place = next_place(nodes)?;
            nodes.push(ListedNode {
                track,
                low,
                high: listed,
            })?;
            let made = Listed::Inner(place);
            memo.insert(node, made)?;
            Ok(Turn::Done(made))
        }
    }
}

/// Lists what is under a root, and isn't listed yet. No node waits before and afterwards.
fn list_from(
    shelf: &Shelf,
    roots: &[NodeRef],
    index: usize,
    stack: &mut Stack<Frame>,
    nodes: &mut Vec<ListedNode>,
    memo: &mut HashMap<NodeRef, Listed>,
) -> Result<Listed, AllocError>
    requires shelf { IsShelf shelf.now }
    requires valid { All (IsValid shelf.now) roots.now }
    requires inside { index < length roots.now }
    requires none { stack.old ≡ [] }
    requires list { IsList shelf.now roots.now nodes.old.items memo.old }
    ensures none { IfOk result (λ listed. stack.new ≡ []) }
    ensures list { IfOk result (λ listed. IsList shelf.now roots.now nodes.new.items memo.new) }
    ensures lists { IfOk result (λ listed. (root : NodeRef) → slice_get roots.now index ≡ Some root
        → Lists shelf.now nodes.new.items root listed) }
    ensures extends { IfOk result (λ listed. Extends nodes.old.items nodes.new.items) }
{
    let root = roots[index];
    let mut turn = Turn::Visit(root);
    loop {
        turn = match turn {
            Turn::Visit(r) => visit(shelf, memo, stack, r)?,
            Turn::Done(listed) => match stack.pop() {
                None => return Ok(listed),
                Some(frame) => resume(nodes, memo, stack, frame, listed)?,
            },
        };
    }
}

/// The inner nodes under the roots, each once, with the sides of a node before it.
///
/// # Errors
///
/// Want of memory.
pub fn list_nodes(alloc: Global, shelf: &Shelf, roots: &[NodeRef]) -> Result<Listing, AllocError>
    requires { All (IsValid shelf.now) roots.now }
    ensures { IfOk result (IsListing shelf.now roots.now) }
{
    // Only for its clause `shelf`.
    let _ = shelf.count();
    let mut nodes = Vec::new(alloc);
    let mut memo = HashMap::new(alloc);
    let mut stack = Stack::new(alloc);
    let mut listed = Items::from_vec(Vec::with_capacity(alloc, roots.len())?);
    for index in 0..roots.len() {
        listed.push(list_from(shelf, roots, index, &mut stack, &mut nodes, &mut memo)?)?;
    }
    Ok(Listing {
        nodes: Items::from_vec(nodes),
        roots: listed,
    })
}
