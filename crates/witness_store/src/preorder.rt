//! The nodes of a tree in preorder.

ghost use Rattle.std.specs.Prelude.{◌≡◌, ◌++◌, ◌∷◌, [], length, slice_get, IfOk, OnOk, option_to_list};
ghost use Rattle.std.specs.Option.{option_copied};
ghost use Rattle.ws2s_core.specs.LabelTrees.{IsTree};
ghost use Rattle.ws2s_theory.specs.Trees.{last_place};
ghost use Rattle.witness_store.specs.Orders.{preorder_of, children_last_first, roots_of};

use std::alloc::{AllocError, Global};
use ws2s_core::{LabelTree, TreeNode};

/// The node at a place.
pub(crate) fn node_at(nodes: &[TreeNode], place: u32) -> Option<&TreeNode>
    ensures { option_copied result ≡ slice_get nodes.now place }
{
    nodes.get(place as usize)
}

/// Puts a child on the places that wait, if there is one.
fn push_child(waiting: &mut Vec<u32>, child: Option<u32>) -> Result<(), AllocError>
    ensures { OnOk result (waiting.new.items ≡ waiting.old.items ++ option_to_list child) }
{
    if let Some(place) = child {
        waiting.push(place)?;
    }
    Ok(())
}

/// Puts the children of the node at a place on the places that wait, the left one last, so that it is next.
fn push_children(waiting: &mut Vec<u32>, nodes: &[TreeNode], place: u32) -> Result<(), AllocError>
    ensures { OnOk result (waiting.new.items ≡ waiting.old.items ++ children_last_first (slice_get nodes.now place)) }
{
    if let Some(node) = node_at(nodes, place) {
        push_child(waiting, node.right)?;
        push_child(waiting, node.left)?;
    }
    Ok(())
}

/// The root's place, if there is a node.
pub(crate) fn root_place(nodes: &[TreeNode]) -> Option<u32>
    requires { IsTree nodes.now }
    ensures { result ≡ last_place 0 (length nodes.now) }
{
    if nodes.is_empty() {
        None
    } else {
        Some((nodes.len() - 1) as u32)
    }
}

/// The list of the root's place, if there is a node.
fn root_of(alloc: Global, nodes: &[TreeNode]) -> Result<Vec<u32>, AllocError>
    requires { IsTree nodes.now }
    ensures { IfOk result (λ waiting. waiting.items ≡ roots_of nodes.now) }
{
    let mut waiting = Vec::new(alloc);
    if !nodes.is_empty() {
        waiting.push((nodes.len() - 1) as u32)?;
    }
    Ok(waiting)
}

/// The places of the nodes in preorder: a node before those below it, and what is below its left before what is below its
/// right.
pub(crate) fn preorder(alloc: Global, tree: &LabelTree) -> Result<Vec<u32>, AllocError>
    ensures { IfOk result (λ places. places.items ≡ preorder_of tree.now) }
{
    let nodes = tree.nodes();
    let mut waiting = root_of(alloc, nodes)?;
    let mut places = Vec::new(alloc);
    while let Some(place) = waiting.pop() {
        places.push(place)?;
        push_children(&mut waiting, nodes, place)?;
    }
    Ok(places)
}
