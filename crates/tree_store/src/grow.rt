//! The tree of a store from the root down, and turned about.

ghost use Rattle.std.specs.Prelude.{◌≡◌, ◌++◌, ◌-◌, ◌<◌, List, [], ◌∷◌, length, map, reverse, slice_get, option_to_list, IfOk, OnOk, Some, None, option_map};
ghost use Rattle.tree_store.specs.Rows.{IsRows};
ghost use Rattle.tree_store.specs.Growing.{IsGrown, turned_node};
ghost use Rattle.tree_store.specs.Spots.{spot_below};
ghost use Rattle.tree_store.specs.declared.spots.Spot.{Spot};

use crate::rows::Rows;
use crate::spots::{Spot, cell_below, spot_after};
use crate::tracks::label_of;
use plain_data::Items;
use std::alloc::{AllocError, Global};
use store_core::Store;
use tree_encode::Layout;
use ws2s_core::TreeNode;

/// Puts the spot, if there is one, behind the others, and gives its place.
fn push_spot(spots: &mut Items<Spot>, spot: Option<Spot>) -> Result<Option<u32>, AllocError>
    requires { length spots.old < 4294967295 }
    ensures spots { OnOk result (spots.new ≡ spots.old ++ option_to_list spot) }
    ensures few { OnOk result (length spots.new < 4294967295) }
    ensures place { IfOk result (λ place. place ≡ option_map (λ s. length spots.old) spot) }
{
    let Some(spot) = spot else {
        return Ok(None);
    };
    let place = spots.len() as u32;
    if place == 4294967294 {
        return Err(AllocError);
    }
    spots.push(spot)?;
    Ok(Some(place))
}

/// The spot at the 0-child of a spot: the first child of its cell.
fn spot_below(rows: &Rows, store: &Store, spot: Spot) -> Option<Spot>
    ensures { result ≡ spot_below rows.now store.now spot }
{
    let cell = cell_below(rows, store, spot)?;
    Some(Spot::Child(cell, 0))
}

/// The nodes of the tree of a store, each parent before its children.
pub(crate) fn grown(
    alloc: Global,
    l: &Layout<'_>,
    rows: &Rows,
    store: &Store,
) -> Result<Items<TreeNode>, AllocError>
    requires { IsRows l.now.types l.now.vars rows.now }
    ensures { IfOk result (λ nodes. (spots : List Spot) × (length nodes ≡ length spots) × IsGrown l.now.types l.now.vars store.now rows.now spots nodes) }
{
    let mut spots = Items::new(alloc);
    spots.push(Spot::Slot(0))?;
    let mut nodes = Items::new(alloc);
    while let Some(spot) = spots.get(nodes.len()) {
        let spot = *spot;
        let tracks = label_of(alloc, l, rows, store, spot)?;
        let left = push_spot(&mut spots, spot_below(rows, store, spot))?;
        let right = push_spot(&mut spots, spot_after(rows, store, spot))?;
        nodes.push(TreeNode {
            tracks,
            left,
            right,
        })?;
    }
    Ok(nodes)
}

/// The node with its children's places counted from the other end.
fn turned_node(node: TreeNode, last: u32) -> TreeNode
    ensures { result ≡ turned_node last node }
{
    TreeNode {
        tracks: node.tracks,
        left: node.left.map(|place| last.saturating_sub(place)),
        right: node.right.map(|place| last.saturating_sub(place)),
    }
}

/// The nodes in the opposite order, each child before its parents.
pub(crate) fn turned(alloc: Global, nodes: Items<TreeNode>) -> Result<Items<TreeNode>, AllocError>
    requires { length nodes < 4294967295 }
    ensures { IfOk result (λ turned. turned ≡ map (turned_node (length nodes - 1)) (reverse nodes)) }
{
    let last = nodes.len().saturating_sub(1) as u32;
    let mut left = nodes;
    let mut turned = Items::new(alloc);
    while let Some(node) = left.pop() {
        turned.push(turned_node(node, last))?;
    }
    Ok(turned)
}
