//! All trees with up to four nodes over two tracks, by number.
//!
//! A root has the label `number % 4`: no track, track 0, track 1 or both. What is left of the number, `number / 4`, goes over
//! the children's trees, first those with the fewest nodes on the left, and for each the left tree's number runs first.

ghost use Rattle.std.specs.Prelude.{◌≡◌, ◌+◌, ◌<◌, ◌≤◌, ◌++◌, [], ◌∷◌, length, option_map, IfOk, IfSome, OnOk};
ghost use Rattle.gta_core.specs.Auto.{guide_of, IsAuto};
ghost use Rattle.ws2s_core.specs.LabelTrees.{IsTree};
ghost use Rattle.ws2s_theory.specs.Trees.{last_place, moved_on, under_root};

use crate::lines::write_number;
use bdd_nodes::Shelf;
use gta_core::{Auto, accepts};
use plain_data::Items;
use plain_writer::Writer;
use std::alloc::{AllocError, Global};
use ws2s_core::{LabelTree, Track, TrackList, TreeNode, TreeNodeList};
use ws2s_theory::trees_are_joined;

/// How many nodes the left child of a root has, and the numbers of both children's trees.
#[derive(Clone, Copy)]
struct Sides {
    size: u32,
    left: u32,
    right: u32,
}

/// How many trees there are of so many nodes, at most four: a root has one of four labels.
fn trees_of(size: u32) -> u32
    ensures { 0 < result }
{
    match size {
        0 => 1,
        1 => 4,
        2 => 32,
        3 => 320,
        _ => 3584,
    }
}

/// What of this number stands under a root, where its children have so many nodes together.
fn sides_of(size: u32, number: u32) -> Sides
    ensures { result.size ≤ size }
{
    let mut rest = number;
    for left_size in 0..size {
        let lefts = trees_of(left_size);
        let many = lefts.wrapping_mul(trees_of(size - left_size));
        if rest < many {
            return Sides {
                size: left_size,
                left: rest % lefts,
                right: rest / lefts,
            };
        }
        rest -= many;
    }
    Sides {
        size,
        left: rest,
        right: 0,
    }
}

/// The tree of this number among those of so many nodes.
pub(crate) fn tree_of(alloc: Global, size: u32, number: u32) -> Result<TreeNodeList, AllocError>
    requires { size ≤ 4 }
    ensures tree { IfOk result IsTree }
    ensures size { IfOk result (λ nodes. length nodes ≡ size) }
{
    // Only for its clause `tree`.
    trees_are_joined();
    if size == 0 {
        return Ok(Items::new(alloc));
    }
    let rest = size - 1;
    let sides = sides_of(rest, number / 4);
    let left = tree_of(alloc, sides.size, sides.left)?;
    let right = tree_of(alloc, rest - sides.size, sides.right)?;
    joined(alloc, tracks(alloc, number)?, left, right.as_slice())
}

/// The tracks of the label of this number.
fn tracks(alloc: Global, number: u32) -> Result<TrackList, AllocError> {
    match number % 4 {
        0 => Ok(Items::new(alloc)),
        1 => Items::from_slice(alloc, &[Track(0)]),
        2 => Items::from_slice(alloc, &[Track(1)]),
        _ => Items::from_slice(alloc, &[Track(1), Track(0)]),
    }
}

/// The place of the last of so many nodes, of which the first stands at an offset.
fn last_of(offset: u32, many: usize) -> Option<u32>
    requires { offset + many < 4294967296 }
    ensures { result ≡ last_place offset many }
{
    let last = many.checked_sub(1)?;
    Some(offset + last as u32)
}

/// A node whose children stand so many places later.
fn moved(alloc: Global, node: &TreeNode, offset: u32) -> Result<TreeNode, AllocError>
    requires left { IfSome node.now.left (λ child. child + offset < 4294967296) }
    requires right { IfSome node.now.right (λ child. child + offset < 4294967296) }
    ensures { IfOk result (λ moved. moved ≡ moved_on offset node.now) }
{
    Ok(TreeNode {
        tracks: Items::from_slice(alloc, node.tracks.as_slice())?,
        left: moved_place(node.left, offset),
        right: moved_place(node.right, offset),
    })
}

/// Puts a node behind others, its children so many places later.
fn add_moved(
    alloc: Global,
    nodes: &mut TreeNodeList,
    node: &TreeNode,
    offset: u32,
) -> Result<(), AllocError>
    requires left { IfSome node.now.left (λ child. child + offset < 4294967296) }
    requires right { IfSome node.now.right (λ child. child + offset < 4294967296) }
    ensures { OnOk result (nodes.new ≡ nodes.old ++ moved_on offset node.now ∷ []) }
{
    nodes.push(moved(alloc, node, offset)?)
}

/// The place that is so much further on.
fn moved_place(child: Option<u32>, offset: u32) -> Option<u32>
    requires { IfSome child (λ place. place + offset < 4294967296) }
    ensures { result ≡ option_map (λ place. offset + place) child }
{
    match child {
        Some(place) => Some(offset + place),
        None => None,
    }
}

/// The two trees under a root with these tracks.
fn joined(
    alloc: Global,
    tracks: TrackList,
    left: TreeNodeList,
    right: &[TreeNode],
) -> Result<TreeNodeList, AllocError>
    requires few { length left + length right.now < 100 }
    requires tree { IsTree right.now }
    ensures { IfOk result (λ nodes. nodes ≡ under_root tracks left right.now) }
{
    let offset = left.len() as u32;
    let mut nodes = left;
    for node in right {
        add_moved(alloc, &mut nodes, node, offset)?;
    }
    nodes.push(TreeNode {
        tracks,
        left: last_of(0, offset as usize),
        right: last_of(offset, right.len()),
    })?;
    Ok(nodes)
}

/// Whether the tree of this number among those of so many nodes is accepted.
fn is_accepted(
    alloc: Global,
    a: &Auto,
    shelf: &Shelf,
    size: u32,
    number: u32,
) -> Result<bool, AllocError>
    requires auto { IsAuto (guide_of a.now) shelf.now a.now }
    requires few { size ≤ 4 }
{
    let tree = LabelTree::new(tree_of(alloc, size, number)?);
    accepts(alloc, a, shelf, &tree)
}

/// How many trees of so many nodes are accepted, and a sum of their numbers in which the place of each counts.
fn accepted(alloc: Global, a: &Auto, shelf: &Shelf, size: u32) -> Result<(u32, u32), AllocError>
    requires auto { IsAuto (guide_of a.now) shelf.now a.now }
    requires few { size ≤ 4 }
{
    let mut many: u32 = 0;
    let mut sum: u32 = 0;
    for number in 0..trees_of(size) {
        if is_accepted(alloc, a, shelf, size, number)? {
            many = many.wrapping_add(1);
            sum = sum.wrapping_mul(31).wrapping_add(number);
        }
    }
    Ok((many, sum))
}

/// Writes, for each size up to four, how many trees are accepted and the sum of their numbers.
pub(crate) fn write_trees(
    alloc: Global,
    a: &Auto,
    shelf: &Shelf,
    out: &mut Writer,
) -> Result<(), AllocError>
    requires { IsAuto (guide_of a.now) shelf.now a.now }
{
    for size in 0..5 {
        let (many, sum) = accepted(alloc, a, shelf, size)?;
        write_number(out, b" ", many as u64);
        write_number(out, b":", sum as u64);
    }
    Ok(())
}
