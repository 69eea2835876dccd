//! The steps of a collection: marking what is kept, and moving it to the front.

ghost use Rattle.std.specs.Prelude.{◌≡◌, ◌+◌, ◌<◌, ◌≤◌, ◌^◌, ℕ, All, length, map, slice_index};
ghost use Rattle.bdd_nodes.specs.Nodes.{node_of, rank, AreCanonical};
ghost use Rattle.bdd_nodes.specs.Collecting.{with_mark, marked_below, linked, linked_table, all_roots, IsLinked, AreClosed, MarksList, MarksSides, MovesBelow};

use crate::node::Node;
use crate::node_ref::{Named, NodeRef};
use crate::roots::{RefList, RootTable};

/// Sets every number to 0.
pub(crate) fn clear(numbers: &mut [u32])
    ensures zero { (i : ℕ) → slice_index numbers.new i ≡ 0 }
    ensures len { length numbers.new ≡ length numbers.old }
{
    for number in numbers.iter_mut() {
        *number = 0;
    }
}

#[inline(always)]
fn mark(marks: &mut [u32], r: NodeRef)
    requires { rank (node_of r) ≤ length marks.old }
    ensures { marks.new ≡ with_mark marks.old (node_of r) }
{
    if let Named::Inner(index) = r.named() {
        marks[index as usize] = 1;
    }
}

fn mark_list(roots: &[NodeRef], marks: &mut [u32])
    requires { All (λ r. rank (node_of r) ≤ length marks.old) roots.now }
    ensures { MarksList roots.now marks.old marks.new }
{
    for root in roots {
        mark(marks, *root);
    }
}

/// Marks the roots of the tables.
pub(crate) fn mark_tables(tables: &[RootTable], marks: &mut [u32])
    requires { All (λ r. rank (node_of r) ≤ length marks.old) (all_roots tables.now) }
    ensures { MarksList (all_roots tables.now) marks.old marks.new }
{
    for table in tables {
        mark_list(table.roots.as_slice(), marks);
    }
}

/// Marks what is reached from marked nodes: from the last node on, since sides stand before.
pub(crate) fn mark_sides(nodes: &[Node], marks: &mut [u32])
    requires canonical { AreCanonical nodes.now }
    requires fits { length nodes.now ≤ length marks.old }
    ensures { MarksSides nodes.now marks.old marks.new 0 }
{
    for index in (0..nodes.len()).rev() {
        if marks[index] == 1 {
            let node = nodes[index];
            mark(marks, node.low);
            mark(marks, node.high);
        }
    }
}

/// The reference by the links of the nodes that moved.
#[inline(always)]
fn linked(links: &[u32], r: NodeRef) -> NodeRef
    requires { IsLinked links.now (node_of r) }
    ensures { result ≡ linked links.now r }
{
    match r.named() {
        Named::Leaf(_) => r,
        Named::Inner(index) => NodeRef::inner(links[index as usize] - 1),
    }
}

/// Moves the marked nodes to the front, puts links in index of their marks, and counts them.
pub(crate) fn move_nodes(nodes: &mut [Node], marks: &mut [u32]) -> usize
    requires canonical { AreCanonical nodes.old }
    requires closed { AreClosed nodes.old marks.old }
    requires fits { length nodes.old ≤ length marks.old }
    requires small { length nodes.old < 2 ^ 31 }
    ensures count { result ≡ marked_below marks.old (length nodes.old) }
    ensures moved { MovesBelow nodes.old marks.old nodes.new marks.new (length nodes.old) }
{
    let mut kept = 0;
    for index in 0..nodes.len() {
        if marks[index] == 1 {
            let node = nodes[index];
            nodes[kept] = Node {
                track: node.track,
                low: linked(marks, node.low),
                high: linked(marks, node.high),
            };
            kept += 1;
            marks[index] = kept as u32;
        }
    }
    kept
}

fn move_list(roots: &mut RefList, links: &[u32])
    requires { All (λ r. IsLinked links.now (node_of r)) roots.old }
    ensures { roots.new ≡ map (linked links.now) roots.old }
{
    for index in 0..roots.len() {
        let root = roots.as_slice()[index];
        roots.set(index, linked(links, root));
    }
}

/// Replaces the roots of the tables by the links.
pub(crate) fn move_tables(tables: &mut [RootTable], links: &[u32])
    requires { All (λ r. IsLinked links.now (node_of r)) (all_roots tables.old) }
    ensures { tables.new ≡ map (linked_table links.now) tables.old }
{
    for at in 0..tables.len() {
        let table = &mut tables[at];
        move_list(&mut table.roots, links);
    }
}
