//! The nodes of the result.

ghost use Rattle.std.specs.Prelude.{◌≡◌, ◌<◌, ◌^◌, ◌++◌, ◌∷◌, [], ℕ, List, Err, All, length, vec_len, IfOk, OnErr};
ghost use Rattle.bdd_nodes.specs.Shelf.{IsShelf};
ghost use Rattle.bdd_list.specs.Listing.{IsIn, AreOrdered};
ghost use Rattle.gta_room.specs.Progress.{Adds, IsStuck};
ghost use Rattle.gta_minimise.specs.Marked.{AreSidesMarked};
ghost use Rattle.gta_minimise.specs.Renamed.{IsRenamed, IsUnderRenamed, AreMade, AreRenamed};

use crate::marks::mark_under;
use bdd_list::{Listed, ListedNode};
use bdd_nodes::{Full, NodeRef, RefList, Shelf};
use bdd_walk::Stop;
use gta_reach::FormSpace;
use gta_refine::{reference, references};
use std::alloc::Global;

/// The node at an index, if it is marked, with states replaced by their classes, over the references for the nodes before
/// it.
fn make_node(
    shelf: &mut Shelf,
    nodes: &[ListedNode],
    marks: &[bool],
    index: usize,
    classes: &[u32],
    refs: &[NodeRef],
) -> Result<NodeRef, Full>
    requires shelf { IsShelf shelf.old }
    requires ordered { AreOrdered nodes.now }
    requires classes { All (λ class. class < 2 ^ 31) classes.now }
    requires inside { index < length nodes.now }
    requires marks { length marks.now ≡ length nodes.now }
    requires sides { AreSidesMarked nodes.now marks.now }
    requires many { length refs.now ≡ index }
    requires before { AreMade shelf.old classes.now nodes.now marks.now refs.now }
    ensures made { IfOk result (λ made. AreMade shelf.new classes.now nodes.now marks.now (refs.now ++ made ∷ [])) }
    ensures adds { Adds (IsRenamed classes.now nodes.now marks.now) shelf.old shelf.new }
    ensures stuck { OnErr result (IsStuck (IsRenamed classes.now nodes.now marks.now) shelf.new) }
{
    if !marks[index] {
        return Ok(Shelf::leaf(0));
    }
    let node = nodes[index];
    let low = reference(refs, classes, node.low);
    let high = reference(refs, classes, node.high);
    shelf.make(node.track, low, high)
}

/// The marked nodes, with states replaced by their classes: a reference for each node, which says nothing at the others.
fn make_nodes(
    alloc: Global,
    shelf: &mut Shelf,
    nodes: &[ListedNode],
    marks: &[bool],
    classes: &[u32],
) -> Result<Vec<NodeRef>, Stop>
    requires shelf { IsShelf shelf.old }
    requires ordered { AreOrdered nodes.now }
    requires classes { All (λ class. class < 2 ^ 31) classes.now }
    requires marks { length marks.now ≡ length nodes.now }
    requires sides { AreSidesMarked nodes.now marks.now }
    ensures many { IfOk result (λ refs. vec_len refs ≡ length marks.now) }
    ensures made { IfOk result (λ refs. AreMade shelf.new classes.now nodes.now marks.now refs.items) }
    ensures adds { Adds (IsRenamed classes.now nodes.now marks.now) shelf.old shelf.new }
    ensures stuck { result ≡ Err Stop.Limit → IsStuck (IsRenamed classes.now nodes.now marks.now) shelf.new }
{
    let mut refs = Vec::with_capacity(alloc, marks.len())?;
    for index in 0..marks.len() {
        let made = make_node(shelf, nodes, marks, index, classes, &refs)?;
        refs.push(made)?;
    }
    Ok(refs)
}

/// What is listed of a space, with states replaced by their classes: of its nodes only those are made that are under it.
pub(crate) fn rename_listed(
    alloc: Global,
    shelf: &mut Shelf,
    space: &FormSpace,
    roots: &[Listed],
    classes: &[u32],
) -> Result<RefList, Stop>
    requires shelf { IsShelf shelf.old }
    requires ordered { AreOrdered space.now.listing.nodes }
    requires inside { All (IsIn space.now.listing.nodes) roots.now }
    requires classes { All (λ class. class < 2 ^ 31) classes.now }
    ensures renamed { IfOk result (AreRenamed shelf.new classes.now space.now.listing.nodes roots.now) }
    ensures adds { Adds (IsUnderRenamed classes.now space.now.listing.nodes roots.now) shelf.old shelf.new }
    ensures stuck { result ≡ Err Stop.Limit → IsStuck (IsUnderRenamed classes.now space.now.listing.nodes roots.now) shelf.new }
{
    let marks = mark_under(alloc, space, roots)?;
    let nodes = space.listing.nodes.as_slice();
    let refs = make_nodes(alloc, shelf, nodes, &marks, classes)?;
    let renamed = references(alloc, &refs, classes, roots)?;
    Ok(renamed)
}
