//! The child states whose steps give states of a class.

ghost use Rattle.std.specs.Prelude.{◌≡◌, ◌<◌, ℕ, Contains, Some, true, length, map, slice_get, flat_map, IfOk};
ghost use Rattle.bdd_list.specs.declared.listing.Listed.TheVariants.{Inner, Leaf};
ghost use Rattle.bdd_list.specs.Listing.{AreOrdered};
ghost use Rattle.gta_reach.specs.declared.form.FormSpace.{FormSpace};
ghost use Rattle.gta_classes.specs.Chosen as marks_of;
ghost use Rattle.gta_reach.specs.Form.{IsForm};
ghost use Rattle.gta_refine.specs.Refined.{part_at, ArePartition};
ghost use Rattle.gta_refine.specs.Uses.{above_of, AreAbove, HasSide, IsUses};
ghost use Rattle.gta_classes.specs.Cuts.{Covers};
ghost use Rattle.gta_classes.specs.Marks.{IsClear};
ghost use Rattle.gta_refine.specs.Givers.{AddsNodes, AreClimbed, AreMembers, AreGivers};

use crate::rounds::{part_of, spread};
use crate::scratch::Scratch;
use crate::uses::{Above, SpaceUses};
use bdd_list::{Listed, ListedNode};
use gta_classes::{
    NumberList, SpaceClasses, add_members, distinct, gather, is_marked, mark, numbers_at, unmark,
};
use gta_reach::{Form, Side, kinds_of};
use std::alloc::{AllocError, Global};

/// The reached states of a class.
fn members(
    alloc: Global,
    lists: &[NumberList],
    part: &SpaceClasses,
    class: u32,
) -> Result<Vec<u32>, AllocError>
    requires many { length part.now.classes ≡ length part.now.reached }
    requires covers { Covers part.now lists.now }
    ensures { IfOk result (λ members. AreMembers part.now class members.items) }
{
    let mut members = Vec::new(alloc);
    add_members(numbers_at(lists, class), part, class, &mut members)?;
    Ok(members)
}

/// A leaf for each state.
fn leaves(alloc: Global, states: &[u32]) -> Result<Vec<Listed>, AllocError>
    ensures { IfOk result (λ leaves. leaves.items ≡ map (λ state. Leaf state) states.now) }
{
    let mut leaves = Vec::new(alloc);
    for state in states {
        leaves.push(Listed::Leaf(*state))?;
    }
    Ok(leaves)
}

/// Adds nodes that aren't found yet.
fn add_nodes(nodes: &[u32], found: &mut Vec<bool>, list: &mut Vec<Listed>) -> Result<(), AllocError>
    ensures { IfOk result (λ done. AddsNodes nodes.now found.old.items list.old.items found.new.items list.new.items) }
{
    for node in nodes {
        if !is_marked(found, *node) {
            mark(found, *node);
            list.push(Listed::Inner(*node))?;
        }
    }
    Ok(())
}

/// Takes the marks of nodes away.
fn unmark_nodes(marks: &mut Vec<bool>, list: &[Listed])
    ensures { (i : ℕ) → marks_of.is_marked marks.new.items i ≡ true → (marks_of.is_marked marks.old.items i ≡ true) × (Contains list.now (Inner i) → ⊥) }
{
    for listed in list {
        match *listed {
            Listed::Leaf(_state) => {}
            Listed::Inner(index) => unmark(marks, index),
        }
    }
}

/// What is listed and gives one of the states for some label.
fn climb(
    alloc: Global,
    nodes: &[ListedNode],
    parents: &Above,
    states: &[u32],
    found: &mut Vec<bool>,
) -> Result<Vec<Listed>, AllocError>
    requires clear { IsClear found.old.items }
    requires ordered { AreOrdered nodes.now }
    requires parents { AreAbove (HasSide nodes.now) parents.now.leaves parents.now.nodes }
    requires states { (q : ℕ) → Contains states.now q → q < length parents.now.leaves }
    requires nodes { length parents.now.nodes ≡ length nodes.now }
    ensures climbed { IfOk result (λ list. AreClimbed nodes.now states.now list.items) }
    ensures clear { IfOk result (λ list. IsClear found.new.items) }
{
    let mut list = leaves(alloc, states)?;
    let mut at = 0;
    while at < list.len() {
        add_nodes(parents.of(list[at]), found, &mut list)?;
        at += 1;
    }
    unmark_nodes(found, &list);
    Ok(list)
}

/// The numbers of what has what is listed.
fn gather_above(alloc: Global, above: &Above, list: &[Listed]) -> Result<Vec<u32>, AllocError>
    ensures { IfOk result (λ all. all.items ≡ flat_map (above_of above.now.leaves above.now.nodes) list.now) }
{
    let mut all = Vec::new(alloc);
    for listed in list {
        all.extend_from_slice(above.of(*listed))?;
    }
    Ok(all)
}

/// The child states on a side that give a state of a class, with some state beside them and some label.
pub(crate) fn givers(
    alloc: Global,
    form: &Form,
    uses: &SpaceUses,
    s: usize,
    side: Side,
    class: u32,
    spaces: &[SpaceClasses],
    lists: &[NumberList],
    scratch: &mut Scratch,
) -> Result<Vec<u32>, AllocError>
    requires seen { IsClear scratch.old.seen.items }
    requires found { IsClear scratch.old.found.items }
    requires form { IsForm form.now }
    requires space { s < length form.now.spaces }
    requires partition { ArePartition form.now spaces.now }
    requires uses { (space : FormSpace) → slice_get form.now.spaces s ≡ Some space → IsUses form.now s space uses.now }
    requires covers { Covers (part_at spaces.now s) lists.now }
    ensures givers { IfOk result (λ givers. AreGivers form.now spaces.now s side class givers.items) }
    ensures seen { IfOk result (λ givers. IsClear scratch.new.seen.items) }
    ensures found { IfOk result (λ givers. IsClear scratch.new.found.items) }
    ensures ids { IfOk result (λ givers. scratch.new.ids ≡ scratch.old.ids) }
{
    let space = form.space(s);
    let states = members(alloc, lists, part_of(spaces, s), class)?;
    let list = climb(
        alloc,
        space.listing.nodes.as_slice(),
        &uses.parents,
        &states,
        &mut scratch.found,
    )?;
    let roots = gather_above(alloc, &uses.roots, &list)?;
    let side_uses = uses.side(side);
    let owners = gather(alloc, side_uses.owners.as_slice(), &roots)?;
    let kinds = kinds_of(space, side);
    let once = distinct(alloc, &owners, &mut scratch.seen)?;
    let owner_kinds = spread(alloc, &once, kinds)?;
    let givers = gather(alloc, side_uses.likes.as_slice(), &owner_kinds)?;
    Ok(givers)
}
