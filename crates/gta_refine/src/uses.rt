//! Who uses what in a space: which nodes and roots have what is listed, and which child states have a root.

ghost use Rattle.std.specs.Prelude.{◌≡◌, ◌<◌, ◌≤◌, ℕ, Contains, Some, length, slice_get, vec_len, IfOk};
ghost use Rattle.gta_reach.specs.declared.form.FormSpace.{FormSpace};
ghost use Rattle.gta_reach.specs.Form.{IsForm};
ghost use Rattle.gta_refine.specs.Refined.{ArePartition};
ghost use Rattle.gta_reach.specs.Sides.{HasRootAt};
ghost use Rattle.gta_refine.specs.Uses.{above_of, IsAddedAbove, AreAbove, HasSide, IsRoot, side_of};
ghost use Rattle.gta_refine.specs.Uses.{AddsOwner, AreOwners, AreLikes, AreSideUses, IsUses, AreUses};

use crate::rounds::{choose_of, other, part_of};
use bdd_list::{Listed, ListedNode};
use gta_classes::{
    NumberList, NumberLists, SpaceClasses, add_at, empty_lists, number_of, numbers_at,
};
use gta_reach::{Form, FormSpace, Side, above, cell_of, child, kinds_of};
use plain_data::Items;
use std::alloc::{AllocError, Global};

/// For each leaf and each node numbers of what has it.
#[derive(Debug, Drop)]
pub(crate) struct Above {
    pub leaves: NumberLists,
    pub nodes: NumberLists,
}

/// The child states on one side.
#[derive(Debug, Drop)]
pub(crate) struct SideUses {
    /// For each root child states that have it with a state beside them: one of each class of `kinds_of` is enough.
    pub owners: NumberLists,
    /// For each class of `kinds_of` the reached states that have it.
    pub likes: NumberLists,
    /// Whether one state owns all: then all reached states on the side give the same.
    pub is_single: bool,
}

/// Who uses what in a space.
#[derive(Debug, Drop)]
pub(crate) struct SpaceUses {
    /// The nodes that have a side.
    pub parents: Above,
    /// The roots where something is listed.
    pub roots: Above,
    pub left: SideUses,
    pub right: SideUses,
}

impl SpaceUses {
    /// The child states on a side.
    #[inline]
    pub(crate) fn side(&self, side: Side) -> &SideUses
        ensures { result.now ≡ side_of self.now side }
    {
        match side {
            Side::Left => &self.left,
            Side::Right => &self.right,
        }
    }
}

impl Above {
    /// The numbers of what has what is listed.
    #[inline]
    pub(crate) fn of(&self, listed: Listed) -> &[u32]
        ensures { result.now ≡ above_of self.now.leaves self.now.nodes listed }
    {
        match listed {
            Listed::Leaf(state) => numbers_at(self.leaves.as_slice(), state),
            Listed::Inner(index) => numbers_at(self.nodes.as_slice(), index),
        }
    }
}

/// Adds a number to those of what is listed.
fn add_above(
    leaves: &mut Vec<NumberList>,
    nodes: &mut Vec<NumberList>,
    listed: Listed,
    number: u32,
) -> Result<(), AllocError>
    ensures { IfOk result (λ done. IsAddedAbove leaves.old.items nodes.old.items listed number leaves.new.items nodes.new.items) }
{
    match listed {
        Listed::Leaf(state) => add_at(leaves, state, number),
        Listed::Inner(index) => add_at(nodes, index, number),
    }
}

/// The nodes that have a side.
fn parents_of(alloc: Global, nodes: &[ListedNode], states: usize) -> Result<Above, AllocError>
    ensures above { IfOk result (λ above. AreAbove (HasSide nodes.now) above.leaves above.nodes) }
    ensures leaves { IfOk result (λ above. length above.leaves ≡ states) }
    ensures nodes { IfOk result (λ above. length above.nodes ≡ length nodes.now) }
{
    let mut leaf_lists = empty_lists(alloc, states)?;
    let mut node_lists = empty_lists(alloc, nodes.len())?;
    for index in 0..nodes.len() {
        let node = nodes[index];
        let number = number_of(index)?;
        add_above(&mut leaf_lists, &mut node_lists, node.low, number)?;
        add_above(&mut leaf_lists, &mut node_lists, node.high, number)?;
    }
    Ok(Above {
        leaves: Items::from_vec(leaf_lists),
        nodes: Items::from_vec(node_lists),
    })
}

/// The roots where something is listed.
fn roots_of(
    alloc: Global,
    roots: &[Listed],
    states: usize,
    nodes: usize,
) -> Result<Above, AllocError>
    ensures above { IfOk result (λ above. AreAbove (IsRoot roots.now) above.leaves above.nodes) }
    ensures leaves { IfOk result (λ above. length above.leaves ≡ states) }
    ensures nodes { IfOk result (λ above. length above.nodes ≡ nodes) }
{
    let mut leaf_lists = empty_lists(alloc, states)?;
    let mut node_lists = empty_lists(alloc, nodes)?;
    for index in 0..roots.len() {
        let number = number_of(index)?;
        add_above(&mut leaf_lists, &mut node_lists, roots[index], number)?;
    }
    Ok(Above {
        leaves: Items::from_vec(leaf_lists),
        nodes: Items::from_vec(node_lists),
    })
}

/// Adds a child state to the owners of each of its roots.
fn add_owner(
    space: &FormSpace,
    side: Side,
    own: u32,
    beside: &[u32],
    owners: &mut Vec<NumberList>,
) -> Result<(), AllocError>
    requires roots { (other : ℕ) → Contains beside.now other → HasRootAt space.now side own other }
    requires many { vec_len owners.old ≡ length space.now.listing.roots }
    ensures { IfOk result (λ done. AddsOwner space.now side own beside.now owners.old.items owners.new.items) }
{
    for state in beside {
        let root = number_of(cell_of(space, side, own, *state))?;
        add_at(owners, root, own)?;
    }
    Ok(())
}

/// For each root the child states that have it.
fn owners_of(
    alloc: Global,
    space: &FormSpace,
    side: Side,
    own: &[u32],
    beside: &[u32],
) -> Result<NumberLists, AllocError>
    requires { (state other : ℕ) → Contains own.now state → Contains beside.now other → HasRootAt space.now side state other }
    ensures { IfOk result (λ owners. AreOwners space.now side own.now beside.now owners) }
{
    let mut owners = empty_lists(alloc, space.listing.roots.len())?;
    for state in own {
        add_owner(space, side, *state, beside, &mut owners)?;
    }
    Ok(Items::from_vec(owners))
}

/// For each class of states the reached ones.
pub(crate) fn likes_of(
    alloc: Global,
    kinds: &[u32],
    reached: &[bool],
) -> Result<NumberLists, AllocError>
    requires { length reached.now ≤ length kinds.now }
    ensures { IfOk result (λ likes. AreLikes kinds.now reached.now likes) }
{
    let mut likes = empty_lists(alloc, above(kinds))?;
    for state in 0..reached.len() {
        if reached[state] {
            add_at(&mut likes, kinds[state], number_of(state)?)?;
        }
    }
    Ok(Items::from_vec(likes))
}

/// The child states on a side.
fn side_uses(
    alloc: Global,
    form: &Form,
    s: usize,
    side: Side,
    spaces: &[SpaceClasses],
) -> Result<SideUses, AllocError>
    requires form { IsForm form.now }
    requires space { s < length form.now.spaces }
    requires partition { ArePartition form.now spaces.now }
    ensures { (space : FormSpace) → slice_get form.now.spaces s ≡ Some space → IfOk result (AreSideUses form.now s space side) }
{
    let space = form.space(s);
    let own = choose_of(alloc, space, side, spaces)?;
    let beside = choose_of(alloc, space, other(side), spaces)?;
    let reached = part_of(spaces, child(space, side) as usize)
        .reached
        .as_slice();
    Ok(SideUses {
        owners: owners_of(alloc, space, side, &own, &beside)?,
        likes: likes_of(alloc, kinds_of(space, side), reached)?,
        is_single: own.len() < 2,
    })
}

/// Who uses what in a space.
fn space_uses(
    alloc: Global,
    form: &Form,
    s: usize,
    spaces: &[SpaceClasses],
) -> Result<SpaceUses, AllocError>
    requires form { IsForm form.now }
    requires space { s < length form.now.spaces }
    requires partition { ArePartition form.now spaces.now }
    ensures { (space : FormSpace) → slice_get form.now.spaces s ≡ Some space → IfOk result (IsUses form.now s space) }
{
    let space = form.space(s);
    let nodes = space.listing.nodes.as_slice();
    let states = part_of(spaces, s).reached.len();
    Ok(SpaceUses {
        parents: parents_of(alloc, nodes, states)?,
        roots: roots_of(alloc, space.listing.roots.as_slice(), states, nodes.len())?,
        left: side_uses(alloc, form, s, Side::Left, spaces)?,
        right: side_uses(alloc, form, s, Side::Right, spaces)?,
    })
}

/// Who uses what in each space.
pub(crate) fn uses_of(
    alloc: Global,
    form: &Form,
    spaces: &[SpaceClasses],
) -> Result<Vec<SpaceUses>, AllocError>
    requires form { IsForm form.now }
    requires partition { ArePartition form.now spaces.now }
    ensures { IfOk result (λ uses. AreUses form.now uses.items) }
{
    let mut uses = Vec::new(alloc);
    for s in 0..form.spaces.len() {
        uses.push(space_uses(alloc, form, s, spaces)?)?;
    }
    Ok(uses)
}
