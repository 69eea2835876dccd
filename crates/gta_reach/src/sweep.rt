//! What steps of some states give in a space.

ghost use Rattle.std.specs.Prelude.{◌≡◌, ◌+◌, ◌<◌, ◌≤◌, ℕ, Bool, List, false, true, length, slice_set, IfOk, vec_len};
ghost use Rattle.labels.specs.Labels.{Label};
ghost use Rattle.bdd_list.specs.Listing.{AreOrdered};
ghost use Rattle.gta_reach.specs.Form.{step_in, root_in, cell_in};
ghost use Rattle.gta_classes.specs.Chosen.{IsAmong};
ghost use Rattle.gta_reach.specs.Reached.{with_node, with_state, HasRoot, IsSwept, Sweeps, Grown, IsTouched, AreSidesTouched};
ghost use Rattle.gta_reach.specs.Unset.{one_if, unset};

use crate::form::FormSpace;
use bdd_list::Listed;
use gta_classes::mark;
use plain_data::Items;
use std::alloc::{AllocError, Global};

/// What is listed is found: a state, or a node that is to be gone down from. A state that is new is more.
#[inline]
fn touch(nodes: &mut Vec<bool>, states: &mut Items<bool>, is_more: &mut bool, listed: Listed)
    ensures nodes { nodes.new.items ≡ with_node nodes.old.items listed }
    ensures states { states.new ≡ with_state states.old listed }
    ensures unchanged { is_more.new ≡ false → (is_more.old ≡ false) × (states.new ≡ states.old) }
    ensures fewer { unset states.new + one_if is_more.new ≤ unset states.old + one_if is_more.old }
{
    match listed {
        Listed::Leaf(state) => touch_state(states, is_more, state),
        Listed::Inner(index) => mark(nodes, index),
    }
}

/// A state is found.
#[inline]
pub(crate) fn touch_state(states: &mut Items<bool>, is_more: &mut bool, state: u32)
    ensures states { states.new ≡ slice_set states.old state true }
    ensures unchanged { is_more.new ≡ false → (is_more.old ≡ false) × (states.new ≡ states.old) }
    ensures fewer { unset states.new + one_if is_more.new ≤ unset states.old + one_if is_more.old }
{
    if let Some(is_found) = states.get(state as usize).copied() {
        if !is_found {
            states.set(state as usize, true);
            *is_more = true;
        }
    }
}

/// Finds the functions of a left state and some right ones.
fn touch_row(
    space: &FormSpace,
    left: u32,
    rights: &[u32],
    nodes: &mut Vec<bool>,
    states: &mut Items<bool>,
    is_more: &mut bool,
)
    requires { (r : ℕ) → IsAmong rights.now r → HasRoot space.now left r }
    ensures sweeps { (lefts : List ℕ) (before : List Bool) → IsAmong lefts left
        → Sweeps space.now lefts rights.now before nodes.old.items states.old is_more.old
        → Sweeps space.now lefts rights.now before nodes.new.items states.new is_more.new }
    ensures grown { Grown nodes.old.items states.old nodes.new.items states.new }
    ensures touched { (r : ℕ) → IsAmong rights.now r
        → IsTouched nodes.new.items states.new (root_in space.now (cell_in space.now left r)) }
    ensures fewer { unset states.new + one_if is_more.new ≤ unset states.old + one_if is_more.old }
{
    for right in rights {
        touch(nodes, states, is_more, space.listed(left, *right));
    }
}

/// Finds the functions of some left states and some right ones.
fn touch_rows(
    space: &FormSpace,
    lefts: &[u32],
    rights: &[u32],
    nodes: &mut Vec<bool>,
    states: &mut Items<bool>,
    is_more: &mut bool,
)
    requires { (l r : ℕ) → IsAmong lefts.now l → IsAmong rights.now r → HasRoot space.now l r }
    ensures sweeps { (before : List Bool) →
        Sweeps space.now lefts.now rights.now before nodes.old.items states.old is_more.old
        → Sweeps space.now lefts.now rights.now before nodes.new.items states.new is_more.new }
    ensures touched { (l r : ℕ) → IsAmong lefts.now l → IsAmong rights.now r
        → IsTouched nodes.new.items states.new (root_in space.now (cell_in space.now l r)) }
    ensures fewer { unset states.new + one_if is_more.new ≤ unset states.old + one_if is_more.old }
{
    for left in lefts {
        touch_row(space, *left, rights, nodes, states, is_more);
    }
}

/// Finds the sides of the nodes that are found: from the last node on, since sides stand before.
fn touch_sides(
    space: &FormSpace,
    nodes: &mut Vec<bool>,
    states: &mut Items<bool>,
    is_more: &mut bool,
)
    requires ordered { AreOrdered space.now.listing.nodes }
    requires many { vec_len nodes.old ≡ length space.now.listing.nodes }
    ensures sweeps { (lefts rights : List ℕ) (before : List Bool) →
        Sweeps space.now lefts rights before nodes.old.items states.old is_more.old
        → Sweeps space.now lefts rights before nodes.new.items states.new is_more.new }
    ensures grown { Grown nodes.old.items states.old nodes.new.items states.new }
    ensures sides { AreSidesTouched space.now nodes.new.items states.new 0 }
    ensures fewer { unset states.new + one_if is_more.new ≤ unset states.old + one_if is_more.old }
{
    for index in (0..nodes.len()).rev() {
        if nodes[index] {
            let node = space.listing.nodes.as_slice()[index];
            touch(nodes, states, is_more, node.low);
            touch(nodes, states, is_more, node.high);
        }
    }
}

/// Adds what steps of the states give to the reached states, and says whether there is more.
pub(crate) fn sweep(
    alloc: Global,
    space: &FormSpace,
    lefts: &[u32],
    rights: &[u32],
    states: &mut Items<bool>,
) -> Result<bool, AllocError>
    requires ordered { AreOrdered space.now.listing.nodes }
    requires roots { (l r : ℕ) → IsAmong lefts.now l → IsAmong rights.now r → HasRoot space.now l r }
    requires states { (l r : ℕ) (label : Label) → IsAmong lefts.now l → IsAmong rights.now r
        → step_in space.now l r label < length states.old }
    ensures swept { IfOk result (λ more. IsSwept space.now lefts.now rights.now states.old states.new) }
    ensures unchanged { IfOk result (λ more. more ≡ false → states.new ≡ states.old) }
    ensures fewer { IfOk result (λ more. unset states.new + one_if more ≤ unset states.old) }
{
    let mut nodes = vec![in alloc; false; space.listing.nodes.len()]?;
    let mut is_more = false;
    touch_rows(space, lefts, rights, &mut nodes, states, &mut is_more);
    touch_sides(space, &mut nodes, states, &mut is_more);
    Ok(is_more)
}
