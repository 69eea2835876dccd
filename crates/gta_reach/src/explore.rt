//! What steps give is found state after state, so that a long chain of states isn't left to as many rounds over all of
//! them: what is new waits on a stack, each node is gone down once, and each pair of classes of child states is looked at
//! once. What is found here is generated. That nothing is missing is for the rounds to say.

ghost use Rattle.std.specs.Prelude.{◌≡◌, ◌+◌, ◌<◌, ◌≤◌, ℕ, All, IfOk, Some, false, true, length, replicate, slice_get, slice_index, slice_set, vec_len};
ghost use Rattle.bdd_list.specs.declared.listing.Listed.TheVariants.{Inner};
ghost use Rattle.gta_reach.specs.declared.form.Form.{Form};
ghost use Rattle.gta_reach.specs.declared.sides.Side.TheVariants.{Left, Right};
ghost use Rattle.gta_reach.specs.Form.{IsForm};
ghost use Rattle.gta_reach.specs.Reached.{AreGenerated};
ghost use Rattle.gta_reach.specs.Sides.{opposite};
ghost use Rattle.gta_classes.specs.Lists.{list_at};
ghost use Rattle.gta_reach.specs.Exploring.{with_mark, AreClear, IsGeneratedIn, IsGeneratedAt, GivesGenerated, IsWaiting};
ghost use Rattle.gta_reach.specs.Exploring.{AreMet, KeepsNone, AllKeepNone, AreKept, AreSpaces};
ghost use Rattle.gta_reach.specs.Unset.{one_if, unset, unset_in, left_of};

use crate::form::{Form, FormSpace};
use crate::sides::{Side, above, child, kinds_of, listed_of};
use crate::sweep::touch_state;
use bdd_list::Listed;
use gta_classes::{NumberList, add_at, empty_lists, list_of, number_of};
use plain_data::{Items, Stack};
use std::alloc::{AllocError, Global};

/// What is listed in a space, and is to be looked at.
#[derive(Clone, Copy, Debug)]
pub(crate) struct Waiting {
    pub s: usize,
    pub listed: Listed,
}

/// What was met so far.
#[derive(Debug, Drop)]
pub(crate) struct Met {
    /// The states of each space.
    pub states: Vec<Items<bool>>,
    /// The nodes of each space.
    pub nodes: Vec<Items<bool>>,
    /// What of these wasn't looked at yet.
    pub waiting: Stack<Waiting>,
}

/// Child states of a space on a side, one of each class of `kinds_of` that was found.
#[derive(Debug, Drop)]
pub(crate) struct Kept {
    /// The classes that they have.
    pub kinds: Items<bool>,
    pub states: NumberList,
}

/// Marks a number, and says whether it has a mark that wasn't set.
#[inline]
fn mark_new(marks: &mut Items<bool>, number: u32) -> bool
    ensures marks { marks.new ≡ slice_set marks.old number true }
    ensures unchanged { result ≡ false → marks.new ≡ marks.old }
    ensures fewer { unset marks.new + one_if result ≤ unset marks.old }
{
    let mut is_new = false;
    touch_state(marks, &mut is_new, number);
    is_new
}

/// Marks a number in a space, and says whether it has a mark that wasn't set. Past the last space there is none.
#[inline]
fn mark_in(marks: &mut Vec<Items<bool>>, s: usize, number: u32) -> bool
    ensures marks { marks.new.items ≡ with_mark marks.old.items s number }
    ensures fewer { unset_in marks.new.items + one_if result ≤ unset_in marks.old.items }
{
    if s >= marks.len() {
        return false;
    }
    mark_new(&mut marks[s], number)
}

/// What is listed in a space is met. Says whether it is new.
#[inline]
fn mark_listed(met: &mut Met, s: usize, listed: Listed) -> bool
    ensures met { (form : Form) → AreMet form met.old → GivesGenerated form s listed → AreMet form met.new }
    ensures fewer { left_of met.new + one_if result ≤ left_of met.old }
{
    match listed {
        Listed::Leaf(state) => mark_in(&mut met.states, s, state),
        Listed::Inner(index) => mark_in(&mut met.nodes, s, index),
    }
}

/// What is listed in a space is met. If it is new, it waits.
fn meet(met: &mut Met, s: usize, listed: Listed) -> Result<(), AllocError>
    ensures met { IfOk result (λ done. (form : Form) → AreMet form met.old → GivesGenerated form s listed → AreMet form met.new) }
    ensures left { IfOk result (λ done. left_of met.new ≤ left_of met.old) }
{
    if !mark_listed(met, s, listed) {
        return Ok(());
    }
    met.waiting.push(Waiting { s, listed })?;
    Ok(())
}

/// The sides of a node are met.
fn meet_sides(form: &Form, s: usize, index: u32, met: &mut Met) -> Result<(), AllocError>
    requires form { IsForm form.now }
    requires node { GivesGenerated form.now s (Inner index) }
    requires met { AreMet form.now met.old }
    ensures met { IfOk result (λ done. AreMet form.now met.new) }
    ensures left { IfOk result (λ done. left_of met.new ≤ left_of met.old) }
{
    let node = form.space(s).node(index);
    meet(met, s, node.low)?;
    meet(met, s, node.high)?;
    Ok(())
}

/// What a child state has with each of some states of the other child is met.
fn meet_each(
    form: &Form,
    parent: usize,
    side: Side,
    state: u32,
    beside: &[u32],
    met: &mut Met,
) -> Result<(), AllocError>
    requires form { IsForm form.now }
    requires parent { parent < length form.now.spaces }
    requires state { IsGeneratedAt form.now parent side state }
    requires beside { All (IsGeneratedAt form.now parent (opposite side)) beside.now }
    requires met { AreMet form.now met.old }
    ensures met { IfOk result (λ done. AreMet form.now met.new) }
    ensures left { IfOk result (λ done. left_of met.new ≤ left_of met.old) }
{
    let space = form.space(parent);
    for other in beside {
        meet(met, parent, listed_of(space, side, state, *other))?;
    }
    Ok(())
}

/// The number at a place; 0 past the last one.
#[inline]
fn number_at(numbers: &[u32], place: u32) -> u32
    ensures { result ≡ slice_index numbers.now place }
{
    numbers.get(place as usize).copied().unwrap_or(0)
}

/// A child state of a new class is kept, and what it has with those that are kept of the other child is met. A state of a
/// class that was found before has nothing new.
fn pair(
    form: &Form,
    parent: usize,
    side: Side,
    state: u32,
    own: &mut Kept,
    beside: &[u32],
    met: &mut Met,
) -> Result<(), AllocError>
    requires form { IsForm form.now }
    requires parent { parent < length form.now.spaces }
    requires state { IsGeneratedAt form.now parent side state }
    requires own { All (IsGeneratedAt form.now parent side) own.old.states }
    requires beside { All (IsGeneratedAt form.now parent (opposite side)) beside.now }
    requires met { AreMet form.now met.old }
    ensures own { IfOk result (λ done. All (IsGeneratedAt form.now parent side) own.new.states) }
    ensures met { IfOk result (λ done. AreMet form.now met.new) }
    ensures left { IfOk result (λ done. left_of met.new ≤ left_of met.old) }
{
    let kind = number_at(kinds_of(form.space(parent), side), state);
    if !mark_new(&mut own.kinds, kind) {
        return Ok(());
    }
    meet_each(form, parent, side, state, beside, met)?;
    own.states.push(state)?;
    Ok(())
}

/// The child states that are kept in a space.
#[inline]
fn kept_at(kept: &[Kept], s: usize) -> &Kept
    requires { s < length kept.now }
    ensures { slice_get kept.now s ≡ Some result.now }
{
    &kept[s]
}

/// A state of a space was found: it is paired in another space, if it is a child state there on a side.
fn pair_at(
    form: &Form,
    parent: usize,
    side: Side,
    s: usize,
    state: u32,
    own: &mut Vec<Kept>,
    beside: &[Kept],
    met: &mut Met,
) -> Result<(), AllocError>
    requires form { IsForm form.now }
    requires parent { parent < length form.now.spaces }
    requires state { IsGeneratedIn form.now s state }
    requires own { AreKept form.now side own.old.items }
    requires beside { AreKept form.now (opposite side) beside.now }
    requires met { AreMet form.now met.old }
    ensures own { IfOk result (λ done. AreKept form.now side own.new.items) }
    ensures met { IfOk result (λ done. AreMet form.now met.new) }
    ensures left { IfOk result (λ done. left_of met.new ≤ left_of met.old) }
{
    if child(form.space(parent), side) as usize != s {
        return Ok(());
    }
    let others = kept_at(beside, parent).states.as_slice();
    pair(form, parent, side, state, &mut own[parent], others, met)?;
    Ok(())
}

/// A state of a space was found: it is paired in the spaces that have the space as a child.
fn pair_all(
    form: &Form,
    parents: &[u32],
    s: usize,
    state: u32,
    lefts: &mut Vec<Kept>,
    rights: &mut Vec<Kept>,
    met: &mut Met,
) -> Result<(), AllocError>
    requires form { IsForm form.now }
    requires parents { AreSpaces form.now parents.now }
    requires state { IsGeneratedIn form.now s state }
    requires lefts { AreKept form.now Left lefts.old.items }
    requires rights { AreKept form.now Right rights.old.items }
    requires met { AreMet form.now met.old }
    ensures lefts { IfOk result (λ done. AreKept form.now Left lefts.new.items) }
    ensures rights { IfOk result (λ done. AreKept form.now Right rights.new.items) }
    ensures met { IfOk result (λ done. AreMet form.now met.new) }
    ensures left { IfOk result (λ done. left_of met.new ≤ left_of met.old) }
{
    for parent in parents {
        let parent = *parent as usize;
        pair_at(form, parent, Side::Left, s, state, lefts, rights, met)?;
        pair_at(form, parent, Side::Right, s, state, rights, lefts, met)?;
    }
    Ok(())
}

/// What waited is looked at: a state is paired, and of a node the sides are met.
fn look(
    form: &Form,
    parents: &[NumberList],
    next: Waiting,
    lefts: &mut Vec<Kept>,
    rights: &mut Vec<Kept>,
    met: &mut Met,
) -> Result<(), AllocError>
    requires form { IsForm form.now }
    requires parents { (s : ℕ) → AreSpaces form.now (list_at parents.now s) }
    requires next { IsWaiting form.now next }
    requires lefts { AreKept form.now Left lefts.old.items }
    requires rights { AreKept form.now Right rights.old.items }
    requires met { AreMet form.now met.old }
    ensures lefts { IfOk result (λ done. AreKept form.now Left lefts.new.items) }
    ensures rights { IfOk result (λ done. AreKept form.now Right rights.new.items) }
    ensures met { IfOk result (λ done. AreMet form.now met.new) }
    ensures left { IfOk result (λ done. left_of met.new ≤ left_of met.old) }
{
    match next.listed {
        Listed::Leaf(state) => {
            let parents = list_of(parents, next.s);
            pair_all(form, parents, next.s, state, lefts, rights, met)?;
            Ok(())
        }
        Listed::Inner(index) => {
            meet_sides(form, next.s, index, met)?;
            Ok(())
        }
    }
}

/// So many marks, none of them set.
#[inline]
fn unmarked(alloc: Global, many: usize) -> Result<Items<bool>, AllocError>
    ensures { IfOk result (λ marks. marks ≡ replicate many false) }
{
    let marks = vec![in alloc; false; many]?;
    Ok(Items::from_vec(marks))
}

/// A mark for each node of each space, none of them set.
fn unmarked_nodes(alloc: Global, form: &Form) -> Result<Vec<Items<bool>>, AllocError>
    ensures { IfOk result (λ nodes. AreClear nodes.items) }
{
    let mut nodes = Vec::new(alloc);
    for space in form.spaces.as_slice() {
        nodes.push(unmarked(alloc, space.listing.nodes.len())?)?;
    }
    Ok(nodes)
}

/// For each space the spaces that have it as a child.
fn parent_spaces(alloc: Global, form: &Form) -> Result<Vec<NumberList>, AllocError>
    ensures { IfOk result (λ parents. (s : ℕ) → AreSpaces form.now (list_at parents.items s)) }
{
    let mut parents = empty_lists(alloc, form.spaces.len())?;
    for s in 0..form.spaces.len() {
        let parent = number_of(s)?;
        let (left, right) = form.space(s).children;
        add_at(&mut parents, left, parent)?;
        add_at(&mut parents, right, parent)?;
    }
    Ok(parents)
}

/// The initial states wait.
fn initial_waiting(alloc: Global, form: &Form) -> Result<Stack<Waiting>, AllocError>
    ensures { IfOk result (All (IsWaiting form.now)) }
{
    let mut waiting = Stack::new(alloc);
    for s in 0..form.spaces.len() {
        let listed = Listed::Leaf(form.space(s).initial);
        waiting.push(Waiting { s, listed })?;
    }
    Ok(waiting)
}

/// No child state is kept in a space.
fn keep_none(alloc: Global, space: &FormSpace, side: Side) -> Result<Kept, AllocError>
    ensures { IfOk result KeepsNone }
{
    let kinds = unmarked(alloc, above(kinds_of(space, side)))?;
    Ok(Kept {
        kinds,
        states: Items::new(alloc),
    })
}

/// No child state is kept in any space.
fn keep_none_each(alloc: Global, form: &Form, side: Side) -> Result<Vec<Kept>, AllocError>
    ensures many { IfOk result (λ kept. vec_len kept ≡ length form.now.spaces) }
    ensures none { IfOk result (λ kept. AllKeepNone kept.items) }
{
    let mut kept = Vec::new(alloc);
    for s in 0..form.spaces.len() {
        kept.push(keep_none(alloc, form.space(s), side)?)?;
    }
    Ok(kept)
}

/// Adds what comes by steps, one after the other, from the initial states, which are marked already.
pub(crate) fn explore(
    alloc: Global,
    form: &Form,
    states: Vec<Items<bool>>,
) -> Result<Vec<Items<bool>>, AllocError>
    requires form { IsForm form.now }
    requires states { AreGenerated form.now states.items }
    ensures { IfOk result (λ found. AreGenerated form.now found.items) }
{
    let parents = parent_spaces(alloc, form)?;
    let nodes = unmarked_nodes(alloc, form)?;
    let waiting = initial_waiting(alloc, form)?;
    let mut met = Met {
        states,
        nodes,
        waiting,
    };
    let mut lefts = keep_none_each(alloc, form, Side::Left)?;
    let mut rights = keep_none_each(alloc, form, Side::Right)?;
    loop {
        let Some(next) = met.waiting.pop() else {
            return Ok(met.states);
        };
        look(form, &parents, next, &mut lefts, &mut rights, &mut met)?;
    }
}
