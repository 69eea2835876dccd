//! The initial sets: in each space the states that labels with at most the dropped track give.

ghost use Rattle.std.specs.Prelude.{◌≡◌, ◌≢◌, ◌<◌, ◌++◌, ℕ, [], ◌∷◌, length, map, Contains, IsSome, IfOk, OnOk, IsTrue, IsFalse, All};
ghost use Rattle.labels.specs.Labels.{empty_label, with_track};
ghost use Rattle.bdd_nodes.specs.Shelf.{IsValid, state_of, label_of};
ghost use Rattle.bdd_walk.specs.Asked.{leaves_of};
ghost use Rattle.gta_theory.specs.Guides.{IsGuide, IsSpace};
ghost use Rattle.gta_core.specs.Auto.{states_of, initial_of, root_at, automaton_of, IsAuto};
ghost use Rattle.gta_subsets.specs.Subsets.{AreInitial};
ghost use Rattle.gta_subsets.specs.Roots.{IsTableOf, AreRoots};
ghost use Rattle.gta_subsets.specs.Closing.{set_at, IsNext, AreNext, AreSettled};

use crate::roots::{make_distinct, roots_at};
use crate::shorts::{classes_in, one_a_class};
use bdd_nodes::{Label, NodeRef, Shelf};
use bdd_walk::{NoMemory, StateList, set_of};
use gta_core::Auto;
use plain_data::Items;
use std::alloc::Global;
use ws2s_core::Guide;

/// The initial set of each space, which grow from empty sets until they are the same once more.
pub fn initial_sets(
    alloc: Global,
    g: &Guide,
    a: &Auto,
    table: &[NodeRef],
    track: u32,
    shelf: &Shelf,
) -> Result<Items<StateList>, NoMemory>
    requires auto { IsAuto g.now shelf.now a.now }
    requires table { IsTableOf shelf.now a.now table.now }
    ensures { IfOk result (AreInitial g.now (automaton_of shelf.now a.now) track) }
{
    let mut sets = Items::new(alloc);
    loop {
        let next = next_sets(alloc, g, a, table, track, shelf, sets.as_slice())?;
        if are_same(next.as_slice(), sets.as_slice()) {
            return Ok(next);
        }
        sets = next;
    }
}

/// Whether all sets are the same.
fn are_same(one: &[StateList], other: &[StateList]) -> bool
    ensures same { IsTrue result → one.now ≡ other.now }
    ensures apart { IsFalse result → one.now ≢ other.now }
{
    if one.len() != other.len() {
        return false;
    }
    for place in 0..one.len() {
        if !is_same(one[place].as_slice(), other[place].as_slice()) {
            return false;
        }
    }
    true
}

/// Whether the two sets are the same.
fn is_same(one: &[u32], other: &[u32]) -> bool
    ensures same { IsTrue result → one.now ≡ other.now }
    ensures apart { IsFalse result → one.now ≢ other.now }
{
    one == other
}

/// The next set of each space.
fn next_sets(
    alloc: Global,
    g: &Guide,
    a: &Auto,
    table: &[NodeRef],
    track: u32,
    shelf: &Shelf,
    sets: &[StateList],
) -> Result<Items<StateList>, NoMemory>
    requires auto { IsAuto g.now shelf.now a.now }
    requires table { IsTableOf shelf.now a.now table.now }
    requires settled { AreSettled g.now (automaton_of shelf.now a.now) track sets.now }
    ensures next { IfOk result (AreNext g.now (automaton_of shelf.now a.now) track sets.now) }
    ensures guide { IsGuide g.now }
{
    let mut next = Items::new(alloc);
    for space in 0..g.spaces() {
        next.push(next_set(alloc, g, a, table, track, shelf, sets, space)?)?;
    }
    Ok(next)
}

/// The next set of a space: its initial state, and what a label with at most the track gives for states of the children.
fn next_set(
    alloc: Global,
    g: &Guide,
    a: &Auto,
    table: &[NodeRef],
    track: u32,
    shelf: &Shelf,
    sets: &[StateList],
    space: u32,
) -> Result<StateList, NoMemory>
    requires auto { IsAuto g.now shelf.now a.now }
    requires table { IsTableOf shelf.now a.now table.now }
    requires settled { AreSettled g.now (automaton_of shelf.now a.now) track sets.now }
    requires inside { IsSpace g.now space }
    ensures { IfOk result (IsNext g.now (automaton_of shelf.now a.now) track sets.now space) }
{
    let children = g.children(space).unwrap_or((0, 0));
    let lefts = set_in(sets, children.0);
    let rights = set_in(sets, children.1);
    let roots = roots_for(alloc, a, table, shelf, space, lefts, rights)?;
    let mut states = Items::new(alloc);
    states.push(initial(a, space))?;
    push_states(&mut states, shelf, roots.as_slice(), &Items::new(alloc))?;
    let set_track = Items::from_slice(alloc, &[track])?;
    push_states(&mut states, shelf, roots.as_slice(), &set_track)?;
    let set = set_of(alloc, states.as_slice())?;
    Ok(Items::from_vec(set))
}

/// The roots for a state of each list, each once. They are those for one state of each class.
fn roots_for(
    alloc: Global,
    a: &Auto,
    table: &[NodeRef],
    _shelf: &Shelf,
    space: u32,
    lefts: &[u32],
    rights: &[u32],
) -> Result<Vec<NodeRef>, NoMemory>
    requires table { IsTableOf _shelf.now a.now table.now }
    requires known { (l r : ℕ) → Contains lefts.now l → Contains rights.now r → IsSome (root_at _shelf.now a.now space l r) }
    ensures roots { IfOk result (λ roots. AreRoots (root_at _shelf.now a.now space) lefts.now rights.now roots.items) }
    ensures valid { IfOk result (λ roots. All (IsValid _shelf.now) roots.items) }
{
    let (rows, columns) = classes_in(a, space);
    let left = one_a_class(alloc, lefts, rows)?;
    let right = one_a_class(alloc, rights, columns)?;
    let mut roots = Vec::new(alloc);
    roots_at(
        a,
        table,
        space,
        left.as_slice(),
        right.as_slice(),
        &mut roots,
    )?;
    make_distinct(&mut roots);
    Ok(roots)
}

/// The initial state of a space; 0 for an unknown one.
fn initial(a: &Auto, space: u32) -> u32
    ensures { result ≡ initial_of a.now space }
{
    match a.parts().get(space as usize) {
        Some(part) => part.initial,
        None => 0,
    }
}

/// The set of a space; the empty one where there is none yet.
fn set_in(sets: &[StateList], space: u32) -> &[u32]
    ensures { result.now ≡ set_at sets.now space }
{
    match sets.get(space as usize) {
        Some(set) => set.as_slice(),
        None => &[],
    }
}

/// Puts the states that the roots give for the label at the end.
fn push_states(
    states: &mut StateList,
    shelf: &Shelf,
    roots: &[NodeRef],
    label: &Label,
) -> Result<(), NoMemory>
    requires { All (IsValid shelf.now) roots.now }
    ensures { OnOk result (states.new ≡ states.old ++ leaves_of shelf.now roots.now (label_of label.now)) }
{
    for root in roots {
        states.push(shelf.eval(*root, label))?;
    }
    Ok(())
}
