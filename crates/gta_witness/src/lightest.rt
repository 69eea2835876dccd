//! The call.

ghost use Rattle.std.specs.Prelude.{◌≡◌, ◌↔◌, ℕ, Some, IfOk};
ghost use Rattle.gta_theory.specs.Assignments.{Assignment};
ghost use Rattle.gta_theory.specs.Automata.{Accepts};
ghost use Rattle.gta_core.specs.Auto.{automaton_of, IsAuto};
ghost use Rattle.gta_reach.specs.Form.{IsForm, guide_of as form_guide, automaton_of as form_automaton};
ghost use Rattle.gta_witness.specs.declared.lightest.Lightest.{Lightest};
ghost use Rattle.gta_witness.specs.Lightest.{is_among, each_once, AreTooLarge};
ghost use Rattle.gta_witness.specs.Answers.{IsLightestOf};
ghost use Rattle.gta_witness.specs.Rules.{key};
ghost use Rattle.gta_witness.specs.Searching.{weighs_in, found_by, IsOver, IsAcceptingAt};

use crate::goal::Weight;
use crate::grow::grow;
use crate::relax::Search;
use crate::search::search_all;
use bdd_nodes::Shelf;
use bdd_walk::NoMemory;
use gta_core::Auto;
use gta_form::form_of;
use gta_reach::Form;
use std::alloc::Global;
use std::collections::HashSet;
use ws2s_core::{Guide, LabelTree, Track, TrackList};

/// The numbers of the tracks, as a set.
fn numbers_of(alloc: Global, tracks: &[Track]) -> Result<HashSet<u32>, NoMemory>
    ensures { IfOk result (λ numbers. (t : ℕ) → weighs_in numbers t ≡ is_among tracks.now t) }
{
    let mut numbers = HashSet::new(alloc);
    for track in tracks {
        numbers.insert(track.0)?;
    }
    Ok(numbers)
}

/// What is found for an automaton.
#[derive(Debug, Drop)]
pub enum Lightest {
    /// Nothing is accepted.
    None,
    /// This tree is accepted. None has fewer bits on the weighed tracks, of which it has so many, and none with as few bits has
    /// fewer nodes.
    Tree(LabelTree, u64),
    /// Something is accepted, but each tree that is and has the fewest bits has 2^64 - 1 bits or more, or 2^32 - 1 nodes or more.
    TooLarge,
}

/// The tree of a lightest accepting state, if it has room.
fn tree_of(
    alloc: Global,
    form: &Form,
    weigh: &[Track],
    search: &Search,
    state: u32,
    weight: Weight,
) -> Result<Lightest, NoMemory>
    requires form { IsForm form.now }
    requires over { IsOver form.now (is_among weigh.now) (found_by search.now) (Some (key weight)) }
    requires accepting { IsAcceptingAt form.now (found_by search.now) state weight }
    ensures value { IfOk result (IsLightestOf (form_guide form.now) (form_automaton form.now) weigh.now) }
    ensures too_large { IfOk result (λ answer. AreTooLarge (Accepts (form_guide form.now) (form_automaton form.now)) (each_once weigh.now)
        → answer ≡ Lightest.TooLarge) }
{
    if !weight.has_room() {
        return Ok(Lightest::TooLarge);
    }
    let tree = grow(alloc, form, weigh, search, state)?;
    Ok(Lightest::Tree(tree, weight.bits))
}

/// A lightest tree of a form.
fn least_of(alloc: Global, form: &Form, weigh: &[Track]) -> Result<Lightest, NoMemory>
    requires { IsForm form.now }
    ensures value { IfOk result (IsLightestOf (form_guide form.now) (form_automaton form.now) weigh.now) }
    ensures too_large { IfOk result (λ answer. AreTooLarge (Accepts (form_guide form.now) (form_automaton form.now)) (each_once weigh.now)
        → answer ≡ Lightest.TooLarge) }
{
    let weighed = numbers_of(alloc, weigh)?;
    let outcome = search_all(alloc, form, &weighed)?;
    match outcome.accepting {
        None => Ok(Lightest::None),
        Some((state, weight)) => tree_of(alloc, form, weigh, &outcome.search, state, weight),
    }
}

/// An accepted tree with the fewest bits on the given tracks, and their number; no tree with as few bits that is accepted
/// has fewer nodes. [`Lightest::None`] exactly where nothing is accepted, and [`Lightest::TooLarge`] exactly where something is, but
/// each tree with the fewest bits has 2^64 - 1 bits or more, or 2^32 - 1 nodes or more: such trees have no room. A track that is
/// given more than once counts once.
///
/// # Errors
///
/// Want of memory.
pub fn least(
    alloc: Global,
    g: &Guide,
    a: &Auto,
    shelf: &Shelf,
    weigh: &TrackList,
) -> Result<Lightest, NoMemory>
    requires { IsAuto g.now shelf.now a.now }
    ensures value { IfOk result (IsLightestOf g.now (automaton_of shelf.now a.now) weigh.now) }
    ensures none { IfOk result (λ answer. (answer ≡ Lightest.None)
        ↔ ((tree : Assignment) → Accepts g.now (automaton_of shelf.now a.now) tree → ⊥)) }
    ensures too_large { IfOk result (λ answer. (answer ≡ Lightest.TooLarge)
        ↔ AreTooLarge (Accepts g.now (automaton_of shelf.now a.now)) (each_once weigh.now)) }
{
    let form = form_of(alloc, g, a, shelf)?;
    let answer = least_of(alloc, &form, weigh.as_slice())?;
    Ok(answer)
}
