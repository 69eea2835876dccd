//! The walk over a code.

ghost use Rattle.std.specs.Prelude.{◌≡◌, ℕ, suc, Some, slice_get, IfOk, OnOk};
ghost use Rattle.std.specs.Option.{option_map_or};
ghost use Rattle.ws2s_core.specs.declared.formula.Formula.TheVariants.{And, Not};
ghost use Rattle.ws2s_forms.specs.Forms.{track};
ghost use Rattle.site_list.specs.Acts as acts;
ghost use Rattle.site_list.specs.States as states;
ghost use Rattle.site_list.specs.Conditions as conditions;
ghost use Rattle.site_list.specs.Codes as codes;
ghost use Rattle.site_list.specs.Cuts as arriving;
ghost use Rattle.symbolic_steps.specs.Shown.{shown, Follows, Leads};
ghost use Rattle.pred_transform.specs.Forks.{IsFork, with_guard, with_values, with_events};

use crate::acts::act;
use crate::cuts::arrive;
use graph_view::{EventList, Sym, SymList};
use plain_data::at;
use std::alloc::{AllocError, Global};
use store_exec::{Code, Cut, Item, Tail};
use store_logic::Cond;
use symbolic_steps::{Walker, both, but_not, condition, made_truth, merged, next_track, reached};
use tree_encode::Layout;
use ws2s_core::{Formula, Track};
use ws2s_forms::later;

/// A track for the way where this holds, where the statement is reached.
fn make_first(
    alloc: Global,
    l: &Layout<'_>,
    w: &mut Walker,
    here: &Formula,
    holds: &Formula,
) -> Result<(), AllocError>
    ensures { OnOk result (Follows (And here.now holds.now) w.old w.new (λ text s. (acts.made_truth l.now.types l.now.vars (text, s)).1)) }
{
    let taken = both(alloc, here, holds)?;
    let _made = made_truth(alloc, l, w, &taken)?;
    Ok(())
}

/// A track for the way where this doesn't hold, where the statement is reached.
fn make_other(
    alloc: Global,
    l: &Layout<'_>,
    w: &mut Walker,
    here: &Formula,
    holds: &Formula,
) -> Result<(), AllocError>
    ensures { OnOk result (Follows (And here.now (Not holds.now)) w.old w.new (λ text s. (acts.made_truth l.now.types l.now.vars (text, s)).1)) }
{
    let other = but_not(alloc, here, holds)?;
    let _made = made_truth(alloc, l, w, &other)?;
    Ok(())
}

/// A track for the way where this holds and a track for the other one, each where the statement is reached. Gives the first.
fn fork_ways(
    alloc: Global,
    l: &Layout<'_>,
    w: &mut Walker,
    holds: &Formula,
) -> Result<Track, AllocError>
    ensures { IfOk result (λ way. (next wanted : ℕ) (text : states.Text) (s : states.State) → holds.now ≡ text next → w.old ≡ shown next wanted s →
        (way ≡ track (states.next_track l.now.types l.now.vars s)) × (w.new ≡ shown next wanted (codes.with_ways l.now.types l.now.vars text s))) }
{
    let here = reached(alloc, w)?;
    let way = next_track(l, w)?;
    make_first(alloc, l, w, &here, holds)?;
    make_other(alloc, l, w, &here, holds)?;
    Ok(way)
}

/// A track for the one way of a condition and a track for the other, each where the statement is reached.
fn ways(alloc: Global, l: &Layout<'_>, w: &mut Walker, cond: &Cond) -> Result<Track, AllocError>
    ensures { IfOk result (λ way. (line next wanted : ℕ) (s : states.State) → w.old ≡ shown next wanted s →
        (way ≡ track (states.next_track l.now.types l.now.vars (conditions.condition l.now.types l.now.vars line cond.now (states.guard s) s).1))
        × (w.new ≡ shown next wanted (codes.with_ways l.now.types l.now.vars
        (conditions.condition l.now.types l.now.vars line cond.now (states.guard s) s).0
        (conditions.condition l.now.types l.now.vars line cond.now (states.guard s) s).1))) }
{
    let here = reached(alloc, w)?;
    let holds = condition(alloc, l, w, &here, cond)?;
    let way = fork_ways(alloc, l, w, &holds)?;
    Ok(way)
}

/// What is kept while the ways of an `if` are walked over.
#[derive(Drop)]
pub(crate) struct Fork {
    /// The track of the first way; that of the other is the next one.
    pub way: Track,
    /// Where the `if` is reached.
    pub guard: Option<Track>,
    /// What stood for the variables, and the changes of the heap, before both ways.
    pub values: SymList,
    pub events: EventList,
}

/// Goes onto the first way.
fn take_first(
    alloc: Global,
    l: &Layout<'_>,
    w: &mut Walker,
    cond: &Cond,
) -> Result<Fork, AllocError>
    ensures { IfOk result (λ fork. (line next wanted : ℕ) (s : states.State) → w.old ≡ shown next wanted s →
        IsFork fork (codes.with_ways l.now.types l.now.vars
        (conditions.condition l.now.types l.now.vars line cond.now (states.guard s) s).0
        (conditions.condition l.now.types l.now.vars line cond.now (states.guard s) s).1)
        (states.next_track l.now.types l.now.vars (conditions.condition l.now.types l.now.vars line cond.now (states.guard s) s).1)
        × (w.new ≡ shown next wanted (codes.on_way fork.way.0 (codes.with_ways l.now.types l.now.vars
        (conditions.condition l.now.types l.now.vars line cond.now (states.guard s) s).0
        (conditions.condition l.now.types l.now.vars line cond.now (states.guard s) s).1)))) }
{
    let way = ways(alloc, l, w, cond)?;
    let values = SymList::from_slice(alloc, w.view.vars.as_slice())?;
    let events = EventList::from_slice(alloc, w.view.events.as_slice())?;
    let guard = w.guard;
    w.guard = Some(way);
    Ok(Fork {
        way,
        guard,
        values,
        events,
    })
}

/// Goes onto the other way of an `if` without a cut: the values are those before both ways, and the changes of the heap stay. Gives
/// what stands for the variables after the first way.
fn take_other(alloc: Global, w: &mut Walker, fork: &Fork) -> Result<SymList, AllocError>
    ensures { IfOk result (λ first. (first ≡ w.old.view.vars)
        × (w.new ≡ with_guard (Some (track (suc fork.now.way.0))) (with_values fork.now.values w.old))) }
{
    let first = SymList::from_slice(alloc, w.view.vars.as_slice())?;
    w.view.vars = SymList::from_slice(alloc, fork.values.as_slice())?;
    w.guard = Some(Track(later(fork.way.0, 1)?));
    Ok(first)
}

/// Joins the two ways.
fn join(
    alloc: Global,
    l: &Layout<'_>,
    w: &mut Walker,
    fork: &Fork,
    first: &[Sym],
) -> Result<(), AllocError>
    ensures { OnOk result ((next wanted : ℕ) (s : states.State) → w.old ≡ shown next wanted s →
        w.new ≡ shown next wanted (codes.with_merged (codes.merged l.now.types l.now.vars fork.now.way.0 first.now s.values
        (record s { guard = fork.now.guard })))) }
{
    w.guard = fork.guard;
    let other = SymList::from_slice(alloc, w.view.vars.as_slice())?;
    let values = merged(alloc, l, w, fork.way, first, other.as_slice())?;
    w.view.vars = values;
    Ok(())
}

/// Goes onto the other way of an `if` with a cut inside: the values and the heap are those before both ways.
fn take_other_code(alloc: Global, w: &mut Walker, fork: &Fork) -> Result<(), AllocError>
    ensures { OnOk result (w.new
        ≡ with_guard (Some (track (suc fork.now.way.0))) (with_events fork.now.events (with_values fork.now.values w.old))) }
{
    w.view.vars = SymList::from_slice(alloc, fork.values.as_slice())?;
    w.view.events = EventList::from_slice(alloc, fork.events.as_slice())?;
    w.guard = Some(Track(later(fork.way.0, 1)?));
    Ok(())
}

/// Items one after the other. Takes a level of the stack for each `if` within another one.
#[cycle(items)]
fn items(alloc: Global, l: &Layout<'_>, w: &mut Walker, code: &[Item]) -> Result<(), AllocError>
    ensures { OnOk result (Leads w.old w.new (codes.items l.now.types l.now.vars code.now)) }
{
    for next in code {
        item(alloc, l, w, next)?;
    }
    Ok(())
}

#[cycle(items)]
fn item(alloc: Global, l: &Layout<'_>, w: &mut Walker, code: &Item) -> Result<(), AllocError>
    ensures { OnOk result (Leads w.old w.new (codes.item l.now.types l.now.vars code.now)) }
{
    match code {
        Item::Do(_, step) => {
            act(alloc, l, w, step)?;
            Ok(())
        }
        Item::If(_, cond, taken, other) => {
            let fork = take_first(alloc, l, w, cond)?;
            items(alloc, l, w, taken.as_slice())?;
            let first = take_other(alloc, w, &fork)?;
            items(alloc, l, w, other.as_slice())?;
            join(alloc, l, w, &fork, first.as_slice())?;
            Ok(())
        }
    }
}

/// The cut at the place is arrived at.
fn arrive_at(
    alloc: Global,
    l: &Layout<'_>,
    w: &mut Walker,
    cuts: &[Cut],
    place: u32,
) -> Result<(), AllocError>
    ensures { OnOk result (Leads w.old w.new
        (λ s. option_map_or (λ cut. arriving.arrived l.now.types l.now.vars cut s) (slice_get cuts.now place) s)) }
{
    match at(cuts, place as usize) {
        Some(cut) => {
            arrive(alloc, l, w, cut)?;
            Ok(())
        }
        None => Ok(()),
    }
}

/// A code of a triple with these cuts. Takes a level of the stack for each branch within another one.
pub(crate) fn code(
    alloc: Global,
    l: &Layout<'_>,
    w: &mut Walker,
    cuts: &[Cut],
    whole: &Code,
) -> Result<(), AllocError>
    ensures { OnOk result (Leads w.old w.new (codes.code l.now.types l.now.vars cuts.now whole.now)) }
{
    items(alloc, l, w, whole.items.as_slice())?;
    match &whole.tail {
        Tail::Cut(place) => {
            arrive_at(alloc, l, w, cuts, *place)?;
            Ok(())
        }
        Tail::Branch(_, cond, taken, other) => {
            let fork = take_first(alloc, l, w, cond)?;
            code(alloc, l, w, cuts, taken.get())?;
            take_other_code(alloc, w, &fork)?;
            code(alloc, l, w, cuts, other.get())?;
            Ok(())
        }
    }
}
