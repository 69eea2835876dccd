//! Least weights, from the lowest up.

ghost use Rattle.std.specs.Prelude.{◌≡◌, ◌<◌, ℕ, true, IfOk, Some, Contains, vec_len};
ghost use Rattle.std.specs.HashMap.{Updates};
ghost use Rattle.gta_reach.specs.declared.form.Form.{Form};
ghost use Rattle.gta_reach.specs.Form.{automaton_of};
ghost use Rattle.gta_witness.specs.Searching.{same_goal, weighs_in, found_by, list_at, Ends, Stands, Running, IsStart, IsTaken, AddsTo, AddsLine, AcceptsAt};
ghost use Rattle.gta_witness.specs.Lists.{AreLines, HasLine};
ghost use Rattle.gta_witness.specs.Ending.{turns_left, IsNearer, HasBits};

use crate::expand::{Lines, expand};
use crate::goal::{Found, Goal, Reason, Weight};
use crate::relax::{Search, relax};
use gta_reach::Form;
use plain_data::Items;
use std::alloc::{AllocError, Global};
use std::collections::HashSet;

/// Where the search stands.
#[derive(Clone, Copy, Debug)]
pub(crate) enum Turn {
    More,
    /// Nothing waits.
    Over,
    /// A lightest accepting state, and its weight.
    Accepting { state: u32, weight: Weight },
}

/// The initial states weigh nothing.
fn start(alloc: Global, form: &Form, weighed: &HashSet<u32>) -> Result<Search, AllocError>
    ensures { IfOk result (IsStart form.now (weighs_in weighed.now)) }
{
    let mut search = Search::new(alloc);
    if form.spaces.len() > u32::MAX as usize {
        return Err(AllocError);
    }
    let many = form.spaces.len() as u32;
    let nothing = Weight { bits: 0, nodes: 0 };
    for s in 0..many {
        let goal = Goal::State {
            space: s,
            state: form.spaces.as_slice()[s as usize].initial,
        };
        relax(&mut search, goal, nothing, Reason::Initial)?;
    }
    Ok(search)
}

/// An empty list for each space.
fn empty_lists(alloc: Global, many: usize) -> Result<Vec<Items<u32>>, AllocError>
    ensures { IfOk result (λ lists. vec_len lists ≡ many) }
{
    let mut lists = Vec::with_capacity(alloc, many)?;
    for _ in 0..many {
        lists.push(Items::new(alloc))?;
    }
    Ok(lists)
}

/// Marks a goal as settled.
fn settle(search: &mut Search, goal: Goal, found: Found) -> Result<(), AllocError>
    ensures found { IfOk result (λ done. Updates same_goal search.old.found search.new.found goal
        (Some (record { weight = found.weight; reason = found.reason; is_settled = true }))) }
    ensures queue { IfOk result (λ done. search.new.queue ≡ search.old.queue) }
{
    search.found.insert(
        goal,
        Found {
            weight: found.weight,
            reason: found.reason,
            is_settled: true,
        },
    )?;
    Ok(())
}

/// Puts a class into the list of its space.
fn add(lists: &mut Vec<Items<u32>>, space: u32, class: u32) -> Result<(), AllocError>
    requires { space < vec_len lists.old }
    ensures adds { IfOk result (λ done. AddsTo lists.old.items lists.new.items space class) }
    ensures many { IfOk result (λ done. vec_len lists.new ≡ vec_len lists.old) }
{
    lists[space as usize].push(class)?;
    Ok(())
}

/// Puts a settled class into its list.
fn add_line(lines: &mut Lines, goal: Goal) -> Result<(), AllocError>
    requires { HasLine lines.old goal }
    ensures adds { IfOk result (λ done. AddsLine lines.old lines.new goal) }
    ensures lines { IfOk result (λ done. (form : Form) → AreLines form lines.old → AreLines form lines.new) }
    ensures bits { IfOk result (λ done. HasBits goal) }
{
    match goal {
        Goal::Row { space, class } => {
            add(&mut lines.rows, space, class)?;
        }
        Goal::Column { space, class } => {
            add(&mut lines.columns, space, class)?;
        }
        Goal::State { .. } | Goal::Node { .. } => {}
    }
    Ok(())
}

/// The state, if the goal is an accepting state of space 0.
fn accepting_state(form: &Form, goal: Goal) -> Option<u32>
    ensures { AcceptsAt form.now goal result }
{
    let Goal::State { space, state } = goal else {
        return None;
    };
    if space != 0 {
        return None;
    }
    if is_accepting(form, state) {
        Some(state)
    } else {
        None
    }
}

/// Whether a state of space 0 is accepting.
fn is_accepting(form: &Form, state: u32) -> bool
    ensures { result ≡ (automaton_of form.now).accepting state }
{
    match form.accepting.get(state as usize) {
        Some(flag) => *flag,
        None => false,
    }
}

/// Settles a goal, and gives a weight to what follows from it.
fn settle_goal(
    form: &Form,
    weighed: &HashSet<u32>,
    lines: &mut Lines,
    search: &mut Search,
    goal: Goal,
    found: Found,
) -> Result<Turn, AllocError>
    requires taken { IsTaken form.now (weighs_in weighed.now) lines.old search.old goal found }
    requires lines { AreLines form.now lines.old }
    ensures stands { IfOk result (Stands form.now (weighs_in weighed.now) lines.new search.new) }
    ensures lines { IfOk result (λ turn. AreLines form.now lines.new) }
    ensures fewer { IfOk result (λ turn. turns_left search.new < turns_left search.old) }
{
    settle(search, goal, found)?;
    add_line(lines, goal)?;
    expand(form, weighed, lines, search, goal, found.weight)?;
    match accepting_state(form, goal) {
        Some(state) => Ok(Turn::Accepting {
            state,
            weight: found.weight,
        }),
        None => Ok(Turn::More),
    }
}

/// Goes on with what waits with the lowest weight.
fn advance(
    form: &Form,
    weighed: &HashSet<u32>,
    lines: &mut Lines,
    search: &mut Search,
) -> Result<Turn, AllocError>
    requires running { (now : ℕ) × Running form.now (weighs_in weighed.now) now lines.old search.old }
    requires lines { AreLines form.now lines.old }
    ensures stands { IfOk result (Stands form.now (weighs_in weighed.now) lines.new search.new) }
    ensures lines { IfOk result (λ turn. AreLines form.now lines.new) }
    ensures nearer { IfOk result (IsNearer (turns_left search.old) (turns_left search.new)) }
{
    let Some(first) = search.queue.pop() else {
        return Ok(Turn::Over);
    };
    let Some(found) = search.at(first.goal) else {
        return Ok(Turn::More);
    };
    if found.is_settled {
        return Ok(Turn::More);
    }
    if found.weight.key() != u128::MAX - first.nearness {
        return Ok(Turn::More);
    }
    settle_goal(form, weighed, lines, search, first.goal, found)
}

/// What was found, with a lightest accepting state and its weight; none where no accepting state has a weight.
#[derive(Drop)]
pub(crate) struct Outcome {
    pub search: Search,
    pub accepting: Option<(u32, Weight)>,
}

/// Least weights until an accepting state of space 0 has one.
pub(crate) fn search_all(
    alloc: Global,
    form: &Form,
    weighed: &HashSet<u32>,
) -> Result<Outcome, AllocError>
    ensures { IfOk result (λ outcome. Ends form.now (weighs_in weighed.now) outcome.search outcome.accepting) }
{
    let mut search = start(alloc, form, weighed)?;
    let mut lines = Lines {
        rows: empty_lists(alloc, form.spaces.len())?,
        columns: empty_lists(alloc, form.spaces.len())?,
    };
    loop {
        match advance(form, weighed, &mut lines, &mut search)? {
            Turn::More => {}
            Turn::Over => {
                return Ok(Outcome {
                    search,
                    accepting: None,
                });
            }
            Turn::Accepting { state, weight } => {
                return Ok(Outcome {
                    search,
                    accepting: Some((state, weight)),
                });
            }
        }
    }
}
