//! The projection: sets of states, as they are reached.

ghost use Rattle.std.specs.List.{range_with_len, list_any};
ghost use Rattle.std.specs.Prelude.{◌≡◌, ◌<◌, ◌+◌, ◌^◌, ℕ, Bool, List, [], length, map, None, Some, Err, All, IfOk, OnOk, OnErr, IsTrue, ◌↔◌, slice_get};
ghost use Rattle.bdd_nodes.specs.Shelf.{Contents, IsShelf, IsValid, count_of, limit_of};
ghost use Rattle.bdd_nodes.specs.Changes.{Keeps, SameTables};
ghost use Rattle.gta_theory.specs.Assignments.{Assignment, PositionSet, IsFiniteSet, Covers, replace};
ghost use Rattle.gta_theory.specs.Guides.{Spaces, IsGuide, IsSpace, left, right};
ghost use Rattle.gta_theory.specs.Automata.{Automaton, Accepts, Has};
ghost use Rattle.gta_theory.specs.Constructions.{IsSubset};
ghost use Rattle.gta_theory.specs.Sizes.{SizeOf};
ghost use Rattle.gta_core.specs.Auto.{states_of, is_accepting, automaton_of, IsAuto};
ghost use Rattle.gta_core.specs.Changes.{RegistersTable};
ghost use Rattle.gta_core.specs.Placing.{Grows};
ghost use Rattle.bdd_walk.specs.Sets.{IsSet};
ghost use Rattle.gta_subsets.specs.Subsets.{subsets, AreInitial};
ghost use Rattle.gta_subsets.specs.Roots.{IsTableOf};
ghost use Rattle.gta_project.specs.Project.{IsSubsetOf};
ghost use Rattle.gta_project.specs.Building.{AreSpaces, FitAll, ExtendAll, Building, CompleteAll, ExceedsSteps, IsPartOf, AreParts, Leaves, Exceeded};
ghost use Rattle.gta_project.specs.Settled.{IsSettled};

use crate::filling::fill;
use crate::growing::{are_same, counts, grow, growths};
use bdd_nodes::{NodeRef, RefList, Shelf};
use bdd_walk::{NoMemory, SetJoiner, StateList, Stop};
use gta_core::{Auto, BoolList, Part};
use gta_subsets::{Numbering, classify, initial_sets, room_for};
use plain_data::Items;
use std::alloc::{AllocError, Global};
use ws2s_core::{Guide, Track};

/// The automaton of sets of states that drops the track: it accepts where some finite set for the track is accepted. Its
/// states are exactly the sets that are reached. The initial ones are closed under steps on labels with at most the track,
/// since a set for the track may lie deeper than all other sets.
///
/// # Errors
///
/// `Limit` only where the nodes at the call and the Size of the projection are more than the limit: where the shelf has
/// no room for a node, or where the table of a space gets more than 16 roots for each node of the limit. Each root is for
/// a pair of child states of its own, and the Size counts those. Want of memory, also where a space has more sets than
/// there are state numbers, where its sets have more states together than 16 for each node of the limit and than 2^20, or
/// where the roots are more than a `u32` counts. After a stop no table is left.
pub fn project(
    alloc: Global,
    g: &Guide,
    a: &Auto,
    t: Track,
    shelf: &mut Shelf,
) -> Result<Auto, Stop>
    requires { IsAuto g.now shelf.old a.now }

    // The result.
    ensures auto { IfOk result (IsAuto g.now shelf.new) }
    ensures subset { IfOk result (λ b. IsSubsetOf g.now (automaton_of shelf.old a.now) t.0 (automaton_of shelf.new b) (states_of b)) }
    ensures accepts { IfOk result (λ b. (depth : ℕ) (assignment : Assignment) → Covers depth assignment →
        Accepts g.now (automaton_of shelf.new b) assignment
        ↔ ((set : PositionSet) × IsFiniteSet set × Accepts g.now (automaton_of shelf.old a.now) (replace assignment t.0 set))) }
    ensures table { IfOk result (λ b. RegistersTable shelf.old shelf.new b.table) }
    ensures limit { result ≡ Err Stop.Limit → (B : Automaton ℕ) (states : ℕ → ℕ → Bool) (member : ℕ → ℕ → ℕ → Bool) (size : ℕ) →
        IsSubset g.now (automaton_of shelf.old a.now) t.0 B (Has states) (λ s x q. IsTrue (member s x q)) →
        SizeOf g.now B (Has states) size → limit_of shelf.old < count_of shelf.old + size }

    // What the call leaves, whatever it answers.
    ensures kept { Keeps shelf.old shelf.new }
    ensures tables { OnErr result (SameTables shelf.old shelf.new) }
    ensures same_limit { limit_of shelf.new ≡ limit_of shelf.old }
    ensures shelf { IsShelf shelf.new }
{
    let room = room_for(shelf.limit());
    let roots = a.roots(alloc, shelf)?;
    let table = roots.as_slice();
    let initials = initial_sets(alloc, g, a, table, t.0, shelf)?;
    let settled = settle(alloc, g, a, table, t.0, initials.as_slice(), room, shelf)?;
    let Settled {
        numbers,
        parts,
        roots,
    } = settled;
    let accepting = accepting(alloc, a, &numbers[0])?;
    let made = Auto::from_parts(parts, accepting, roots, shelf)?;
    Ok(made)
}

/// The sets of all spaces, of which no more come, and the parts and roots for them.
#[derive(Drop)]
pub(crate) struct Settled {
    pub(crate) numbers: Vec<Numbering>,
    pub(crate) parts: Items<Part>,
    pub(crate) roots: RefList,
}

/// Joins for the sets as they come, until none comes; and then once more for all sets, which gives the roots. The sets of a
/// space have room for so many states together.
#[allow(clippy::too_many_arguments)]
fn settle(
    alloc: Global,
    g: &Guide,
    a: &Auto,
    table: &[NodeRef],
    track: u32,
    initials: &[StateList],
    room: usize,
    shelf: &mut Shelf,
) -> Result<Settled, Stop>
    requires auto { IsAuto g.now shelf.old a.now }
    requires table { IsTableOf shelf.old a.now table.now }
    requires initials { AreInitial g.now (automaton_of shelf.old a.now) track initials.now }
    ensures leaves { Leaves shelf.old shelf.new }
    ensures limit { result ≡ Err Stop.Limit → Exceeded g.now (subsets (automaton_of shelf.old a.now) track initials.now) shelf.old }
    ensures settled { IfOk result (IsSettled g.now (subsets (automaton_of shelf.old a.now) track initials.now) a.now shelf.old shelf.new) }
    ensures guide { IsGuide g.now }
{
    let mut numbers = start(alloc, g, initials, room)?;
    let mut joiners = joiners(alloc, g)?;
    let mut growths = growths(alloc, g)?;
    loop {
        grow(
            alloc,
            g,
            a,
            table,
            track,
            initials,
            shelf,
            &mut joiners,
            &mut numbers,
            &mut growths,
        )?;
        let before = counts(alloc, &numbers)?;
        let mut roots = RefList::new(alloc);
        let parts = parts_of(
            alloc,
            g,
            a,
            table,
            track,
            initials,
            shelf,
            &mut joiners,
            &mut numbers,
            &mut roots,
        )?;
        let after = counts(alloc, &numbers)?;
        if are_same(&before, &after) {
            return Ok(Settled {
                numbers,
                parts,
                roots,
            });
        }
    }
}

/// The initial set of each space, in a numbering with room for so many states.
fn start(
    alloc: Global,
    g: &Guide,
    initials: &[StateList],
    room: usize,
) -> Result<Vec<Numbering>, NoMemory>
    requires many { length initials.now ≡ length g.now }
    requires sets { (k : ℕ) (set : List ℕ) → slice_get initials.now k ≡ Some set → IsSet set }
    ensures spaces { IfOk result (λ spaces. (A : Automaton ℕ) (track : ℕ) → AreSpaces g.now (subsets A track initials.now) spaces.items) }
    ensures guide { IsGuide g.now }
{
    let mut spaces = Vec::new(alloc);
    for space in 0..g.spaces() {
        let initial = &initials[space as usize];
        let mut numbers = Numbering::new(alloc, room);
        numbers.number(Vec::from_slice(alloc, initial.as_slice())?)?;
        spaces.push(numbers)?;
    }
    Ok(spaces)
}

/// A joiner for each space.
fn joiners(alloc: Global, g: &Guide) -> Result<Vec<SetJoiner>, NoMemory>
    ensures { IfOk result (λ joiners. (track : ℕ) (shelf : Contents) (spaces : List (List (List ℕ))) → length spaces ≡ length g.now →
        FitAll track shelf joiners.items spaces) }
{
    let mut joiners = Vec::new(alloc);
    for _space in 0..g.spaces() {
        joiners.push(SetJoiner::new(alloc))?;
    }
    Ok(joiners)
}

/// Which sets of space 0 are accepting: those with an accepting state.
fn accepting(alloc: Global, a: &Auto, sets: &Numbering) -> Result<BoolList, NoMemory>
    ensures { IfOk result (λ flags. flags ≡ map (λ set. list_any (is_accepting a.now) set) sets.now) }
{
    let mut accepting = BoolList::new(alloc);
    for number in 0..sets.len() {
        accepting.push(has_accepting(a, sets.set(number)))?;
    }
    Ok(accepting)
}

/// Whether a state of the set is accepting.
fn has_accepting(a: &Auto, set: &[u32]) -> bool
    ensures { result ≡ list_any (is_accepting a.now) set.now }
{
    for state in set {
        if is_accepting_in(a, *state) {
            return true;
        }
    }
    false
}

/// Whether a state of space 0 is accepting; an unknown one isn't.
fn is_accepting_in(a: &Auto, state: u32) -> bool
    ensures { result ≡ is_accepting a.now state }
{
    match a.accepting(state) {
        Some(flag) => flag,
        None => false,
    }
}

/// The parts of all spaces, for the sets so far.
#[allow(clippy::too_many_arguments)]
fn parts_of(
    alloc: Global,
    g: &Guide,
    a: &Auto,
    table: &[NodeRef],
    track: u32,
    initials: &[StateList],
    shelf: &mut Shelf,
    joiners: &mut Vec<SetJoiner>,
    numbers: &mut Vec<Numbering>,
    roots: &mut RefList,
) -> Result<Items<Part>, Stop>
    requires auto { IsAuto g.now shelf.old a.now }
    requires table { IsTableOf shelf.old a.now table.now }
    requires initials { AreInitial g.now (automaton_of shelf.old a.now) track initials.now }
    requires spaces { AreSpaces g.now (subsets (automaton_of shelf.old a.now) track initials.now) numbers.old.items }
    requires fits { FitAll track shelf.old joiners.old.items numbers.old.items }
    requires none { roots.old ≡ [] }
    ensures extends { ExtendAll numbers.old.items numbers.new.items }
    ensures kept { Keeps shelf.old shelf.new }
    ensures tables { SameTables shelf.old shelf.new }
    ensures building { (start : Contents) → Building g.now (subsets (automaton_of shelf.old a.now) track initials.now) start shelf.old numbers.old.items
        → Building g.now (subsets (automaton_of shelf.old a.now) track initials.now) start shelf.new numbers.new.items }
    ensures limit { result ≡ Err Stop.Limit → (start : Contents) → Building g.now (subsets (automaton_of shelf.old a.now) track initials.now)
        start shelf.old numbers.old.items → (given : ℕ → List ℕ → ℕ) → CompleteAll g.now (subsets (automaton_of shelf.old a.now) track initials.now)
        numbers.new.items given → ExceedsSteps g.now (subsets (automaton_of shelf.old a.now) track initials.now) start given }
    ensures fits { OnOk result (FitAll track shelf.new joiners.new.items numbers.new.items) }
    ensures valid { OnOk result (All (IsValid shelf.new) roots.new) }
    ensures many { IfOk result (λ parts. length parts ≡ length g.now) }
    ensures parts { IfOk result (λ parts. numbers.new.items ≡ numbers.old.items →
        AreParts g.now (subsets (automaton_of shelf.old a.now) track initials.now) a.now
        numbers.old.items numbers.old.items shelf.new roots.new parts) }
{
    let mut parts = Items::new(alloc);
    for space in 0..g.spaces() {
        let part = part_of(
            alloc, g, a, table, track, initials, shelf, space, joiners, numbers, roots,
        )?;
        parts.push(part)?;
    }
    Ok(parts)
}

/// The part of a space, for the sets of its children so far.
#[allow(clippy::too_many_arguments)]
fn part_of(
    alloc: Global,
    g: &Guide,
    a: &Auto,
    table: &[NodeRef],
    track: u32,
    _initials: &[StateList],
    shelf: &mut Shelf,
    space: u32,
    joiners: &mut Vec<SetJoiner>,
    numbers: &mut Vec<Numbering>,
    roots: &mut RefList,
) -> Result<Part, Stop>
    requires auto { IsAuto g.now shelf.old a.now }
    requires table { IsTableOf shelf.old a.now table.now }
    requires initials { AreInitial g.now (automaton_of shelf.old a.now) track _initials.now }
    requires spaces { AreSpaces g.now (subsets (automaton_of shelf.old a.now) track _initials.now) numbers.old.items }
    requires fits { FitAll track shelf.old joiners.old.items numbers.old.items }
    requires inside { space < length g.now }
    requires valid { All (IsValid shelf.old) roots.old }
    ensures extends { ExtendAll numbers.old.items numbers.new.items }
    ensures kept { Keeps shelf.old shelf.new }
    ensures tables { SameTables shelf.old shelf.new }
    ensures building { (start : Contents) → Building g.now (subsets (automaton_of shelf.old a.now) track _initials.now) start shelf.old numbers.old.items
        → Building g.now (subsets (automaton_of shelf.old a.now) track _initials.now) start shelf.new numbers.new.items }
    ensures limit { result ≡ Err Stop.Limit → (start : Contents) → Building g.now (subsets (automaton_of shelf.old a.now) track _initials.now)
        start shelf.old numbers.old.items → (given : ℕ → List ℕ → ℕ) → CompleteAll g.now (subsets (automaton_of shelf.old a.now) track _initials.now)
        numbers.new.items given → ExceedsSteps g.now (subsets (automaton_of shelf.old a.now) track _initials.now) start given }
    ensures fits { OnOk result (FitAll track shelf.new joiners.new.items numbers.new.items) }
    ensures valid { OnOk result (All (IsValid shelf.new) roots.new) }
    ensures grown { OnOk result (Grows roots.old roots.new) }
    ensures spaces { OnOk result (AreSpaces g.now (subsets (automaton_of shelf.old a.now) track _initials.now) numbers.new.items) }
    ensures part { IfOk result (IsPartOf g.now (subsets (automaton_of shelf.old a.now) track _initials.now) a.now
        numbers.old.items numbers.new.items shelf.new roots.new space) }
    ensures start { IfOk result (λ part. (part.first ≡ length roots.old) × (length roots.new ≡ length roots.old + length part.cells)) }
{
    let at = space as usize;
    let children = g.children(space).unwrap_or((0, 0));
    let own = &a.parts()[at];
    let rows = classify(alloc, &numbers[children.0 as usize], own.rows.as_slice())?;
    let columns = classify(alloc, &numbers[children.1 as usize], own.columns.as_slice())?;
    if roots.len() > u32::MAX as usize {
        return Err(Stop::NoMemory);
    }
    let start = roots.len() as u32;
    fill(
        alloc,
        a,
        table,
        track,
        shelf,
        space,
        rows.ones.as_slice(),
        columns.ones.as_slice(),
        &mut joiners[at],
        &mut numbers[at],
        roots,
    )?;
    let many = roots.len() - start as usize;
    Ok(Part {
        states: numbers[at].len() as u32,
        initial: 0,
        children,
        first: start,
        rows: rows.of,
        columns: columns.of,
        width: columns.ones.len() as u32,
        cells: count_up(alloc, many)?,
    })
}

/// The numbers below.
fn count_up(alloc: Global, many: usize) -> Result<Items<u32>, NoMemory>
    ensures { IfOk result (λ numbers. numbers ≡ range_with_len 0 many) }
{
    if many > u32::MAX as usize {
        return Err(AllocError);
    }
    let mut numbers = Items::new(alloc);
    for number in 0..many as u32 {
        numbers.push(number)?;
    }
    Ok(numbers)
}
