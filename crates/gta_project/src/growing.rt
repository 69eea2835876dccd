//! The sets that come: a space is joined for the classes of its children's sets that weren't joined yet.

ghost use Rattle.std.specs.Prelude.{◌≡◌, ◌<◌, ◌*◌, ◌⊎◌, ℕ, List, [], length, map, Err, All, Contains, IfOk, OnOk, IsTrue, ◌↔◌, Some, slice_get};
ghost use Rattle.gta_theory.specs.Automata.{Automaton};
ghost use Rattle.gta_theory.specs.Guides.{left, right};
ghost use Rattle.gta_subsets.specs.Subsets.{subsets, AreInitial};
ghost use Rattle.gta_subsets.specs.Roots.{IsTableOf};
ghost use Rattle.gta_core.specs.Auto.{AutoView, automaton_of, IsAuto};
ghost use Rattle.gta_project.specs.Building.{AreSpaces, FitAll};
ghost use Rattle.gta_project.specs.Growing.{AreGenerated, IsKeyed, HasSeen, HaveSeen, Goes, LacksRoom};

use crate::filling::fill;
use bdd_nodes::{NodeRef, RefList, Shelf};
use bdd_walk::{NoMemory, SetJoiner, StateList, Stop};
use gta_core::Auto;
use gta_subsets::{Numbering, key_of, note};
use plain_data::Items;
use std::alloc::Global;
use ws2s_core::Guide;

/// The most roots that the table of a space may have for each node of the shelf's limit: they stand outside the shelf.
const CELLS_A_NODE: u64 = 16;

/// The classes of a child's sets so far.
#[derive(Drop)]
pub(crate) struct Seen {
    keys: Numbering,
    /// For each class the first set that has it.
    pub(crate) ones: Items<StateList>,
    /// How many sets were looked at.
    looked: usize,
}

impl Seen {
    fn new(alloc: Global) -> Seen
        ensures ones { result.ones ≡ [] }
        ensures keys { result.keys ≡ [] }
    {
        Seen {
            keys: Numbering::new(alloc, usize::MAX),
            ones: Items::new(alloc),
            looked: 0,
        }
    }

    /// Looks at the sets that have come, of which those of new classes join the ones.
    fn look(&mut self, alloc: Global, sets: &Numbering, states: &[u32]) -> Result<(), NoMemory>
        requires { (k : ℕ) (set : List ℕ) → slice_get sets.now k ≡ Some set → All (λ q. q < length states.now) set }
        ensures only { OnOk result ((x : List ℕ) → Contains self.new.ones x → Contains self.old.ones x ⊎ Contains sets.now x) }
        ensures keyed { OnOk result (IsKeyed states.now self.old → IsKeyed states.now self.new) }
    {
        for k in self.looked..sets.len() {
            let set = sets.set(k);
            let key = key_of(alloc, set, states)?;
            let class = self.keys.number(key)?;
            note(alloc, &mut self.ones, class, set)?;
        }
        self.looked = sets.len();
        Ok(())
    }
}

/// What a space was joined for so far: each of these rows with each of these columns.
#[derive(Drop)]
pub(crate) struct Growth {
    pub(crate) rows: Seen,
    pub(crate) columns: Seen,
}

/// Nothing was looked at in any space.
pub(crate) fn growths(alloc: Global, g: &Guide) -> Result<Vec<Growth>, NoMemory>
    ensures { IfOk result (λ growths. (A : Automaton ℕ) (a : AutoView) (track : ℕ) (initials : List (List ℕ)) →
        HaveSeen g.now (subsets A track initials) a growths.items) }
{
    let mut growths = Vec::new(alloc);
    for _space in 0..g.spaces() {
        growths.push(Growth {
            rows: Seen::new(alloc),
            columns: Seen::new(alloc),
        })?;
    }
    Ok(growths)
}

/// Joins for what has come, space after space, until nothing comes.
#[allow(clippy::too_many_arguments)]
pub(crate) fn grow(
    alloc: Global,
    g: &Guide,
    a: &Auto,
    table: &[NodeRef],
    track: u32,
    initials: &[StateList],
    shelf: &mut Shelf,
    joiners: &mut Vec<SetJoiner>,
    numbers: &mut Vec<Numbering>,
    growths: &mut Vec<Growth>,
) -> Result<(), Stop>
    requires auto { IsAuto g.now shelf.old a.now }
    requires table { IsTableOf shelf.old a.now table.now }
    requires initials { AreInitial g.now (automaton_of shelf.old a.now) track initials.now }
    requires spaces { AreSpaces g.now (subsets (automaton_of shelf.old a.now) track initials.now) numbers.old.items }
    requires seen { HaveSeen g.now (subsets (automaton_of shelf.old a.now) track initials.now) a.now growths.old.items }
    requires fits { FitAll track shelf.old joiners.old.items numbers.old.items }
    ensures goes { Goes g.now (subsets (automaton_of shelf.old a.now) track initials.now)
        shelf.old shelf.new numbers.old.items numbers.new.items }
    ensures limit { result ≡ Err Stop.Limit → LacksRoom g.now (subsets (automaton_of shelf.old a.now) track initials.now)
        shelf.old numbers.old.items numbers.new.items }
    ensures spaces { OnOk result (AreSpaces g.now (subsets (automaton_of shelf.old a.now) track initials.now) numbers.new.items) }
    ensures seen { OnOk result (HaveSeen g.now (subsets (automaton_of shelf.old a.now) track initials.now) a.now growths.new.items) }
    ensures fits { OnOk result (FitAll track shelf.new joiners.new.items numbers.new.items) }
{
    loop {
        let before = counts(alloc, numbers)?;
        grow_once(
            alloc, g, a, table, track, initials, shelf, joiners, numbers, growths,
        )?;
        let after = counts(alloc, numbers)?;
        if are_same(&before, &after) {
            return Ok(());
        }
    }
}

/// Joins for what has come, once in each space.
#[allow(clippy::too_many_arguments)]
fn grow_once(
    alloc: Global,
    g: &Guide,
    a: &Auto,
    table: &[NodeRef],
    track: u32,
    initials: &[StateList],
    shelf: &mut Shelf,
    joiners: &mut Vec<SetJoiner>,
    numbers: &mut Vec<Numbering>,
    growths: &mut Vec<Growth>,
) -> Result<(), Stop>
    requires auto { IsAuto g.now shelf.old a.now }
    requires table { IsTableOf shelf.old a.now table.now }
    requires initials { AreInitial g.now (automaton_of shelf.old a.now) track initials.now }
    requires spaces { AreSpaces g.now (subsets (automaton_of shelf.old a.now) track initials.now) numbers.old.items }
    requires seen { HaveSeen g.now (subsets (automaton_of shelf.old a.now) track initials.now) a.now growths.old.items }
    requires fits { FitAll track shelf.old joiners.old.items numbers.old.items }
    ensures goes { Goes g.now (subsets (automaton_of shelf.old a.now) track initials.now)
        shelf.old shelf.new numbers.old.items numbers.new.items }
    ensures limit { result ≡ Err Stop.Limit → LacksRoom g.now (subsets (automaton_of shelf.old a.now) track initials.now)
        shelf.old numbers.old.items numbers.new.items }
    ensures spaces { OnOk result (AreSpaces g.now (subsets (automaton_of shelf.old a.now) track initials.now) numbers.new.items) }
    ensures seen { OnOk result (HaveSeen g.now (subsets (automaton_of shelf.old a.now) track initials.now) a.now growths.new.items) }
    ensures fits { OnOk result (FitAll track shelf.new joiners.new.items numbers.new.items) }
{
    for space in 0..g.spaces() {
        let growth = &mut growths[space as usize];
        grow_space(
            alloc, g, a, table, track, initials, shelf, space, joiners, numbers, growth,
        )?;
    }
    Ok(())
}

/// Joins a space for what has come in its children: the new rows with all columns, and the earlier rows with the new ones.
#[allow(clippy::too_many_arguments)]
fn grow_space(
    alloc: Global,
    g: &Guide,
    a: &Auto,
    table: &[NodeRef],
    track: u32,
    initials: &[StateList],
    shelf: &mut Shelf,
    space: u32,
    joiners: &mut Vec<SetJoiner>,
    numbers: &mut Vec<Numbering>,
    growth: &mut Growth,
) -> Result<(), Stop>
    requires auto { IsAuto g.now shelf.old a.now }
    requires table { IsTableOf shelf.old a.now table.now }
    requires initials { AreInitial g.now (automaton_of shelf.old a.now) track initials.now }
    requires spaces { AreSpaces g.now (subsets (automaton_of shelf.old a.now) track initials.now) numbers.old.items }
    requires inside { space < length g.now }
    requires seen { HasSeen g.now (subsets (automaton_of shelf.old a.now) track initials.now) a.now space growth.old }
    requires fits { FitAll track shelf.old joiners.old.items numbers.old.items }
    ensures goes { Goes g.now (subsets (automaton_of shelf.old a.now) track initials.now)
        shelf.old shelf.new numbers.old.items numbers.new.items }
    ensures limit { result ≡ Err Stop.Limit → LacksRoom g.now (subsets (automaton_of shelf.old a.now) track initials.now)
        shelf.old numbers.old.items numbers.new.items }
    ensures spaces { OnOk result (AreSpaces g.now (subsets (automaton_of shelf.old a.now) track initials.now) numbers.new.items) }
    ensures seen { OnOk result (HasSeen g.now (subsets (automaton_of shelf.old a.now) track initials.now) a.now space growth.new) }
    ensures fits { OnOk result (FitAll track shelf.new joiners.new.items numbers.new.items) }
{
    let (rows, columns) = (growth.rows.ones.len(), growth.columns.ones.len());
    look_at(alloc, g, a, track, initials, shelf, space, numbers, growth)?;
    if exceeds(
        growth.rows.ones.len(),
        growth.columns.ones.len(),
        shelf.limit(),
    ) {
        return Err(Stop::Limit);
    }
    let (earlier, new) = parted(growth.rows.ones.as_slice(), rows);
    let all = growth.columns.ones.as_slice();
    join_sets(
        alloc, g, a, table, track, initials, shelf, space, new, all, joiners, numbers,
    )?;
    let (_, came) = parted(all, columns);
    join_sets(
        alloc, g, a, table, track, initials, shelf, space, earlier, came, joiners, numbers,
    )
}

/// Whether a table of so many rows and columns has too many roots for this limit of nodes.
fn exceeds(rows: usize, columns: usize, limit: u32) -> bool
    ensures { IsTrue result ↔ 16 * limit < rows * columns }
{
    rows as u128 * columns as u128 > CELLS_A_NODE as u128 * limit as u128
}

/// The first so many sets, and the others.
fn parted(sets: &[StateList], many: usize) -> (&[StateList], &[StateList])
    ensures first { (x : List ℕ) → Contains result.0.now x → Contains sets.now x }
    ensures others { (x : List ℕ) → Contains result.1.now x → Contains sets.now x }
{
    if many > sets.len() {
        return (sets, &[]);
    }
    (&sets[..many], &sets[many..])
}

/// Looks at the sets that have come in the children of a space.
fn look_at(
    alloc: Global,
    g: &Guide,
    a: &Auto,
    track: u32,
    _initials: &[StateList],
    shelf: &Shelf,
    space: u32,
    numbers: &Vec<Numbering>,
    growth: &mut Growth,
) -> Result<(), NoMemory>
    requires auto { IsAuto g.now shelf.now a.now }
    requires initials { AreInitial g.now (automaton_of shelf.now a.now) track _initials.now }
    requires spaces { AreSpaces g.now (subsets (automaton_of shelf.now a.now) track _initials.now) numbers.now.items }
    requires inside { space < length g.now }
    requires seen { HasSeen g.now (subsets (automaton_of shelf.now a.now) track _initials.now) a.now space growth.old }
    ensures { OnOk result (HasSeen g.now (subsets (automaton_of shelf.now a.now) track _initials.now) a.now space growth.new) }
{
    let at = space as usize;
    let children = g.children(space).unwrap_or((0, 0));
    let own = &a.parts()[at];
    let lefts = &numbers[children.0 as usize];
    growth.rows.look(alloc, lefts, own.rows.as_slice())?;
    let rights = &numbers[children.1 as usize];
    growth.columns.look(alloc, rights, own.columns.as_slice())
}

/// Joins a space for each of these rows with each of these columns.
#[allow(clippy::too_many_arguments)]
fn join_sets(
    alloc: Global,
    _g: &Guide,
    a: &Auto,
    table: &[NodeRef],
    track: u32,
    _initials: &[StateList],
    shelf: &mut Shelf,
    space: u32,
    rows: &[StateList],
    columns: &[StateList],
    joiners: &mut Vec<SetJoiner>,
    numbers: &mut Vec<Numbering>,
) -> Result<(), Stop>
    requires auto { IsAuto _g.now shelf.old a.now }
    requires table { IsTableOf shelf.old a.now table.now }
    requires initials { AreInitial _g.now (automaton_of shelf.old a.now) track _initials.now }
    requires spaces { AreSpaces _g.now (subsets (automaton_of shelf.old a.now) track _initials.now) numbers.old.items }
    requires inside { space < length _g.now }
    requires rows { AreGenerated _g.now (subsets (automaton_of shelf.old a.now) track _initials.now) (left _g.now space) rows.now }
    requires columns { AreGenerated _g.now (subsets (automaton_of shelf.old a.now) track _initials.now) (right _g.now space) columns.now }
    requires fits { FitAll track shelf.old joiners.old.items numbers.old.items }
    ensures goes { Goes _g.now (subsets (automaton_of shelf.old a.now) track _initials.now)
        shelf.old shelf.new numbers.old.items numbers.new.items }
    ensures limit { result ≡ Err Stop.Limit → LacksRoom _g.now (subsets (automaton_of shelf.old a.now) track _initials.now)
        shelf.old numbers.old.items numbers.new.items }
    ensures spaces { AreSpaces _g.now (subsets (automaton_of shelf.old a.now) track _initials.now) numbers.new.items }
    ensures fits { OnOk result (FitAll track shelf.new joiners.new.items numbers.new.items) }
{
    if rows.is_empty() || columns.is_empty() {
        return Ok(());
    }
    let at = space as usize;
    let mut roots = RefList::new(alloc);
    fill(
        alloc,
        a,
        table,
        track,
        shelf,
        space,
        rows,
        columns,
        &mut joiners[at],
        &mut numbers[at],
        &mut roots,
    )
}

/// How many sets each space has.
pub(crate) fn counts(alloc: Global, spaces: &Vec<Numbering>) -> Result<Items<u64>, NoMemory>
    ensures { IfOk result (λ counts. counts ≡ map length spaces.now.items) }
{
    let mut counts = Items::new(alloc);
    for numbers in spaces {
        counts.push(numbers.len() as u64)?;
    }
    Ok(counts)
}

/// Whether the counts are the same.
pub(crate) fn are_same(one: &Items<u64>, other: &Items<u64>) -> bool
    ensures { IsTrue result ↔ other.now ≡ one.now }
{
    one.as_slice() == other.as_slice()
}
