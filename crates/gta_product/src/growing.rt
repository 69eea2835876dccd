//! The pairs that come: a space is joined for the classes of its children's pairs that weren't joined yet.

ghost use Rattle.std.specs.Prelude.{◌≡◌, ◌<◌, ◌≤◌, ◌*◌, ◌⊎◌, ℕ, List, [], length, map, Err, IfOk, OnOk, IsTrue, ◌↔◌, slice_get, Some};
ghost use Rattle.bdd_nodes.specs.declared.node_ref.NodeRef.{NodeRef};
ghost use Rattle.bdd_nodes.specs.Shelf.{Contents};
ghost use Rattle.gta_theory.specs.Automata.{Automaton};
ghost use Rattle.gta_theory.specs.Constructions.{pairs};
ghost use Rattle.gta_theory.specs.Guides.{IsGuide, left, right};
ghost use Rattle.gta_core.specs.Auto.{AutoView, automaton_of, IsAuto};
ghost use Rattle.gta_product.specs.Tables.{AreTables};
ghost use Rattle.gta_product.specs.Building.{AreSpaces, FitAll};
ghost use Rattle.gta_product.specs.Growing.{AreGenerated, HasRows, HasSeen, HasAll, HaveAll, IsNew, IsGrown, AreGrown, Goes, LacksRoom};

use crate::classes::Classes;
use crate::filling::fill;
use crate::numbering::Numbering;
use crate::tables::Tables;
use bdd_nodes::{RefList, Shelf};
use bdd_walk::{Joiner, NoMemory, Stop};
use gta_core::{Auto, Part};
use plain_data::Items;
use std::alloc::Global;
use ws2s_core::Guide;

/// The most roots that the table of a space may have for each node of the shelf's limit: they stand outside the shelf.
const CELLS_A_NODE: u64 = 16;

/// What a space was joined for so far.
#[derive(Drop)]
pub(crate) struct Growth {
    /// The classes of the left child's pairs.
    pub(crate) rows: Classes,
    /// The classes of the right child's pairs.
    pub(crate) columns: Classes,
    /// For each class of rows its roots, one for each class of columns.
    pub(crate) cells: Vec<RefList>,
}

impl Growth {
    /// For nothing, with room for as many as either automaton has.
    fn new(alloc: Global, first: Sizes, second: Sizes) -> Result<Growth, NoMemory>
        ensures { IfOk result IsNew }
    {
        let lefts = first.lefts.max(second.lefts);
        let many_rows = first.rows.max(second.rows);
        let rows = Classes::new(alloc, lefts, many_rows)?;
        let rights = first.rights.max(second.rights);
        let many_columns = first.columns.max(second.columns);
        let columns = Classes::new(alloc, rights, many_columns)?;
        let cells = Vec::with_capacity(alloc, many_rows)?;
        Ok(Growth {
            rows,
            columns,
            cells,
        })
    }
}

/// How many child states a space has, and rows and columns.
#[derive(Clone, Copy, Debug)]
struct Sizes {
    lefts: usize,
    rights: usize,
    rows: usize,
    columns: usize,
}

/// How many rows a part has.
fn rows_of(part: &Part) -> usize {
    if part.width == 0 {
        return 0;
    }
    part.cells.len() / part.width as usize
}

/// The sizes of a space; of an unknown one all are 0.
fn sizes_in(a: &Auto, space: u32) -> Sizes {
    match a.parts().get(space as usize) {
        Some(part) => Sizes {
            lefts: part.rows.len(),
            rights: part.columns.len(),
            rows: rows_of(part),
            columns: part.width as usize,
        },
        None => Sizes {
            lefts: 0,
            rights: 0,
            rows: 0,
            columns: 0,
        },
    }
}

/// Nothing was looked at in any space. A product has as many pairs as either automaton has states, where all are reached.
pub(crate) fn growths(alloc: Global, g: &Guide, a: &Auto, b: &Auto) -> Result<Vec<Growth>, NoMemory>
    ensures { IfOk result (λ growths. (AB : Automaton (ℕ × ℕ)) (a b : AutoView) (spaces : List (List (ℕ × ℕ))) (shelf : Contents) →
        AreGrown g.now AB a b spaces shelf growths.items) }
{
    let mut growths = Vec::with_capacity(alloc, g.spaces() as usize)?;
    for space in 0..g.spaces() {
        let growth = Growth::new(alloc, sizes_in(a, space), sizes_in(b, space))?;
        growths.push(growth)?;
    }
    Ok(growths)
}

/// Joins for what has come, space after space, until nothing comes.
#[allow(clippy::too_many_arguments)]
pub(crate) fn grow(
    alloc: Global,
    g: &Guide,
    a: &Auto,
    b: &Auto,
    tables: &Tables,
    shelf: &mut Shelf,
    joiners: &mut Vec<Joiner>,
    numbers: &mut Vec<Numbering>,
    growths: &mut Vec<Growth>,
) -> Result<(), Stop>
    requires first { IsAuto g.now shelf.old a.now }
    requires second { IsAuto g.now shelf.old b.now }
    requires tables { AreTables shelf.old a.now b.now tables.now }
    requires spaces { AreSpaces g.now (pairs (automaton_of shelf.old a.now) (automaton_of shelf.old b.now)) numbers.old.items }
    requires grown { AreGrown g.now (pairs (automaton_of shelf.old a.now) (automaton_of shelf.old b.now)) a.now b.now
        numbers.old.items shelf.old growths.old.items }
    requires fits { FitAll shelf.old joiners.old.items numbers.old.items }
    ensures goes { Goes g.now (pairs (automaton_of shelf.old a.now) (automaton_of shelf.old b.now))
        shelf.old shelf.new numbers.old.items numbers.new.items }
    ensures limit { result ≡ Err Stop.Limit → LacksRoom g.now (pairs (automaton_of shelf.old a.now) (automaton_of shelf.old b.now))
        shelf.old numbers.old.items numbers.new.items }
    ensures spaces { OnOk result (AreSpaces g.now (pairs (automaton_of shelf.old a.now) (automaton_of shelf.old b.now)) numbers.new.items) }
    ensures grown { OnOk result (AreGrown g.now (pairs (automaton_of shelf.old a.now) (automaton_of shelf.old b.now)) a.now b.now
        numbers.new.items shelf.new growths.new.items) }
    ensures all { OnOk result (HaveAll g.now numbers.new.items growths.new.items) }
    ensures fits { OnOk result (FitAll shelf.new joiners.new.items numbers.new.items) }
{
    loop {
        let before = counts(alloc, numbers)?;
        grow_once(alloc, g, a, b, tables, shelf, joiners, numbers, growths)?;
        let after = counts(alloc, numbers)?;
        if are_same(&before, &after) {
            return Ok(());
        }
    }
}

/// Joins for what has come, once in each space.
#[allow(clippy::too_many_arguments)]
fn grow_once(
    alloc: Global,
    g: &Guide,
    a: &Auto,
    b: &Auto,
    tables: &Tables,
    shelf: &mut Shelf,
    joiners: &mut Vec<Joiner>,
    numbers: &mut Vec<Numbering>,
    growths: &mut Vec<Growth>,
) -> Result<(), Stop>
    requires first { IsAuto g.now shelf.old a.now }
    requires second { IsAuto g.now shelf.old b.now }
    requires tables { AreTables shelf.old a.now b.now tables.now }
    requires spaces { AreSpaces g.now (pairs (automaton_of shelf.old a.now) (automaton_of shelf.old b.now)) numbers.old.items }
    requires grown { AreGrown g.now (pairs (automaton_of shelf.old a.now) (automaton_of shelf.old b.now)) a.now b.now
        numbers.old.items shelf.old growths.old.items }
    requires fits { FitAll shelf.old joiners.old.items numbers.old.items }
    ensures goes { Goes g.now (pairs (automaton_of shelf.old a.now) (automaton_of shelf.old b.now))
        shelf.old shelf.new numbers.old.items numbers.new.items }
    ensures limit { result ≡ Err Stop.Limit → LacksRoom g.now (pairs (automaton_of shelf.old a.now) (automaton_of shelf.old b.now))
        shelf.old numbers.old.items numbers.new.items }
    ensures spaces { OnOk result (AreSpaces g.now (pairs (automaton_of shelf.old a.now) (automaton_of shelf.old b.now)) numbers.new.items) }
    ensures grown { OnOk result (AreGrown g.now (pairs (automaton_of shelf.old a.now) (automaton_of shelf.old b.now)) a.now b.now
        numbers.new.items shelf.new growths.new.items) }
    ensures all { OnOk result (HaveAll g.now numbers.old.items growths.new.items) }
    ensures fits { OnOk result (FitAll shelf.new joiners.new.items numbers.new.items) }
{
    for space in 0..g.spaces() {
        let growth = &mut growths[space as usize];
        grow_space(
            alloc, g, a, b, tables, shelf, space, joiners, numbers, growth,
        )?;
    }
    Ok(())
}

/// Joins a space for what has come in its children: the new rows with all columns, and then the earlier rows with the new ones.
/// Stops before that where the space's table would have too many roots.
#[allow(clippy::too_many_arguments)]
fn grow_space(
    alloc: Global,
    g: &Guide,
    a: &Auto,
    b: &Auto,
    tables: &Tables,
    shelf: &mut Shelf,
    space: u32,
    joiners: &mut Vec<Joiner>,
    numbers: &mut Vec<Numbering>,
    growth: &mut Growth,
) -> Result<(), Stop>
    requires first { IsAuto g.now shelf.old a.now }
    requires second { IsAuto g.now shelf.old b.now }
    requires tables { AreTables shelf.old a.now b.now tables.now }
    requires spaces { AreSpaces g.now (pairs (automaton_of shelf.old a.now) (automaton_of shelf.old b.now)) numbers.old.items }
    requires inside { space < length g.now }
    requires grown { IsGrown g.now (pairs (automaton_of shelf.old a.now) (automaton_of shelf.old b.now)) a.now b.now
        numbers.old.items shelf.old space growth.old }
    requires fits { FitAll shelf.old joiners.old.items numbers.old.items }
    ensures goes { Goes g.now (pairs (automaton_of shelf.old a.now) (automaton_of shelf.old b.now))
        shelf.old shelf.new numbers.old.items numbers.new.items }
    ensures limit { result ≡ Err Stop.Limit → LacksRoom g.now (pairs (automaton_of shelf.old a.now) (automaton_of shelf.old b.now))
        shelf.old numbers.old.items numbers.new.items }
    ensures spaces { OnOk result (AreSpaces g.now (pairs (automaton_of shelf.old a.now) (automaton_of shelf.old b.now)) numbers.new.items) }
    ensures grown { OnOk result (IsGrown g.now (pairs (automaton_of shelf.old a.now) (automaton_of shelf.old b.now)) a.now b.now
        numbers.new.items shelf.new space growth.new) }
    ensures all { OnOk result (HasAll g.now numbers.old.items space growth.new.rows growth.new.columns) }
    ensures fits { OnOk result (FitAll shelf.new joiners.new.items numbers.new.items) }
{
    let earlier = growth.rows.ones.len();
    look_at(alloc, g, a, b, shelf, space, numbers, growth)?;
    if exceeds(
        growth.rows.ones.len(),
        growth.columns.ones.len(),
        tables.limit,
    ) {
        return Err(Stop::Limit);
    }
    join_rows(
        alloc,
        g,
        a,
        b,
        tables,
        shelf,
        space,
        &growth.rows,
        &growth.columns,
        earlier,
        joiners,
        numbers,
        &mut growth.cells,
    )?;
    join_rows(
        alloc,
        g,
        a,
        b,
        tables,
        shelf,
        space,
        &growth.rows,
        &growth.columns,
        0,
        joiners,
        numbers,
        &mut growth.cells,
    )
}

/// Whether a table of so many rows and columns has too many roots for this limit of nodes.
fn exceeds(rows: usize, columns: usize, limit: u32) -> bool
    ensures { IsTrue result ↔ 16 * limit < rows * columns }
{
    rows as u128 * columns as u128 > CELLS_A_NODE as u128 * limit as u128
}

/// Looks at the pairs that have come in the children of a space, and has a row for each class, without roots where it is new.
#[allow(clippy::too_many_arguments)]
fn look_at(
    alloc: Global,
    g: &Guide,
    a: &Auto,
    b: &Auto,
    shelf: &Shelf,
    space: u32,
    numbers: &Vec<Numbering>,
    growth: &mut Growth,
) -> Result<(), NoMemory>
    requires first { IsAuto g.now shelf.now a.now }
    requires second { IsAuto g.now shelf.now b.now }
    requires spaces { AreSpaces g.now (pairs (automaton_of shelf.now a.now) (automaton_of shelf.now b.now)) numbers.now.items }
    requires inside { space < length g.now }
    requires grown { IsGrown g.now (pairs (automaton_of shelf.now a.now) (automaton_of shelf.now b.now)) a.now b.now
        numbers.now.items shelf.now space growth.old }
    ensures seen { OnOk result (HasSeen g.now (pairs (automaton_of shelf.now a.now) (automaton_of shelf.now b.now)) a.now b.now
        numbers.now.items space growth.new.rows growth.new.columns) }
    ensures all { OnOk result (HasAll g.now numbers.now.items space growth.new.rows growth.new.columns) }
    ensures rows { OnOk result (HasRows (pairs (automaton_of shelf.now a.now) (automaton_of shelf.now b.now)) numbers.now.items shelf.now space
        growth.new.rows.ones growth.new.columns.ones (length growth.new.rows.ones) growth.new.cells.items) }
    ensures guide { IsGuide g.now }
{
    let at = space as usize;
    let children = g.children(space).unwrap_or((0, 0));
    let (first, second) = (&a.parts()[at], &b.parts()[at]);
    let lefts = numbers[children.0 as usize].as_slice();
    growth
        .rows
        .look(lefts, first.rows.as_slice(), second.rows.as_slice())?;
    let rights = numbers[children.1 as usize].as_slice();
    growth.columns.look(rights, first.columns.as_slice(), second.columns.as_slice())?;
    add_rows(
        alloc,
        growth.rows.ones.len(),
        growth.columns.ones.len(),
        &mut growth.cells,
    )?;
    Ok(())
}

/// Rows without roots, with room for so many, until there are so many rows.
fn add_rows(
    alloc: Global,
    many: usize,
    columns: usize,
    cells: &mut Vec<RefList>,
) -> Result<(), NoMemory>
    requires { length cells.old.items ≤ many }
    ensures many { OnOk result (length cells.new.items ≡ many) }
    ensures rows { OnOk result ((i : ℕ) (roots : List NodeRef) → slice_get cells.new.items i ≡ Some roots →
        (slice_get cells.old.items i ≡ Some roots) ⊎ (roots ≡ [])) }
{
    for _row in cells.len()..many {
        let roots = Vec::with_capacity(alloc, columns)?;
        cells.push(RefList::from_vec(roots))?;
    }
    Ok(())
}

/// Joins a space for its rows from one on, each with the columns that it has no root for.
#[allow(clippy::too_many_arguments)]
fn join_rows(
    alloc: Global,
    _g: &Guide,
    a: &Auto,
    b: &Auto,
    tables: &Tables,
    shelf: &mut Shelf,
    space: u32,
    rows: &Classes,
    columns: &Classes,
    from: usize,
    joiners: &mut Vec<Joiner>,
    numbers: &mut Vec<Numbering>,
    cells: &mut Vec<RefList>,
) -> Result<(), Stop>
    requires first { IsAuto _g.now shelf.old a.now }
    requires second { IsAuto _g.now shelf.old b.now }
    requires tables { AreTables shelf.old a.now b.now tables.now }
    requires spaces { AreSpaces _g.now (pairs (automaton_of shelf.old a.now) (automaton_of shelf.old b.now)) numbers.old.items }
    requires inside { space < length _g.now }
    requires rows { AreGenerated _g.now (pairs (automaton_of shelf.old a.now) (automaton_of shelf.old b.now)) (left _g.now space) rows.now.ones }
    requires columns { AreGenerated _g.now (pairs (automaton_of shelf.old a.now) (automaton_of shelf.old b.now)) (right _g.now space) columns.now.ones }
    requires cells { HasRows (pairs (automaton_of shelf.old a.now) (automaton_of shelf.old b.now)) numbers.old.items shelf.old space
        rows.now.ones columns.now.ones (length rows.now.ones) cells.old.items }
    requires fits { FitAll shelf.old joiners.old.items numbers.old.items }
    ensures goes { Goes _g.now (pairs (automaton_of shelf.old a.now) (automaton_of shelf.old b.now))
        shelf.old shelf.new numbers.old.items numbers.new.items }
    ensures limit { result ≡ Err Stop.Limit → LacksRoom _g.now (pairs (automaton_of shelf.old a.now) (automaton_of shelf.old b.now))
        shelf.old numbers.old.items numbers.new.items }
    ensures spaces { AreSpaces _g.now (pairs (automaton_of shelf.old a.now) (automaton_of shelf.old b.now)) numbers.new.items }
    ensures cells { OnOk result (HasRows (pairs (automaton_of shelf.old a.now) (automaton_of shelf.old b.now)) numbers.new.items shelf.new space
        rows.now.ones columns.now.ones from cells.new.items) }
    ensures fits { OnOk result (FitAll shelf.new joiners.new.items numbers.new.items) }
{
    let at = space as usize;
    fill(
        alloc,
        a,
        b,
        tables,
        shelf,
        space,
        rows.ones.as_slice(),
        columns.ones.as_slice(),
        from,
        &mut joiners[at],
        &mut numbers[at],
        cells,
    )
}

/// How many pairs each space has.
fn counts(alloc: Global, spaces: &Vec<Numbering>) -> Result<Items<u64>, NoMemory>
    ensures { IfOk result (λ counts. counts ≡ map length spaces.now.items) }
{
    let mut counts = Items::from_vec(Vec::with_capacity(alloc, spaces.len())?);
    for numbers in spaces {
        counts.push(numbers.len() as u64)?;
    }
    Ok(counts)
}

/// Whether the counts are the same.
fn are_same(one: &Items<u64>, other: &Items<u64>) -> bool
    ensures { IsTrue result ↔ other.now ≡ one.now }
{
    one.as_slice() == other.as_slice()
}
