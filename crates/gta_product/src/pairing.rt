//! The product: pairs of states, as they are reached.

ghost use Rattle.std.specs.List.{range_with_len};
ghost use Rattle.std.specs.Prelude.{◌≡◌, ◌<◌, ◌≤◌, ◌+◌, ◌^◌, ◌&&◌, ◌++◌, ℕ, Bool, List, [], length, map, Some, Err, slice_get, IfOk, OnOk, OnErr, ◌↔◌};
ghost use Rattle.bdd_nodes.specs.Shelf.{Contents, IsShelf, count_of, limit_of};
ghost use Rattle.bdd_nodes.specs.Changes.{Keeps, SameTables};
ghost use Rattle.gta_theory.specs.Assignments.{Assignment};
ghost use Rattle.gta_theory.specs.Guides.{IsGuide};
ghost use Rattle.gta_theory.specs.Automata.{Automaton, Accepts, Has};
ghost use Rattle.gta_theory.specs.Constructions.{IsProduct, pairs};
ghost use Rattle.gta_theory.specs.Sizes.{SizeOf};
ghost use Rattle.gta_core.specs.Auto.{AutoView, states_of, initial_of, is_accepting, automaton_of, IsAuto};
ghost use Rattle.gta_core.specs.Changes.{RegistersTable};
ghost use Rattle.gta_product.specs.Product.{IsProductOf};
ghost use Rattle.gta_product.specs.Tables.{AreTables};
ghost use Rattle.gta_product.specs.Filling.{row_by_row};
ghost use Rattle.gta_product.specs.Building.{AreSpaces, FitAll, AreParts, Leaves, Exceeded};
ghost use Rattle.gta_product.specs.Growing.{AreDone};
ghost use Rattle.gta_product.specs.Settled.{IsAssembled, IsSettled};
ghost use Rattle.gta_product.specs.declared.growing.Growth.{Growth};

use crate::growing::{Growth, grow, growths};
use crate::numbering::Numbering;
use crate::tables::Tables;
use bdd_nodes::{NodeRef, RefList, Shelf};
use bdd_walk::{Joiner, NoMemory, Stop};
use gta_core::{Auto, BoolList, Part};
use plain_data::Items;
use std::alloc::{AllocError, Global};
use std::mem::replace;
use ws2s_core::Guide;

/// The automaton of pairs of states, which accepts what both accept. Its states are exactly the pairs that are reached.
///
/// # Errors
///
/// `Limit` only where the nodes at the call and the Size of the product are more than the limit: where the shelf has no
/// room for a node, or where the table of a space gets more than 16 roots for each node of the limit. Each root is for a
/// pair of child states of its own, and the Size counts those. Want of memory, also where a space has more pairs than
/// there are state numbers, or the roots are more than a `u32` counts. After a stop no table is left.
pub fn product(
    alloc: Global,
    g: &Guide,
    a: &Auto,
    b: &Auto,
    shelf: &mut Shelf,
) -> Result<Auto, Stop>
    requires first { IsAuto g.now shelf.old a.now }
    requires second { IsAuto g.now shelf.old b.now }

    // The result.
    ensures auto { IfOk result (IsAuto g.now shelf.new) }
    ensures product { IfOk result (λ c. IsProductOf g.now (automaton_of shelf.old a.now) (automaton_of shelf.old b.now)
        (automaton_of shelf.new c) (states_of c)) }
    ensures accepts { IfOk result (λ c. (assignment : Assignment) → Accepts g.now (automaton_of shelf.new c) assignment
        ↔ (Accepts g.now (automaton_of shelf.old a.now) assignment × Accepts g.now (automaton_of shelf.old b.now) assignment)) }
    ensures table { IfOk result (λ c. RegistersTable shelf.old shelf.new c.table) }
    ensures limit { result ≡ Err Stop.Limit → (C : Automaton ℕ) (states : ℕ → ℕ → Bool) (pair : ℕ → ℕ → ℕ × ℕ) (size : ℕ) →
        IsProduct g.now (automaton_of shelf.old a.now) (automaton_of shelf.old b.now) C (Has states) pair →
        SizeOf g.now C (Has states) size → limit_of shelf.old < count_of shelf.old + size }

    // What the call leaves, whatever it answers.
    ensures kept { Keeps shelf.old shelf.new }
    ensures tables { OnErr result (SameTables shelf.old shelf.new) }
    ensures same_limit { limit_of shelf.new ≡ limit_of shelf.old }
    ensures shelf { IsShelf shelf.new }
{
    let tables = Tables::read(alloc, a, b, shelf)?;
    let settled = settle(alloc, g, a, b, &tables, shelf)?;
    let Settled {
        numbers,
        parts,
        roots,
    } = settled;
    let accepting = accepting(alloc, a, b, numbers[0].as_slice())?;
    let made = Auto::from_parts(parts, accepting, roots, shelf)?;
    Ok(made)
}

/// The pairs of all spaces, of which no more come, and the parts and roots for them.
#[derive(Drop)]
pub(crate) struct Settled {
    pub(crate) numbers: Vec<Numbering>,
    pub(crate) parts: Items<Part>,
    pub(crate) roots: RefList,
}

/// Joins for the pairs as they come, until none comes. What the spaces were joined for then are the parts.
fn settle(
    alloc: Global,
    g: &Guide,
    a: &Auto,
    b: &Auto,
    tables: &Tables,
    shelf: &mut Shelf,
) -> Result<Settled, Stop>
    requires first { IsAuto g.now shelf.old a.now }
    requires second { IsAuto g.now shelf.old b.now }
    requires tables { AreTables shelf.old a.now b.now tables.now }
    ensures leaves { Leaves shelf.old shelf.new }
    ensures limit { result ≡ Err Stop.Limit →
        Exceeded g.now (pairs (automaton_of shelf.old a.now) (automaton_of shelf.old b.now)) shelf.old }
    ensures settled { IfOk result (IsSettled g.now (pairs (automaton_of shelf.old a.now) (automaton_of shelf.old b.now)) a.now b.now shelf.old shelf.new) }
    ensures guide { IsGuide g.now }
{
    let mut numbers = start(alloc, g, a, b)?;
    let mut joiners = joiners(alloc, g)?;
    let mut growths = growths(alloc, g, a, b)?;
    grow(
        alloc,
        g,
        a,
        b,
        tables,
        shelf,
        &mut joiners,
        &mut numbers,
        &mut growths,
    )?;
    let mut roots = RefList::new(alloc);
    let parts = parts_of(alloc, g, &numbers, &mut growths, &mut roots)?;
    Ok(Settled {
        numbers,
        parts,
        roots,
    })
}

/// The initial pair of each space.
fn start(alloc: Global, g: &Guide, a: &Auto, b: &Auto) -> Result<Vec<Numbering>, NoMemory>
    ensures spaces { IfOk result (λ spaces. (shelf : Contents) →
        AreSpaces g.now (pairs (automaton_of shelf a.now) (automaton_of shelf b.now)) spaces.items) }
    ensures guide { IsGuide g.now }
{
    let mut spaces = Vec::with_capacity(alloc, g.spaces() as usize)?;
    for space in 0..g.spaces() {
        let mut numbers = Numbering::new(alloc, states(a, space).max(states(b, space)))?;
        numbers.number((initial(a, space), initial(b, space)))?;
        spaces.push(numbers)?;
    }
    Ok(spaces)
}

/// The initial state of a space; 0 for an unknown one.
fn initial(a: &Auto, space: u32) -> u32
    ensures { result ≡ initial_of a.now space }
{
    match a.parts().get(space as usize) {
        Some(part) => part.initial,
        None => 0,
    }
}

/// How many states a space has; 0 for an unknown one.
fn states(a: &Auto, space: u32) -> usize {
    match a.parts().get(space as usize) {
        Some(part) => part.states as usize,
        None => 0,
    }
}

/// A joiner for each space.
fn joiners(alloc: Global, g: &Guide) -> Result<Vec<Joiner>, NoMemory>
    ensures { IfOk result (λ joiners. (shelf : Contents) (spaces : List (List (ℕ × ℕ))) → length spaces ≡ length g.now →
        FitAll shelf joiners.items spaces) }
{
    let mut joiners = Vec::with_capacity(alloc, g.spaces() as usize)?;
    for _space in 0..g.spaces() {
        joiners.push(Joiner::new(alloc))?;
    }
    Ok(joiners)
}

/// Which pairs of space 0 are accepting: those of two accepting states.
fn accepting(alloc: Global, a: &Auto, b: &Auto, pairs: &[(u32, u32)]) -> Result<BoolList, NoMemory>
    ensures { IfOk result (λ flags. flags ≡ map (λ pair. is_accepting a.now pair.0 && is_accepting b.now pair.1) pairs.now) }
{
    let mut accepting = BoolList::from_vec(Vec::with_capacity(alloc, pairs.len())?);
    for pair in pairs {
        accepting.push(are_accepting(a, b, *pair))?;
    }
    Ok(accepting)
}

/// Whether both states of a pair are accepting.
fn are_accepting(a: &Auto, b: &Auto, pair: (u32, u32)) -> bool
    ensures { result ≡ (is_accepting a.now pair.0 && is_accepting b.now pair.1) }
{
    if is_accepting_in(a, pair.0) {
        return is_accepting_in(b, pair.1);
    }
    false
}

/// Whether a state of space 0 is accepting; an unknown one isn't.
fn is_accepting_in(a: &Auto, state: u32) -> bool
    ensures { result ≡ is_accepting a.now state }
{
    match a.accepting(state) {
        Some(flag) => flag,
        None => false,
    }
}

/// The parts of all spaces, of what each was joined for, and their roots. The classes of pairs go into the parts.
fn parts_of(
    alloc: Global,
    g: &Guide,
    numbers: &Vec<Numbering>,
    growths: &mut Vec<Growth>,
    roots: &mut RefList,
) -> Result<Items<Part>, NoMemory>
    requires numbers { length numbers.now.items ≡ length g.now }
    requires growths { length growths.old.items ≡ length g.now }
    requires few { (s : ℕ) (growth : Growth) → slice_get growths.old.items s ≡ Some growth → length growth.columns.ones ≤ 2 ^ 31 }
    requires none { roots.old ≡ [] }
    ensures many { IfOk result (λ parts. length parts ≡ length g.now) }
    ensures parts { IfOk result (λ parts. (AB : Automaton (ℕ × ℕ)) (a b : AutoView) (shelf : Contents) →
        AreDone g.now AB a b numbers.now.items shelf growths.old.items → AreParts g.now AB a b numbers.now.items shelf roots.new parts) }
{
    let mut parts = Items::new(alloc);
    for space in 0..g.spaces() {
        let at = space as usize;
        let part = part_of(alloc, g, space, &numbers[at], &mut growths[at], roots)?;
        parts.push(part)?;
    }
    Ok(parts)
}

/// The numbers, of which none are left.
fn take(alloc: Global, numbers: &mut Items<u32>) -> Items<u32>
    ensures { result ≡ numbers.old }
{
    replace(numbers, Items::new(alloc))
}

/// The part of a space, of what it was joined for; its roots are put behind the others. The classes of pairs go into it.
fn part_of(
    alloc: Global,
    g: &Guide,
    space: u32,
    numbers: &Numbering,
    growth: &mut Growth,
    roots: &mut RefList,
) -> Result<Part, NoMemory>
    requires inside { space < length g.now }
    requires few { length growth.old.columns.ones ≤ 2 ^ 31 }
    ensures roots { OnOk result (roots.new ≡ roots.old ++ row_by_row growth.old.cells.items) }
    ensures part { IfOk result (IsAssembled g.now space numbers.now growth.old roots.old) }
{
    let children = g.children(space).unwrap_or((0, 0));
    if roots.len() > u32::MAX as usize {
        return Err(AllocError);
    }
    let first = roots.len() as u32;
    add_roots(&growth.cells, roots)?;
    let many = roots.len() - first as usize;
    let cells = count_up(alloc, many)?;
    let rows = take(alloc, &mut growth.rows.of);
    let columns = take(alloc, &mut growth.columns.of);
    Ok(Part {
        states: numbers.len() as u32,
        initial: 0,
        children,
        first,
        rows,
        columns,
        width: growth.columns.ones.len() as u32,
        cells,
    })
}

/// Puts the roots of all rows behind the others, row after row.
fn add_roots(cells: &Vec<RefList>, roots: &mut RefList) -> Result<(), NoMemory>
    ensures { OnOk result (roots.new ≡ roots.old ++ row_by_row cells.now.items) }
{
    for row in cells {
        add_row(row.as_slice(), roots)?;
    }
    Ok(())
}

/// Puts the roots of a row behind the others.
fn add_row(row: &[NodeRef], roots: &mut RefList) -> Result<(), NoMemory>
    ensures { OnOk result (roots.new ≡ roots.old ++ row.now) }
{
    for root in row {
        roots.push(*root)?;
    }
    Ok(())
}

/// The numbers below.
fn count_up(alloc: Global, many: usize) -> Result<Items<u32>, NoMemory>
    ensures { IfOk result (λ numbers. numbers ≡ range_with_len 0 many) }
{
    if many > u32::MAX as usize {
        return Err(AllocError);
    }
    let mut numbers = Items::from_vec(Vec::with_capacity(alloc, many)?);
    for number in 0..many as u32 {
        numbers.push(number)?;
    }
    Ok(numbers)
}
