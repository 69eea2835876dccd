//! Lightest trees of chains: automata with many states.

ghost use Rattle.std.specs.Prelude.{◌≡◌, ◌<◌, ◌≤◌, ◌*◌, [], ◌∷◌, IfOk, length};
ghost use Rattle.gta_core.specs.Auto.{IsAuto};

use crate::chain::chain;
use crate::grid::grid;
use crate::lines::{number_of, word_at, write_unknown};
use crate::looks::write_lightest;
use bdd_nodes::Shelf;
use bdd_walk::Stop;
use gta_core::{Auto, BoolList};
use plain_data::Items;
use plain_writer::Writer;
use std::alloc::{AllocError, Global};
use ws2s_core::Guide;

/// Only the last of so many states accepts.
fn last_accepts(alloc: Global, states: u32) -> Result<BoolList, AllocError>
    requires { 0 < states }
    ensures { IfOk result (λ accepting. length accepting ≡ states) }
{
    let mut accepting = vec![in alloc; false; states as usize]?;
    accepting[states as usize - 1] = true;
    Ok(Items::from_vec(accepting))
}

/// A chain in a grid, whose last state alone accepts.
fn chain_in_grid(alloc: Global, rows: u32, columns: u32, shelf: &mut Shelf) -> Result<Auto, Stop>
    requires some { 0 < rows * columns }
    requires columns { 0 < columns }
    requires few { rows * columns ≤ 1000000 }
    ensures { IfOk result (IsAuto ((0, 0) ∷ []) shelf.new) }
{
    let states = rows * columns;
    let functions = chain(alloc, states, shelf)?;
    let accepting = last_accepts(alloc, states)?;
    Ok(grid(alloc, rows, columns, functions, accepting, shelf)?)
}

/// Writes the lightest tree of a chain in a grid.
fn write_chain(
    alloc: Global,
    rows: u32,
    columns: u32,
    word: &str,
    out: &mut Writer,
) -> Result<(), Stop>
    requires some { 0 < rows * columns }
    requires columns { 0 < columns }
    requires few { rows * columns ≤ 1000000 }
{
    let mut shelf = Shelf::open(alloc, 200_000)?;
    let a = chain_in_grid(alloc, rows, columns, &mut shelf)?;
    write_lightest_over_one(alloc, &a, &shelf, word, out)
}

/// Writes the lightest tree of an automaton over the plain guide.
fn write_lightest_over_one(
    alloc: Global,
    a: &Auto,
    shelf: &Shelf,
    word: &str,
    out: &mut Writer,
) -> Result<(), Stop>
    requires { IsAuto ((0, 0) ∷ []) shelf.now a.now }
{
    let g = Guide::plain(alloc)?;
    Ok(write_lightest(alloc, &g, a, shelf, word, out)?)
}

/// Writes the lightest tree of a chain: a line has the number of rows, that of columns, and `least` with tracks.
pub(crate) fn answer_chain(alloc: Global, line: &str, out: &mut Writer) -> Result<(), Stop> {
    let rows = number_of(word_at(line, 0));
    let columns = number_of(word_at(line, 1));
    if rows == 0 || rows > 999_999 || columns == 0 || columns > 1_000_000 / rows {
        write_unknown(out);
        return Ok(());
    }
    write_chain(alloc, rows, columns, word_at(line, 2), out)
}
