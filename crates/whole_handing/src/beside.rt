//! The cells of two stores beside each other.

ghost use Rattle.std.specs.Prelude.{◌≡◌, ◌++◌, max, IfOk};
ghost use Rattle.std.specs.FinMap.{entries, from_entries};
ghost use Rattle.whole_handing.specs.Beside.{AreApart, IsSmaller, IsNext, AreAll};

use plain_data::Items;
use std::alloc::{AllocError, Global};
use store_core::{CellBody, Store, Value};

/// A cell of one of two stores.
#[derive(Clone, Copy)]
pub(crate) enum Which<'a> {
    First(&'a CellBody),
    Second(&'a CellBody),
}

/// Of two cells the one with the smaller number.
fn smaller<'a>(first: &'a CellBody, second: &'a CellBody) -> Which<'a>
    ensures { IsSmaller first.now second.now result }
{
    if first.number < second.number {
        Which::First(first)
    } else {
        Which::Second(second)
    }
}

/// Of the cells from these places on the one with the smallest number. `None` where both stores are at their ends.
fn next_cell<'a>(one: &'a Store, other: &'a Store, i: usize, j: usize) -> Option<Which<'a>>
    ensures { IsNext one.now other.now i j result }
{
    match one.body_at(i) {
        Some(first) => match other.body_at(j) {
            Some(second) => Some(smaller(first, second)),
            None => Some(Which::First(first)),
        },
        None => match other.body_at(j) {
            Some(last) => Some(Which::Second(last)),
            None => None,
        },
    }
}

/// Copies of the live cells of two stores, by rising number. No number is one of both.
fn all_cells(alloc: Global, one: &Store, other: &Store) -> Result<Vec<CellBody>, AllocError>
    requires { AreApart one.now other.now }
    ensures { IfOk result (λ made. AreAll one.now other.now made.items) }
{
    let mut made = Vec::with_capacity(alloc, one.cells().saturating_add(other.cells()))?;
    let mut i = 0;
    let mut j = 0;
    while let Some(next) = next_cell(one, other, i, j) {
        match next {
            Which::First(body) => {
                made.push(body.copy(alloc)?)?;
                i += 1;
            }
            Which::Second(body) => {
                made.push(body.copy(alloc)?)?;
                j += 1;
            }
        }
    }
    Ok(made)
}

/// The store of the live cells of two stores, with these values for the variables, and the greater of their next numbers, which is
/// above the cells of both. No number is one of both.
pub(crate) fn beside(
    alloc: Global,
    one: &Store,
    other: &Store,
    vars: Items<Value>,
) -> Result<Store, AllocError>
    requires { AreApart one.now other.now }
    ensures { IfOk result (λ made. made ≡ record {
      cells = from_entries (entries one.now.cells ++ entries other.now.cells);
      vars = vars;
      next = max one.now.next other.now.next;
    }) }
{
    let made = all_cells(alloc, one, other)?;
    let next = one.next().max(other.next());
    Ok(Store::of(made, vars, next))
}
