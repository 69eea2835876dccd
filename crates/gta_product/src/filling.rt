//! The roots of a space: each row is joined with each column that it lacks.

ghost use Rattle.std.specs.Prelude.{◌≡◌, ℕ, List, [], ◌∷◌, length, None, Err, IsSome, IfOk, OnOk, Contains};
ghost use Rattle.bdd_walk.specs.Answers.{Completes};
ghost use Rattle.bdd_walk.specs.Fits.{Fits};
ghost use Rattle.gta_theory.specs.Constructions.{pairs};
ghost use Rattle.gta_core.specs.Auto.{root_at, automaton_of};
ghost use Rattle.gta_product.specs.Numbers.{numbered, AreNumbers, Grows};
ghost use Rattle.gta_product.specs.Tables.{AreTables};
ghost use Rattle.gta_product.specs.Filling.{IsNumbered, IsCell, Joins, ExceedsCells, IsRow, AreRows};

use crate::numbering::Numbering;
use crate::tables::{Tables, root_in};
use bdd_nodes::{NodeRef, RefList, Shelf};
use bdd_walk::{Joiner, Stop};
use gta_core::Auto;
use std::alloc::{AllocError, Global};

/// The root for two leaves: the leaf of the number of their states.
fn number_leaves(numbers: &mut Numbering, one: u32, two: u32) -> Result<NodeRef, AllocError>
    ensures grows { Grows numbers.old numbers.new (one, two) }
    ensures numbers { AreNumbers numbers.new }
    ensures leaf { IfOk result (IsNumbered numbers.new one two) }
{
    let number = numbers.number((one, two))?;
    Ok(Shelf::leaf(number))
}

/// The root for a pair of states of each child: a join of the roots that the two automata have. Of two leaves no result is
/// kept.
#[allow(clippy::too_many_arguments)]
pub(crate) fn join_cell(
    alloc: Global,
    a: &Auto,
    b: &Auto,
    tables: &Tables,
    shelf: &mut Shelf,
    space: u32,
    left: (u32, u32),
    right: (u32, u32),
    joiner: &mut Joiner,
    numbers: &mut Numbering,
) -> Result<NodeRef, Stop>
    requires first { IsSome (root_at shelf.old a.now space left.0 right.0) }
    requires second { IsSome (root_at shelf.old b.now space left.1 right.1) }
    requires tables { AreTables shelf.old a.now b.now tables.now }
    requires numbers { AreNumbers numbers.old }
    requires fits { Fits joiner.old None shelf.old (numbered numbers.old) }
    ensures joins { Joins (pairs (automaton_of shelf.old a.now) (automaton_of shelf.old b.now)) space (left ∷ []) (right ∷ [])
        shelf.old shelf.new numbers.old numbers.new }
    ensures cell { IfOk result (IsCell (pairs (automaton_of shelf.old a.now) (automaton_of shelf.old b.now)) space numbers.new left right shelf.new) }
    ensures limit { result ≡ Err Stop.Limit → (given : List ℕ → ℕ) → Completes (numbered numbers.new) given →
        ExceedsCells (pairs (automaton_of shelf.old a.now) (automaton_of shelf.old b.now)) space (left ∷ []) (right ∷ []) shelf.old given }
    ensures fits { OnOk result (Fits joiner.new None shelf.new (numbered numbers.new)) }
    ensures numbers { AreNumbers numbers.new }
{
    let first = root_in(a, tables.first.as_slice(), shelf, space, left.0, right.0);
    let second = root_in(b, tables.second.as_slice(), shelf, space, left.1, right.1);
    if let Some(one) = first.state() {
        if let Some(two) = second.state() {
            let leaf = number_leaves(numbers, one, two)?;
            return Ok(leaf);
        }
    }
    let made = joiner.join(alloc, shelf, &[first, second], None, numbers)?;
    Ok(made)
}

/// The roots that a row lacks: it is joined with the columns behind those that it has roots for.
#[allow(clippy::too_many_arguments)]
fn fill_row(
    alloc: Global,
    a: &Auto,
    b: &Auto,
    tables: &Tables,
    shelf: &mut Shelf,
    space: u32,
    row: (u32, u32),
    columns: &[(u32, u32)],
    joiner: &mut Joiner,
    numbers: &mut Numbering,
    roots: &mut RefList,
) -> Result<(), Stop>
    requires first { (r : ℕ × ℕ) → Contains columns.now r → IsSome (root_at shelf.old a.now space row.0 r.0) }
    requires second { (r : ℕ × ℕ) → Contains columns.now r → IsSome (root_at shelf.old b.now space row.1 r.1) }
    requires tables { AreTables shelf.old a.now b.now tables.now }
    requires row { IsRow (pairs (automaton_of shelf.old a.now) (automaton_of shelf.old b.now)) space row columns.now
        numbers.old shelf.old roots.old }
    requires numbers { AreNumbers numbers.old }
    requires fits { Fits joiner.old None shelf.old (numbered numbers.old) }
    ensures joins { Joins (pairs (automaton_of shelf.old a.now) (automaton_of shelf.old b.now)) space (row ∷ []) columns.now
        shelf.old shelf.new numbers.old numbers.new }
    ensures row { OnOk result (IsRow (pairs (automaton_of shelf.old a.now) (automaton_of shelf.old b.now)) space row columns.now
        numbers.new shelf.new roots.new) }
    ensures full { OnOk result (length roots.new ≡ length columns.now) }
    ensures limit { result ≡ Err Stop.Limit → (given : List ℕ → ℕ) → Completes (numbered numbers.new) given →
        ExceedsCells (pairs (automaton_of shelf.old a.now) (automaton_of shelf.old b.now)) space (row ∷ []) columns.now shelf.old given }
    ensures fits { OnOk result (Fits joiner.new None shelf.new (numbered numbers.new)) }
    ensures numbers { AreNumbers numbers.new }
{
    for k in roots.len()..columns.len() {
        let column = columns[k];
        let root = join_cell(
            alloc, a, b, tables, shelf, space, row, column, joiner, numbers,
        )?;
        roots.push(root)?;
    }
    Ok(())
}

/// The roots that the rows of a space lack, from one row on: each is joined with each column that it has no root for.
#[allow(clippy::too_many_arguments)]
pub(crate) fn fill(
    alloc: Global,
    a: &Auto,
    b: &Auto,
    tables: &Tables,
    shelf: &mut Shelf,
    space: u32,
    rows: &[(u32, u32)],
    columns: &[(u32, u32)],
    from: usize,
    joiner: &mut Joiner,
    numbers: &mut Numbering,
    cells: &mut Vec<RefList>,
) -> Result<(), Stop>
    requires first { (l r : ℕ × ℕ) → Contains rows.now l → Contains columns.now r → IsSome (root_at shelf.old a.now space l.0 r.0) }
    requires second { (l r : ℕ × ℕ) → Contains rows.now l → Contains columns.now r → IsSome (root_at shelf.old b.now space l.1 r.1) }
    requires tables { AreTables shelf.old a.now b.now tables.now }
    requires rows { AreRows (pairs (automaton_of shelf.old a.now) (automaton_of shelf.old b.now)) space rows.now columns.now
        (length rows.now) numbers.old shelf.old cells.old.items }
    requires numbers { AreNumbers numbers.old }
    requires fits { Fits joiner.old None shelf.old (numbered numbers.old) }
    ensures joins { Joins (pairs (automaton_of shelf.old a.now) (automaton_of shelf.old b.now)) space rows.now columns.now
        shelf.old shelf.new numbers.old numbers.new }
    ensures rows { OnOk result (AreRows (pairs (automaton_of shelf.old a.now) (automaton_of shelf.old b.now)) space rows.now columns.now
        from numbers.new shelf.new cells.new.items) }
    ensures limit { result ≡ Err Stop.Limit → (given : List ℕ → ℕ) → Completes (numbered numbers.new) given →
        ExceedsCells (pairs (automaton_of shelf.old a.now) (automaton_of shelf.old b.now)) space rows.now columns.now shelf.old given }
    ensures fits { OnOk result (Fits joiner.new None shelf.new (numbered numbers.new)) }
    ensures numbers { AreNumbers numbers.new }
{
    for index in from..rows.len() {
        let row = rows[index];
        let roots = &mut cells[index];
        fill_row(
            alloc, a, b, tables, shelf, space, row, columns, joiner, numbers, roots,
        )?;
    }
    Ok(())
}
