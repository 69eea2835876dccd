//! The roots of a space: each row is joined with each column.

ghost use Rattle.std.specs.Prelude.{◌≡◌, ℕ, List, [], ◌∷◌, Some, Err, IsSome, IfOk, OnOk, Contains, All};
ghost use Rattle.bdd_walk.specs.Answers.{Completes};
ghost use Rattle.bdd_walk.specs.Fits.{FitsSets};
ghost use Rattle.bdd_nodes.specs.Shelf.{IsValid};
ghost use Rattle.gta_core.specs.Auto.{root_at, automaton_of};
ghost use Rattle.gta_subsets.specs.Subsets.{set_step};
ghost use Rattle.gta_subsets.specs.Roots.{IsTableOf};
ghost use Rattle.gta_subsets.specs.Numbers.{number_in, numbered, AreNumbers};
ghost use Rattle.gta_subsets.specs.Classes.{HaveClasses};
ghost use Rattle.gta_subsets.specs.Shorts.{rows_in, columns_in, AreShorts};
ghost use Rattle.gta_project.specs.Filling.{IsCell, Joins, ExceedsCells, IsRow, AreCells};

use bdd_nodes::{NodeRef, RefList, Shelf};
use bdd_walk::{SetJoiner, StateList, Stop};
use gta_core::Auto;
use gta_subsets::{Numbering, classes_in, one_a_class, roots_at, shortened};
use std::alloc::Global;

/// The root for a set of each child: a join of the roots that the automaton has for their states, with the track dropped.
/// The roots are those for the short list of each set, which are put into `found`.
#[allow(clippy::too_many_arguments)]
fn join_cell(
    alloc: Global,
    a: &Auto,
    table: &[NodeRef],
    track: u32,
    shelf: &mut Shelf,
    space: u32,
    left: &[u32],
    right: &[u32],
    short_left: &[u32],
    short_right: &[u32],
    found: &mut Vec<NodeRef>,
    joiner: &mut SetJoiner,
    numbers: &mut Numbering,
) -> Result<NodeRef, Stop>
    requires table { IsTableOf shelf.old a.now table.now }
    requires known { (l r : ℕ) → Contains left.now l → Contains right.now r → IsSome (root_at shelf.old a.now space l r) }
    requires rows { HaveClasses (rows_in a.now space) left.now short_left.now }
    requires columns { HaveClasses (columns_in a.now space) right.now short_right.now }
    requires numbers { AreNumbers numbers.old }
    requires fits { FitsSets joiner.old track shelf.old (numbered numbers.old) }
    ensures joins { Joins (set_step (automaton_of shelf.old a.now) track) space (left.now ∷ []) (right.now ∷ [])
        shelf.old shelf.new numbers.old numbers.new }
    ensures cell { IfOk result (IsCell (set_step (automaton_of shelf.old a.now) track) space numbers.new left.now right.now shelf.new) }
    ensures limit { result ≡ Err Stop.Limit → (given : List ℕ → ℕ) → Completes (number_in numbers.new) given →
        ExceedsCells (set_step (automaton_of shelf.old a.now) track) space (left.now ∷ []) (right.now ∷ []) shelf.old given }
    ensures fits { OnOk result (FitsSets joiner.new track shelf.new (numbered numbers.new)) }
    ensures numbers { AreNumbers numbers.new }
{
    roots_at(a, table, space, short_left, short_right, found)?;
    let made = joiner.join(alloc, shelf, found.as_slice(), track, numbers)?;
    Ok(made)
}

/// The roots of a row: it is joined with each column. The short lists are those of the row and of the columns.
#[allow(clippy::too_many_arguments)]
fn fill_row(
    alloc: Global,
    a: &Auto,
    table: &[NodeRef],
    track: u32,
    shelf: &mut Shelf,
    space: u32,
    row: &[u32],
    columns: &[StateList],
    short: &[u32],
    shorts: &[StateList],
    joiner: &mut SetJoiner,
    numbers: &mut Numbering,
    roots: &mut RefList,
) -> Result<(), Stop>
    requires table { IsTableOf shelf.old a.now table.now }
    requires known { (column : List ℕ) → Contains columns.now column → (l r : ℕ) → Contains row.now l → Contains column r →
        IsSome (root_at shelf.old a.now space l r) }
    requires short { HaveClasses (rows_in a.now space) row.now short.now }
    requires shorts { AreShorts (columns_in a.now space) columns.now shorts.now }
    requires valid { All (IsValid shelf.old) roots.old }
    requires numbers { AreNumbers numbers.old }
    requires fits { FitsSets joiner.old track shelf.old (numbered numbers.old) }
    ensures joins { Joins (set_step (automaton_of shelf.old a.now) track) space (row.now ∷ []) columns.now
        shelf.old shelf.new numbers.old numbers.new }
    ensures cells { OnOk result (IsRow (set_step (automaton_of shelf.old a.now) track) space row.now columns.now
        numbers.new shelf.new roots.old roots.new) }
    ensures valid { OnOk result (All (IsValid shelf.new) roots.new) }
    ensures limit { result ≡ Err Stop.Limit → (given : List ℕ → ℕ) → Completes (number_in numbers.new) given →
        ExceedsCells (set_step (automaton_of shelf.old a.now) track) space (row.now ∷ []) columns.now shelf.old given }
    ensures fits { OnOk result (FitsSets joiner.new track shelf.new (numbered numbers.new)) }
    ensures numbers { AreNumbers numbers.new }
{
    let mut found = Vec::new(alloc);
    for at in 0..columns.len() {
        let column = columns[at].as_slice();
        let other = shorts[at].as_slice();
        let root = join_cell(
            alloc, a, table, track, shelf, space, row, column, short, other, &mut found, joiner,
            numbers,
        )?;
        roots.push(root)?;
    }
    Ok(())
}

/// The roots of a space, row after row: each row is joined with each column.
#[allow(clippy::too_many_arguments)]
pub(crate) fn fill(
    alloc: Global,
    a: &Auto,
    table: &[NodeRef],
    track: u32,
    shelf: &mut Shelf,
    space: u32,
    rows: &[StateList],
    columns: &[StateList],
    joiner: &mut SetJoiner,
    numbers: &mut Numbering,
    roots: &mut RefList,
) -> Result<(), Stop>
    requires table { IsTableOf shelf.old a.now table.now }
    requires known { (row column : List ℕ) → Contains rows.now row → Contains columns.now column → (l r : ℕ) → Contains row l →
        Contains column r → IsSome (root_at shelf.old a.now space l r) }
    requires valid { All (IsValid shelf.old) roots.old }
    requires numbers { AreNumbers numbers.old }
    requires fits { FitsSets joiner.old track shelf.old (numbered numbers.old) }
    ensures joins { Joins (set_step (automaton_of shelf.old a.now) track) space rows.now columns.now
        shelf.old shelf.new numbers.old numbers.new }
    ensures cells { OnOk result (AreCells (set_step (automaton_of shelf.old a.now) track) space rows.now columns.now
        numbers.new shelf.new roots.old roots.new) }
    ensures valid { OnOk result (All (IsValid shelf.new) roots.new) }
    ensures limit { result ≡ Err Stop.Limit → (given : List ℕ → ℕ) → Completes (number_in numbers.new) given →
        ExceedsCells (set_step (automaton_of shelf.old a.now) track) space rows.now columns.now shelf.old given }
    ensures fits { OnOk result (FitsSets joiner.new track shelf.new (numbered numbers.new)) }
    ensures numbers { AreNumbers numbers.new }
{
    let (row_classes, column_classes) = classes_in(a, space);
    let shorts = shortened(alloc, columns, column_classes)?;
    for row in rows {
        let row = row.as_slice();
        let short = one_a_class(alloc, row, row_classes)?;
        fill_row(
            alloc,
            a,
            table,
            track,
            shelf,
            space,
            row,
            columns,
            short.as_slice(),
            shorts.as_slice(),
            joiner,
            numbers,
            roots,
        )?;
    }
    Ok(())
}
