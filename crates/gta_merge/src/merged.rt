//! The automaton with merged classes.

ghost use Rattle.std.specs.Prelude.{◌≡◌, ◌<◌, ◌↔◌, [], ℕ, Some, All, IfOk, OnErr, length, slice_get};
ghost use Rattle.std.specs.List.{range_with_len};
ghost use Rattle.bdd_nodes.specs.declared.node_ref.NodeRef.{NodeRef};
ghost use Rattle.bdd_nodes.specs.Shelf.{IsShelf, IsValid};
ghost use Rattle.gta_core.specs.Auto.{guide_of, states_of, is_accepting, root_at, automaton_of, IsAuto, IsWhole};
ghost use Rattle.gta_core.specs.Changes.{AddsOneTable};
ghost use Rattle.gta_core.specs.Placing.{Grows};
ghost use Rattle.gta_core.specs.Sizes.{IsNodeOf};
ghost use Rattle.gta_merge.specs.Merged.{IsMerged};
ghost use Rattle.gta_merge.specs.Parts.{AreRowClasses, AreColumnClasses, IsPartOf, UsesAfter, ArePartsOf};

use crate::classes::{Classes, classify, firsts};
use crate::lines::{Side, put_rows};
use bdd_nodes::{RefList, Shelf};
use bdd_walk::NoMemory;
use gta_core::{Auto, BoolList, Part};
use plain_data::Items;
use std::alloc::{AllocError, Global};
use ws2s_core::Guide;

/// The same automaton, in which states of a child share a class exactly where they have the same roots. It has a table of
/// its own, with a root for each pair of classes; no node is made.
///
/// # Errors
///
/// Want of memory, also where the roots are more than a `u32` counts.
pub fn merge(alloc: Global, g: &Guide, a: &Auto, shelf: &mut Shelf) -> Result<Auto, NoMemory>
    requires { IsAuto g.now shelf.old a.now }

    // The same automaton over the same nodes.
    ensures auto { IfOk result (IsAuto g.now shelf.new) }
    ensures same { IfOk result (λ m. automaton_of shelf.new m ≡ automaton_of shelf.old a.now) }
    ensures states { IfOk result (λ m. (s : ℕ) → states_of m s ≡ states_of a.now s) }
    ensures roots { IfOk result (λ m. (s l r : ℕ) → root_at shelf.new m s l r ≡ root_at shelf.old a.now s l r) }
    ensures nodes { IfOk result (λ m. (r : NodeRef) → IsNodeOf shelf.new m.table r ↔ IsNodeOf shelf.old a.now.table r) }

    // Its classes.
    ensures merged { IfOk result (IsMerged shelf.new) }

    // What the call leaves.
    ensures table { IfOk result (λ m. AddsOneTable shelf.old shelf.new m.table) }
    ensures err { OnErr result (shelf.new ≡ shelf.old) }
    ensures shelf { IsShelf shelf.new }
{
    // Only for its clause `shelf`.
    let _ = shelf.count();
    let mut roots = RefList::new(alloc);
    let parts = merged_parts(alloc, g, a, shelf, &mut roots)?;
    let accepting = accepting_of(alloc, a)?;
    let merged = Auto::from_parts(parts, accepting, roots, shelf)?;
    Ok(merged)
}

/// The merged parts of all spaces, and their roots.
fn merged_parts(
    alloc: Global,
    g: &Guide,
    a: &Auto,
    shelf: &Shelf,
    roots: &mut RefList,
) -> Result<Items<Part>, NoMemory>
    requires auto { IsAuto g.now shelf.now a.now }
    requires none { roots.old ≡ [] }
    ensures parts { IfOk result (ArePartsOf shelf.now a.now roots.new) }
    ensures many { IfOk result (λ parts. length parts ≡ length a.now.parts) }
    ensures valid { IfOk result (λ parts. All (IsValid shelf.now) roots.new) }
{
    let mut parts = Items::new(alloc);
    for space in 0..g.spaces() {
        let part = merged_part(alloc, a, shelf, space, roots)?;
        parts.push(part)?;
    }
    Ok(parts)
}

/// The merged part of a space, whose roots are put at the end of the list.
fn merged_part(
    alloc: Global,
    a: &Auto,
    shelf: &Shelf,
    space: u32,
    roots: &mut RefList,
) -> Result<Part, NoMemory>
    requires auto { IsAuto (guide_of a.now) shelf.now a.now }
    requires inside { space < length a.now.parts }
    requires valid { All (IsValid shelf.now) roots.old }
    ensures grown { IfOk result (λ part. Grows roots.old roots.new) }
    ensures part { IfOk result (IsPartOf shelf.now a.now roots.new space) }
    ensures used { IfOk result (UsesAfter roots.old roots.new) }
    ensures valid { IfOk result (λ part. All (IsValid shelf.now) roots.new) }
{
    let own = part_at(a, space);
    let classes = classes_in(alloc, a, shelf, space)?;
    let rows = classes.0;
    let columns = classes.1;
    if roots.len() > u32::MAX as usize {
        return Err(AllocError);
    }
    let first = roots.len() as u32;
    put_rows(
        alloc,
        a,
        shelf,
        space,
        rows.ones.as_slice(),
        columns.ones.as_slice(),
        roots,
    )?;
    let width = columns.ones.len() as u32;
    let cells = count_up(alloc, roots.len() - first as usize)?;
    Ok(Part {
        states: own.states,
        initial: own.initial,
        children: own.children,
        first,
        rows: rows.of,
        columns: columns.of,
        width,
        cells,
    })
}

/// The classes of the left and of the right states of a space.
fn classes_in(
    alloc: Global,
    a: &Auto,
    shelf: &Shelf,
    space: u32,
) -> Result<(Classes, Classes), NoMemory>
    requires auto { IsAuto (guide_of a.now) shelf.now a.now }
    requires inside { space < length a.now.parts }
    ensures rows { IfOk result (λ classes. AreRowClasses shelf.now a.now space classes.0) }
    ensures columns { IfOk result (λ classes. AreColumnClasses shelf.now a.now space classes.1) }
{
    let own = part_at(a, space);
    let lefts = states_in(a, own.children.0);
    let rights = states_in(a, own.children.1);
    let had_rows = own.rows.as_slice();
    let had_columns = own.columns.as_slice();
    let some = firsts(alloc, had_columns, rights)?;
    let beside = some.as_slice();
    let rows = classify(alloc, a, shelf, space, Side::Left, had_rows, lefts, beside)?;
    let ones = rows.ones.as_slice();
    let columns = classify(
        alloc,
        a,
        shelf,
        space,
        Side::Right,
        had_columns,
        rights,
        ones,
    )?;
    Ok((rows, columns))
}

/// The part of a space.
pub(crate) fn part_at(a: &Auto, space: u32) -> &Part
    requires { space < length a.now.parts }
    ensures part { slice_get a.now.parts space ≡ Some result.now }
    ensures whole { IsWhole a.now }
{
    &a.parts()[space as usize]
}

/// How many states a space has; none for an unknown one.
pub(crate) fn states_in(a: &Auto, space: u32) -> u32
    ensures { result ≡ states_of a.now space }
{
    match a.parts().get(space as usize) {
        Some(part) => part.states,
        None => 0,
    }
}

/// The numbers below.
fn count_up(alloc: Global, many: usize) -> Result<Items<u32>, NoMemory>
    ensures { IfOk result (λ numbers. numbers ≡ range_with_len 0 many) }
{
    if many > u32::MAX as usize {
        return Err(AllocError);
    }
    let mut numbers = Items::from_vec(Vec::with_capacity(alloc, many)?);
    for number in 0..many as u32 {
        numbers.push(number)?;
    }
    Ok(numbers)
}

/// For each state of space 0 whether it is accepting.
fn accepting_of(alloc: Global, a: &Auto) -> Result<BoolList, NoMemory>
    ensures many { IfOk result (λ accepting. length accepting ≡ states_of a.now 0) }
    ensures whole { IfOk result (λ accepting. IsWhole a.now) }
    ensures each { IfOk result (λ accepting. (q : ℕ) → q < states_of a.now 0 → slice_get accepting q ≡ Some (is_accepting a.now q)) }
{
    let mut accepting = Items::new(alloc);
    for state in 0..a.states(0).unwrap_or(0) {
        accepting.push(a.accepting(state).unwrap_or(false))?;
    }
    Ok(accepting)
}
