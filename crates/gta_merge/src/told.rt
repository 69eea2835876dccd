//! A look at a few roots of each line, which may tell that no two are equal.

ghost use Rattle.std.specs.Prelude.{◌≡◌, ◌<◌, true, All, IsSome, IfOk, length};
ghost use Rattle.gta_core.specs.Auto.{guide_of, IsAuto};
ghost use Rattle.gta_merge.specs.Lines.{root_beside};
ghost use Rattle.gta_merge.specs.Merged.{HasNoEqualLines, HaveNoEqualLines};
ghost use Rattle.gta_merge.specs.Told.{IsPairStep, ShareClasses, AreApart};

use crate::classes::firsts;
use crate::lines::{Side, root_beside};
use crate::merged::{part_at, states_in};
use bdd_nodes::{NodeRef, Shelf};
use bdd_walk::NoMemory;
use gta_core::Auto;
use plain_data::{Items, at};
use std::alloc::{AllocError, Global};
use std::collections::HashMap;
use ws2s_core::Guide;

/// How many roots of a line are looked at.
const FEW_ROOTS: usize = 8;

/// Whether states of a child share a class exactly where they have the same roots, so that there is nothing to merge, as far
/// as a few roots of each state tell. `false` also where these don't tell.
///
/// # Errors
///
/// Want of memory.
pub fn is_told_apart(alloc: Global, g: &Guide, a: &Auto, shelf: &Shelf) -> Result<bool, NoMemory>
    requires { IsAuto g.now shelf.now a.now }
    ensures { IfOk result (λ told. told ≡ true → HaveNoEqualLines shelf.now a.now) }
{
    for space in 0..g.spaces() {
        let told = is_space_told(alloc, a, shelf, space)?;
        if !told {
            return Ok(false);
        }
    }
    Ok(true)
}

/// Whether the lines of a space are told apart.
fn is_space_told(alloc: Global, a: &Auto, shelf: &Shelf, space: u32) -> Result<bool, NoMemory>
    requires auto { IsAuto (guide_of a.now) shelf.now a.now }
    requires inside { space < length a.now.parts }
    ensures { IfOk result (λ told. told ≡ true → HasNoEqualLines shelf.now a.now space) }
{
    let own = part_at(a, space);
    let had_rows = own.rows.as_slice();
    let had_columns = own.columns.as_slice();
    let lefts = firsts(alloc, had_rows, states_in(a, own.children.0))?;
    let rights = firsts(alloc, had_columns, states_in(a, own.children.1))?;
    let rows = lefts.as_slice();
    let columns = rights.as_slice();
    let rows_told = is_side_told(alloc, a, shelf, space, Side::Left, rows, columns)?;
    if !rows_told {
        return Ok(false);
    }
    let columns_told = is_side_told(alloc, a, shelf, space, Side::Right, columns, rows)?;
    Ok(columns_told)
}

/// Whether these states of a child are told apart by their roots with the first few of these states of the other child.
fn is_side_told(
    alloc: Global,
    a: &Auto,
    shelf: &Shelf,
    space: u32,
    side: Side,
    states: &[u32],
    others: &[u32],
) -> Result<bool, NoMemory>
    requires { All (λ other. All (λ state. IsSome (root_beside shelf.now a.now space side state other)) states.now) others.now }
    ensures { IfOk result (λ told. told ≡ true → AreApart (root_beside shelf.now a.now space side) states.now) }
{
    if states.len() < 2 {
        return Ok(true);
    }
    let mut classes = Items::new(alloc);
    for place in 0..others.len().min(FEW_ROOTS) {
        let before = classes.as_slice();
        classes = split(alloc, a, shelf, space, side, states, others[place], before)?;
        if classes.as_slice() == states {
            return Ok(true);
        }
    }
    Ok(false)
}

/// The classes that these states had, split by the roots with a state of the other child. A class is named by the first of
/// its states; where none are given, all states had one.
#[allow(clippy::too_many_arguments)]
fn split(
    alloc: Global,
    a: &Auto,
    shelf: &Shelf,
    space: u32,
    side: Side,
    states: &[u32],
    other: u32,
    before: &[u32],
) -> Result<Items<u32>, NoMemory>
    requires known { All (λ state. IsSome (root_beside shelf.now a.now space side state other)) states.now }
    requires share { ShareClasses (root_beside shelf.now a.now space side) states.now before.now }
    ensures { IfOk result (ShareClasses (root_beside shelf.now a.now space side) states.now) }
{
    let mut found = HashMap::new(alloc);
    let mut classes = Items::from_vec(Vec::with_capacity(alloc, states.len())?);
    for place in 0..states.len() {
        let state = states[place];
        let Some(root) = root_beside(a, shelf, space, side, state, other) else {
            unreachable!()
        };
        let had = at(before, place).copied().unwrap_or(0);
        classes.push(class_of_pair(&mut found, had, root, state)?)?;
    }
    Ok(classes)
}

/// The class of the states that had this class and have this root: the first of them.
fn class_of_pair(
    found: &mut HashMap<(u32, NodeRef), u32>,
    had: u32,
    root: NodeRef,
    state: u32,
) -> Result<u32, AllocError>
    ensures { IfOk result (IsPairStep had root found.old found.new) }
{
    if let Some(class) = found.get(&(had, root)) {
        return Ok(*class);
    }
    found.insert((had, root), state)?;
    Ok(state)
}
