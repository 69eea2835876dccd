//! Lines of a space's table: a row for a state of the left child, and a column for one of the right child.

ghost use Rattle.std.specs.Prelude.{◌≡◌, All, IsSome, IfSome, IfOk, OnOk, map};
ghost use Rattle.bdd_nodes.specs.Shelf.{IsValid};
ghost use Rattle.gta_core.specs.Auto.{root_at};
ghost use Rattle.gta_merge.specs.Lines.{some_root, root_beside, PutsRows};

use bdd_nodes::{NodeRef, RefList, Shelf};
use bdd_walk::NoMemory;
use gta_core::Auto;
use plain_data::Items;
use std::alloc::Global;

/// Which child of a space a state is of.
#[derive(Clone, Copy, Debug)]
pub(crate) enum Side {
    Left,
    Right,
}

/// The root of a state of a child with a state of the other child.
pub(crate) fn root_beside(
    a: &Auto,
    shelf: &Shelf,
    space: u32,
    side: Side,
    state: u32,
    other: u32,
) -> Option<NodeRef>
    ensures value { result ≡ root_beside shelf.now a.now space side state other }
    ensures valid { IfSome result (IsValid shelf.now) }
{
    match side {
        Side::Left => a.root(shelf, space, state, other),
        Side::Right => a.root(shelf, space, other, state),
    }
}

/// The roots of a state of a child with these states of the other child.
pub(crate) fn line_of(
    alloc: Global,
    a: &Auto,
    shelf: &Shelf,
    space: u32,
    side: Side,
    state: u32,
    others: &[u32],
) -> Result<Vec<NodeRef>, NoMemory>
    requires { All (λ other. IsSome (root_beside shelf.now a.now space side state other)) others.now }
    ensures line { IfOk result (λ line. map some_root line.items ≡ map (root_beside shelf.now a.now space side state) others.now) }
    ensures valid { IfOk result (λ line. All (IsValid shelf.now) line.items) }
{
    let mut line = Vec::with_capacity(alloc, others.len())?;
    for other in others {
        let Some(root) = root_beside(a, shelf, space, side, state, *other) else {
            unreachable!()
        };
        line.push(root)?;
    }
    Ok(line)
}

/// Puts the rows of these left states at the end of the list, each with the roots for these right states.
pub(crate) fn put_rows(
    alloc: Global,
    a: &Auto,
    shelf: &Shelf,
    space: u32,
    lefts: &[u32],
    rights: &[u32],
    roots: &mut RefList,
) -> Result<(), NoMemory>
    requires known { All (λ left. All (λ right. IsSome (root_at shelf.now a.now space left right)) rights.now) lefts.now }
    requires valid { All (IsValid shelf.now) roots.old }
    ensures puts { OnOk result (PutsRows (root_at shelf.now a.now space) lefts.now rights.now roots.old roots.new) }
    ensures valid { OnOk result (All (IsValid shelf.now) roots.new) }
{
    for left in lefts {
        let row = line_of(alloc, a, shelf, space, Side::Left, *left, rights)?;
        roots.append(Items::from_vec(row))?;
    }
    Ok(())
}
