//! Shelves of nodes worked by hand.

ghost use Rattle.std.specs.Prelude.{◌≤◌, ℕ, Some, IsSome, IfOk};
ghost use Rattle.bdd_nodes.specs.declared.node_ref.NodeRef.{NodeRef};
ghost use Rattle.bdd_nodes.specs.Roots.{number_of};
ghost use Rattle.bdd_nodes.specs.Changes.{Keeps};
ghost use Rattle.bdd_nodes.specs.Shelf.{IsValid, AsksFrom, roots_of};

use bdd_nodes::{Full, NodeRef, Shelf, TableId};
use plain_data::Items;
use std::alloc::{AllocError, Global};
use std::process::Abort;
use std::test::Fail;

/// The states where no track, track 0, track 1 and both are set.
pub(crate) fn states(alloc: Global, shelf: &Shelf, n: NodeRef) -> Result<[u32; 4], AllocError>
    requires { IsValid shelf.now n }
{
    let none = Items::from_slice(alloc, &[])?;
    let first = Items::from_slice(alloc, &[0])?;
    let second = Items::from_slice(alloc, &[1])?;
    let both = Items::from_slice(alloc, &[1, 0])?;
    Ok([
        shelf.eval(n, &none),
        shelf.eval(n, &first),
        shelf.eval(n, &second),
        shelf.eval(n, &both),
    ])
}

/// The function of one track: state 0 where it is unset, and 1 where it is set.
pub(crate) fn decision(shelf: &mut Shelf, track: u32) -> Result<NodeRef, Full>
    ensures valid { IfOk result (IsValid shelf.new) }
    ensures later { IfOk result (AsksFrom shelf.new track) }
    ensures kept { Keeps shelf.old shelf.new }
{
    let zero = Shelf::leaf(0);
    let one = Shelf::leaf(1);
    shelf.make(track, zero, one)
}

/// Three functions of tracks 0 and 1: where track 1 is set, where both are, and where one is at least.
#[derive(Clone, Copy, Debug, PartialEq, Eq)]
struct Three {
    second: NodeRef,
    both: NodeRef,
    some: NodeRef,
}

fn make_three(shelf: &mut Shelf) -> Result<Three, Full>
    ensures second { IfOk result (λ made. IsValid shelf.new made.second) }
    ensures both { IfOk result (λ made. IsValid shelf.new made.both) }
    ensures some { IfOk result (λ made. IsValid shelf.new made.some) }
{
    let zero = Shelf::leaf(0);
    let one = Shelf::leaf(1);
    let second = decision(shelf, 1)?;
    let both = shelf.make(0, zero, second)?;
    let some = shelf.make(0, second, one)?;
    Ok(Three { second, both, some })
}

fn states_of(alloc: Global, shelf: &Shelf, made: Three) -> Result<[[u32; 4]; 3], AllocError>
    requires second { IsValid shelf.now made.second }
    requires both { IsValid shelf.now made.both }
    requires some { IsValid shelf.now made.some }
{
    Ok([
        states(alloc, shelf, made.second)?,
        states(alloc, shelf, made.both)?,
        states(alloc, shelf, made.some)?,
    ])
}

#[test]
fn nodes_are_shared(rt: HostRuntime) -> Result<(), Fail> {
    let alloc = rt.alloc();
    let mut shelf = Shelf::open(alloc, 3)?;
    let made = make_three(&mut shelf)?;
    assert!(rt; states_of(alloc, &shelf, made)? == [[0, 0, 1, 1], [0, 0, 0, 1], [0, 1, 1, 1]]);
    assert!(rt; make_three(&mut shelf) == Ok(made));
    assert!(rt; (shelf.count(), shelf.limit()) == (3, 3));
    Ok(())
}

/// Whether a node of equal sides is that side, and what a node and a leaf are under their first track.
fn sides(shelf: &mut Shelf) -> Result<[bool; 3], Full> {
    let zero = Shelf::leaf(0);
    let one = Shelf::leaf(1);
    let second = decision(shelf, 1)?;
    let both = shelf.make(0, zero, second)?;
    Ok([
        shelf.make(0, second, second) == Ok(second),
        (shelf.top(both), shelf.low(both), shelf.high(both)) == (Some(0), zero, second),
        (shelf.top(one), shelf.low(one), shelf.high(one)) == (None, one, one),
    ])
}

#[test]
fn a_full_shelf_finds_what_it_has(rt: HostRuntime) -> Result<(), Fail> {
    let mut shelf = Shelf::open(rt.alloc(), 2)?;
    assert!(rt; make_three(&mut shelf) == Err(Full));
    assert!(rt; sides(&mut shelf)? == [true; 3]);
    assert!(rt; shelf.count() == 2);
    Ok(())
}

/// A table of two roots.
fn table(
    alloc: Global,
    shelf: &mut Shelf,
    one: NodeRef,
    other: NodeRef,
) -> Result<TableId, AllocError>
    requires one { IsValid shelf.old one }
    requires other { IsValid shelf.old other }
    ensures there { IfOk result (λ id. IsSome (roots_of shelf.new (number_of id))) }
    ensures kept { (r : NodeRef) → IsValid shelf.old r → IsValid shelf.new r }
{
    shelf.add_table(Items::from_slice(alloc, &[one, other])?)
}

/// The states of a table's root.
fn root_states(
    alloc: Global,
    shelf: &Shelf,
    table: TableId,
    index: u32,
) -> Result<Option<[u32; 4]>, AllocError> {
    match shelf.root(table, index) {
        None => Ok(None),
        Some(root) => Ok(Some(states(alloc, shelf, root)?)),
    }
}

/// Three tables, of which the last is dropped, beside a node that none holds; and how many nodes there are after a
/// collection before and after the drop.
fn collected(alloc: Global, shelf: &mut Shelf) -> Result<([TableId; 3], [u32; 2]), Fail> {
    let made = make_three(shelf)?;
    let _unused = decision(shelf, 2)?;
    let first = table(alloc, shelf, made.both, made.second)?;
    let second = table(alloc, shelf, made.second, made.second)?;
    let last = table(alloc, shelf, made.some, made.some)?;
    shelf.collect();
    let before = shelf.count();
    shelf.drop_table(last);
    shelf.collect();
    Ok(([first, second, last], [before, shelf.count()]))
}

#[test]
fn tables_outlive_collections(rt: HostRuntime) -> Result<(), Fail> {
    let alloc = rt.alloc();
    let mut shelf = Shelf::open(alloc, 10)?;
    let ([first, second, last], counts) = collected(alloc, &mut shelf)?;
    assert!(rt; counts == [3, 2]);
    for (table, index, want) in [
        (first, 0, Some([0, 0, 0, 1])),
        (first, 1, Some([0, 0, 1, 1])),
        (first, 2, None),
        (second, 0, Some([0, 0, 1, 1])),
        (last, 0, None),
    ] {
        assert!(rt;
            root_states(alloc, &shelf, table, index)? == want,
            "at {index}"
        );
    }
    assert!(rt; shelf.add_table(Items::new(alloc))? != last);
    Ok(())
}

/// One node fits, and is collected where no table holds it.
fn one_node_in(rt: &impl Abort, alloc: Global, limit: u32) -> Result<(), Fail>
    requires some { 1 ≤ limit }
    requires small { limit ≤ 16000000 }
{
    let mut shelf = Shelf::open(alloc, limit)?;
    let three = Shelf::leaf(3);
    let last = Shelf::leaf(0x7fff_ffff);
    let made = shelf.make(7, three, last)?;
    assert!(rt; (shelf.high(made).state(), made.state()) == (Some(0x7fff_ffff), None));
    shelf.collect();
    assert!(rt; shelf.count() == 0);
    Ok(())
}

#[test]
fn the_smallest_and_the_largest_shelf(rt: HostRuntime) -> Result<(), Fail> {
    one_node_in(&rt, rt.alloc(), 1)?;
    one_node_in(&rt, rt.alloc(), 16_000_000)
}
