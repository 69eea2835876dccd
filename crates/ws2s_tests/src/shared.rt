//! Formulas that have few parts, each of which stands in many places.

use crate::formulas::tower;
use crate::found::{Found, decided};
use bdd_nodes::{RefList, Shelf, TableId};
use std::alloc::{AllocError, Global};
use std::test::Fail;

/// What is found of "track 0 has one position", conjoined with itself so many times over, and the number of the next table then.
fn tower_decided(alloc: Global, height: u32) -> Result<(Found, TableId), AllocError> {
    let f = tower(alloc, &[("=0", 0, 1), ("twice", 0, height)])?;
    decided(alloc, &f, true, 10_000)
}

/// Adds so many tables.
fn add_tables(alloc: Global, count: u32, shelf: &mut Shelf) -> Result<(), AllocError> {
    for _ in 0..count {
        shelf.add_table(RefList::new(alloc))?;
    }
    Ok(())
}

/// The number of a table that is added after so many others.
fn number_after(alloc: Global, count: u32) -> Result<TableId, AllocError> {
    let mut shelf = Shelf::open(alloc, 1)?;
    add_tables(alloc, count, &mut shelf)?;
    shelf.add_table(RefList::new(alloc))
}

#[test]
fn equal_parts_are_built_once(rt: HostRuntime) -> Result<(), Fail> {
    // It has 8,191 nodes, and 13 parts that differ.
    let (found, next) = tower_decided(rt.alloc(), 12)?;
    assert!(rt; found == Found::Tree(1, 1));
    assert!(rt; next <= number_after(rt.alloc(), 200)?);
    Ok(())
}
