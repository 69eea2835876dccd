//! What is read from the shelf at the start.

ghost use Rattle.std.specs.Prelude.{◌≡◌, Some, IsSome, IfOk};
ghost use Rattle.bdd_nodes.specs.Shelf.{IsShelf, IsValid};
ghost use Rattle.gta_core.specs.Auto.{table_of, root_at};
ghost use Rattle.gta_product.specs.Tables.{AreTables};

use bdd_nodes::{NodeRef, RefList, Shelf};
use bdd_walk::NoMemory;
use gta_core::Auto;
use std::alloc::Global;

/// The roots of both automata, as their tables have them: read once, and not looked up in the shelf for each join. And the
/// limit of the shelf's nodes.
#[derive(Drop)]
pub(crate) struct Tables {
    pub(crate) first: RefList,
    pub(crate) second: RefList,
    pub(crate) limit: u32,
}

impl Tables {
    /// Copies them from the shelf.
    pub(crate) fn read(alloc: Global, a: &Auto, b: &Auto, shelf: &Shelf) -> Result<Tables, NoMemory>
        ensures tables { IfOk result (AreTables shelf.now a.now b.now) }
        ensures shelf { IsShelf shelf.now }
    {
        let limit = shelf.limit();
        Ok(Tables {
            first: a.roots(alloc, shelf)?,
            second: b.roots(alloc, shelf)?,
            limit,
        })
    }
}

/// The root that an automaton has for a pair of child states of a space, read among the roots of its table.
#[inline]
pub(crate) fn root_in(
    a: &Auto,
    table: &[NodeRef],
    _shelf: &Shelf,
    space: u32,
    left: u32,
    right: u32,
) -> NodeRef
    requires shelf { IsShelf _shelf.now }
    requires table { table.now ≡ table_of _shelf.now a.now }
    requires known { IsSome (root_at _shelf.now a.now space left right) }
    ensures value { root_at _shelf.now a.now space left right ≡ Some result }
    ensures valid { IsValid _shelf.now result }
{
    let part = &a.parts()[space as usize];
    match part.root(table, left, right) {
        Some(root) => root,
        None => unreachable!(),
    }
}
