//! The store of a tree.

ghost use Rattle.std.specs.Prelude.{◌≡◌, IfOk};
ghost use Rattle.ws2s_core.specs.LabelTrees.{assignment_of};
ghost use Rattle.tree_store.specs.Shapes.{LaysOut};
ghost use Rattle.tree_store.specs.Stores.{IsStoreOf};
ghost use Rattle.witness_store.specs.Pointers.{ArePointersSet};
ghost use Rattle.witness_store.specs.Results.{IsReadOff, IsReadOffButPointers};

use crate::cells::{cells_of, numbers_of};
use crate::fields::bodies_of;
use crate::set_pointers;
use crate::variables::variables_of;
use std::alloc::{AllocError, Global};
use store_core::Store;
use tree_encode::Layout;
use ws2s_core::LabelTree;

/// The store whose backbone the tree lays out on the tracks of the layout, with null in every pointer field. Its cells are
/// numbered from 1 in preorder. (Klarlund and Schwartzbach 1993.)
///
/// # Errors
///
/// Want of memory.
pub fn backbone_of(alloc: Global, l: &Layout<'_>, tree: &LabelTree) -> Result<Store, AllocError>
    requires { LaysOut l.now.types l.now.vars (assignment_of tree.now) }
    ensures { IfOk result (IsReadOff l.now.types l.now.vars (assignment_of tree.now)) }
{
    let nodes = tree.nodes();
    let cells = cells_of(alloc, l, tree)?;
    let numbers = numbers_of(alloc, cells.as_slice(), nodes.len())?;
    let bodies = bodies_of(alloc, l, nodes, numbers.as_slice(), cells.as_slice())?;
    let values = variables_of(alloc, l, nodes, cells.as_slice())?;
    let next = cells.len() as u32 + 1;
    Ok(Store::of(bodies, values, next))
}

/// The store whose backbone the tree lays out on the tracks of the layout. Its cells are numbered from 1 in preorder, and each
/// pointer field holds its only destination, or null where there is none and where there are several. (Klarlund and
/// Schwartzbach 1993.)
///
/// # Errors
///
/// Want of memory.
pub fn decode(alloc: Global, l: &Layout<'_>, tree: &LabelTree) -> Result<Store, AllocError>
    requires { LaysOut l.now.types l.now.vars (assignment_of tree.now) }
    ensures value { IfOk result (IsReadOffButPointers l.now.types l.now.vars (assignment_of tree.now)) }
    ensures store { IfOk result (IsStoreOf l.now.types l.now.vars (assignment_of tree.now)) }
    ensures pointers { IfOk result (ArePointersSet l.now.types) }
{
    let mut store = backbone_of(alloc, l, tree)?;
    set_pointers(alloc, l.types(), &mut store)?;
    Ok(store)
}
