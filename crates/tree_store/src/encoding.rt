//! The tree of a store.

ghost use Rattle.std.specs.Prelude.{IfOk};
ghost use Rattle.tree_store.specs.Encoding.{IsTreeOf};

use crate::grow::{grown, turned};
use crate::rows::rows_of;
use std::alloc::{AllocError, Global};
use store_core::Store;
use tree_encode::Layout;
use ws2s_core::LabelTree;

/// The tree of a store over the tables of a layout: each live cell that a data variable leads to stands at its position, on the
/// tracks of its variant, of its true bool fields and of the variables that name it, and each true variable has the root.
///
/// On a backbone these are all cells, each at one position. On any other store a cell stands at each position to which data
/// fields lead; where they lead round in a circle, there is no such tree.
///
/// # Errors
///
/// Want of memory, also where the tree has more nodes than a `LabelTree` holds.
pub fn encode(alloc: Global, l: &Layout<'_>, store: &Store) -> Result<LabelTree, AllocError>
    ensures { IfOk result (λ tree. IsTreeOf l.now.types l.now.vars store.now tree) }
{
    let rows = rows_of(alloc, l)?;
    let nodes = grown(alloc, l, &rows, store)?;
    Ok(LabelTree::new(turned(alloc, nodes)?))
}
