//! Stores as trees, and back.

ghost use Rattle.std.specs.Prelude.{IfOk};
ghost use Rattle.store_core.specs.Stores.{Fits};
ghost use Rattle.routing_walks.specs.WellFormed.{IsWellFormed};

use crate::layouts::write_layout;
use crate::lines::Stop;
use crate::spelling::push_number;
use plain_writer::Writer;
use routing_expr::well_formed;
use std::alloc::{AllocError, Global};
use store_core::Store;
use store_text::{read_store, read_stores_fit, store_text};
use tree_encode::Layout;
use tree_store::encode;
use witness_store::decode;
use ws2s_core::TreeNode;

/// Puts the number of a child's position: the root has 1, and the children of n are 2n and 2n + 1.
fn put_position(positions: &mut [u64], child: Option<u32>, number: u64) {
    let Some(child) = child else {
        return;
    };
    if let Some(place) = positions.get_mut(child as usize) {
        *place = number;
    }
}

/// The number of each node's position. Nodes stand behind their children, and no position here is deeper than 62.
fn positions_of(alloc: Global, nodes: &[TreeNode]) -> Result<Vec<u64>, AllocError> {
    let mut positions = vec![in alloc; 1u64; nodes.len()]?;
    for k in (0..nodes.len()).rev() {
        let (Some(node), Some(here)) = (nodes.get(k), positions.get(k)) else {
            break;
        };
        let first = here.wrapping_mul(2);
        put_position(&mut positions, node.left, first);
        put_position(&mut positions, node.right, first.wrapping_add(1));
    }
    Ok(positions)
}

/// Writes the position with this number, as letters `0` and `1` from the root down.
fn write_position(out: &mut Writer, number: u64) {
    out.push_all(b" [");
    for level in (0..64u32).rev() {
        let rest = number >> level;
        if rest > 1 {
            out.push(if rest % 2 == 0 { b'0' } else { b'1' });
        }
    }
    out.push(b']');
}

/// Writes a node that has tracks: its position and they.
fn write_node(out: &mut Writer, node: &TreeNode, number: u64) {
    if node.tracks.is_empty() {
        return;
    }
    write_position(out, number);
    for track in node.tracks.as_slice() {
        out.push(b' ');
        push_number(out, track.0);
    }
}

/// Writes the nodes that have tracks, each with its position.
fn write_nodes(nodes: &[TreeNode], positions: &[u64], out: &mut Writer) {
    out.push_all(b"tree");
    for (node, number) in nodes.iter().zip(positions.iter()) {
        write_node(out, node, *number);
    }
    out.push(b'\n');
}

/// Writes the positions of a tree that have tracks, the root last, each with its tracks.
fn write_tree(alloc: Global, nodes: &[TreeNode], out: &mut Writer) -> Result<(), AllocError> {
    let positions = positions_of(alloc, nodes)?;
    write_nodes(nodes, &positions, out);
    Ok(())
}

/// Writes the tree of a store.
fn write_encoded(
    alloc: Global,
    l: &Layout<'_>,
    store: &Store,
    out: &mut Writer,
) -> Result<(), AllocError> {
    let tree = encode(alloc, l, store)?;
    write_tree(alloc, tree.nodes(), out)
}

/// The store that is read off the tree of a well-formed one.
fn back_from_tree(alloc: Global, l: &Layout<'_>, store: &Store) -> Result<Store, AllocError>
    requires { IsWellFormed l.now.types l.now.vars store.now }
    ensures { IfOk result (Fits l.now.types l.now.vars) }
{
    let tree = encode(alloc, l, store)?;
    let back = decode(alloc, l, &tree)?;
    Ok(back)
}

/// Writes a store as a text.
fn write_plainly(
    alloc: Global,
    l: &Layout<'_>,
    store: &Store,
    out: &mut Writer,
) -> Result<(), AllocError>
    requires { Fits l.now.types l.now.vars store.now }
{
    let text = store_text(alloc, l.types(), l.vars(), store)?;
    out.push_all(&text);
    Ok(())
}

/// Writes the store that is read off the tree of a well-formed one.
fn write_back(
    alloc: Global,
    l: &Layout<'_>,
    store: &Store,
    out: &mut Writer,
) -> Result<(), AllocError>
    requires { IsWellFormed l.now.types l.now.vars store.now }
{
    let back = back_from_tree(alloc, l, store)?;
    write_plainly(alloc, l, &back, out)
}

/// Writes the tree of a store, and where it is well-formed the store that is read off it.
fn write_store(alloc: Global, l: &Layout<'_>, store: &Store, out: &mut Writer) -> Result<(), Stop>
    requires { Fits l.now.types l.now.vars store.now }
{
    write_encoded(alloc, l, store, out)?;
    match well_formed(alloc, l.types(), l.vars(), store)? {
        None => Ok(write_back(alloc, l, store, out)?),
        Some(_) => {
            out.push_all(b"no well-formed store\n");
            Ok(())
        }
    }
}

/// The store of a text.
fn store_of(alloc: Global, l: &Layout<'_>, text: &[u8]) -> Result<Store, Stop>
    ensures { IfOk result (λ store. Fits l.now.types l.now.vars store) }
{
    if text.len() > 10_000 {
        return Err(Stop);
    }
    read_stores_fit();
    match read_store(alloc, l.types(), l.vars(), text) {
        Ok(store) => Ok(store),
        Err(_) => Err(Stop),
    }
}

/// Writes the tree of a text's store, and the store that comes back.
fn write_text(alloc: Global, l: &Layout<'_>, text: &str, out: &mut Writer) -> Result<(), Stop> {
    let store = store_of(alloc, l, text.as_bytes())?;
    write_store(alloc, l, &store, out)
}

/// Writes the layout, and for each store its tree and the store that comes back.
pub(crate) fn write_stores(
    alloc: Global,
    l: &Layout<'_>,
    texts: &str,
    out: &mut Writer,
) -> Result<(), Stop> {
    write_layout(alloc, l, out)?;
    for text in texts.split_terminator("\n\n") {
        write_text(alloc, l, text, out)?;
    }
    Ok(())
}
