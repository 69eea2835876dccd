//! The cells that stand in a tree.

ghost use Rattle.std.specs.Prelude.{◌≡◌, ◌++◌, [], length, IfOk, OnOk};
ghost use Rattle.ws2s_core.specs.LabelTrees.{assignment_of};
ghost use Rattle.store_core.specs.Tables.{variant_count};
ghost use Rattle.tree_encode.specs.Tracks.{variants_at, variants_from};
ghost use Rattle.tree_store.specs.Shapes.{LaysOut};
ghost use Rattle.witness_store.specs.Finding.{variant_on, variant_in, FindsCells, AreInside, AreNumbers};

use crate::preorder::{node_at, preorder};
use plain_data::at;
use std::alloc::{AllocError, Global};
use store_core::{CellId, TypeId, TypeTable, VariantId};
use tree_encode::Layout;
use ws2s_core::{LabelTree, Track, TreeNode};

/// A cell: the place of the node where it stands, and its variant.
#[derive(Clone, Copy)]
pub(crate) struct Found {
    pub node: u32,
    pub variant: VariantId,
}

/// Adds the variants of a type in order.
fn push_variants(
    variants: &mut Vec<VariantId>,
    types: &TypeTable,
    ty: TypeId,
) -> Result<(), AllocError>
    ensures { OnOk result (variants.new.items ≡ variants.old.items ++ variants_at ty.0 0 (variant_count types.now ty)) }
{
    for index in 0..types.variants(ty) {
        variants.push(VariantId { ty, index })?;
    }
    Ok(())
}

/// The variant of each track, for the first tracks, which are those of the variants.
fn variants_of(alloc: Global, types: &TypeTable) -> Result<Vec<VariantId>, AllocError>
    ensures { IfOk result (λ variants. variants.items ≡ variants_from 0 types.now) }
{
    let mut variants = Vec::new(alloc);
    for index in 0..types.types() {
        push_variants(&mut variants, types, TypeId(index))?;
    }
    Ok(variants)
}

/// The variant of the first of the tracks that is a variant's.
fn variant_of(tracks: &[Track], variants: &[VariantId]) -> Option<VariantId>
    ensures { result ≡ variant_on variants.now tracks.now }
{
    for track in tracks {
        if let Some(variant) = at(variants, track.0 as usize) {
            return Some(*variant);
        }
    }
    None
}

/// The variant of the cell at the node at a place, if one stands there.
fn variant_at(nodes: &[TreeNode], variants: &[VariantId], place: u32) -> Option<VariantId>
    ensures { result ≡ variant_in nodes.now variants.now place }
{
    let node = node_at(nodes, place)?;
    variant_of(node.tracks.as_slice(), variants)
}

/// The cells in preorder.
pub(crate) fn cells_of(
    alloc: Global,
    l: &Layout<'_>,
    tree: &LabelTree,
) -> Result<Vec<Found>, AllocError>
    requires { LaysOut l.now.types l.now.vars (assignment_of tree.now) }
    ensures found { IfOk result (λ found. FindsCells l.now.types tree.now found.items) }
    ensures inside { IfOk result (λ found. AreInside found.items (length tree.now)) }
{
    let nodes = tree.nodes();
    let variants = variants_of(alloc, l.types())?;
    let places = preorder(alloc, tree)?;
    let mut cells = Vec::new(alloc);
    for place in &places {
        if let Some(variant) = variant_at(nodes, variants.as_slice(), *place) {
            cells.push(Found {
                node: *place,
                variant,
            })?;
        }
    }
    Ok(cells)
}

/// So many nodes without a number.
fn no_numbers(alloc: Global, count: usize) -> Result<Vec<Option<CellId>>, AllocError>
    ensures { IfOk result (λ numbers. AreNumbers [] count numbers.items) }
{
    let mut numbers = Vec::new(alloc);
    for _ in 0..count {
        numbers.push(None)?;
    }
    Ok(numbers)
}

/// For each place of a node the number of the cell that stands there, the cells being numbered from 1 in this order.
pub(crate) fn numbers_of(
    alloc: Global,
    cells: &[Found],
    count: usize,
) -> Result<Vec<Option<CellId>>, AllocError>
    requires { AreInside cells.now count }
    ensures { IfOk result (λ numbers. AreNumbers cells.now count numbers.items) }
{
    let mut numbers = no_numbers(alloc, count)?;
    let mut next = 1u32;
    for cell in cells {
        numbers[cell.node as usize] = Some(CellId(next));
        next += 1;
    }
    Ok(numbers)
}
