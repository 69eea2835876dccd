//! The guides that a head names.

use plain_data::Items;
use std::alloc::{AllocError, Global};
use ws2s_core::Guide;

/// The guide of that name; that of one space for any other.
pub(crate) fn guide_of(alloc: Global, name: &str) -> Result<Guide, AllocError> {
    match name {
        "above" => above(alloc),
        "beside" => beside(alloc),
        "apart" => apart(alloc),
        "round" => round(alloc),
        "layout" => layout(alloc),
        _ => Guide::plain(alloc),
    }
}

/// The root's space is nobody's child.
fn above(alloc: Global) -> Result<Guide, AllocError> {
    Guide::new(alloc, Items::from_slice(alloc, &[(1, 1), (1, 1)])?)
}

/// No position has space 1.
fn beside(alloc: Global) -> Result<Guide, AllocError> {
    Guide::new(alloc, Items::from_slice(alloc, &[(0, 0), (1, 0)])?)
}

/// The root, and its children, which have spaces of their own.
fn apart(alloc: Global) -> Result<Guide, AllocError> {
    Guide::new(alloc, Items::from_slice(alloc, &[(1, 2), (1, 1), (2, 2)])?)
}

/// A root whose right children's left children are roots.
fn round(alloc: Global) -> Result<Guide, AllocError> {
    Guide::new(alloc, Items::from_slice(alloc, &[(1, 0), (1, 1), (2, 0)])?)
}

/// As of a layout: the root, slots, the rest, a slot's fields, and a space that no position has.
fn layout(alloc: Global) -> Result<Guide, AllocError> {
    let spaces = Items::from_slice(alloc, &[(2, 1), (3, 1), (2, 2), (2, 2), (0, 4)])?;
    Guide::new(alloc, spaces)
}
