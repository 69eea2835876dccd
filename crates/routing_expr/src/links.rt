//! Which cells hold a cell: an index from child to parent.

ghost use Rattle.std.specs.Prelude.{◌≡◌, Contains};
ghost use Rattle.std.specs.List.Sorted.{IsNonDecreasingBy};
ghost use Rattle.routing_walks.specs.Gathering.{HasAll};

use store_core::{CellId, FieldId};

/// A field of a live cell that holds a live cell.
#[derive(Clone, Copy)]
pub(crate) struct Link {
    pub(crate) child: CellId,
    pub(crate) parent: CellId,
    pub(crate) field: FieldId,
}

/// The links of a store.
#[derive(Drop)]
pub(crate) struct Links {
    /// By rising number of the child, so that those of a child stand together and are found by halving.
    pub(crate) links: Vec<Link>,
    ghost rising: { IsNonDecreasingBy (λ link. link.child.0) links.items },
}

impl Links {
    /// The links to a cell. Takes no memory.
    pub(crate) fn to(&self, child: CellId) -> &[Link]
        ensures { HasAll result.now (λ link. Contains self.now.links.items link × (link.child ≡ child)) }
    {
        let links = self.links.as_slice();
        let start = links.partition_point(|link| link.child.0 < child.0);
        let end = links.partition_point(|link| link.child.0 <= child.0);
        &links[start..end]
    }
}
