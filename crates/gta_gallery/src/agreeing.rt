//! Trees that agree with one on some tracks.

ghost use Rattle.std.specs.Prelude.{◌≤◌, IfOk};
ghost use Rattle.bdd_nodes.specs.Shelf.{IsShelf};
ghost use Rattle.gta_core.specs.Auto.{IsAuto};

use crate::lines::number_of;
use crate::trees::tree_of;
use bdd_nodes::Shelf;
use bdd_walk::Stop;
use gta_core::Auto;
use gta_pinned::pinned;
use gta_product::product;
use plain_data::Items;
use std::alloc::Global;
use ws2s_core::{Guide, LabelTree, Track};

/// A tree by its number, and up to two tracks.
#[derive(Clone, Copy)]
pub(crate) struct Agreement {
    size: u32,
    number: u32,
    first: u32,
    second: u32,
    ghost small: { size ≤ 4 },
}

impl Agreement {
    /// The agreement of a word: `like.3.17.0` is that with the tree of number 17 among those of three nodes on track 0, and
    /// `like.3.17.0.1` that on both tracks.
    pub(crate) fn of(word: &str) -> Option<Agreement> {
        let (size, rest) = word.strip_prefix("like.")?.split_once('.')?;
        let (number, tracks) = rest.split_once('.')?;
        let (first, second) = tracks.split_once('.').unwrap_or((tracks, tracks));
        let size = number_of(size);
        if size > 4 {
            return None;
        }
        Some(Agreement {
            size,
            number: number_of(number),
            first: number_of(first),
            second: number_of(second),
        })
    }
}

/// The product of an automaton and that of the trees that agree with one.
fn agreeing_with(
    alloc: Global,
    g: &Guide,
    a: &Auto,
    tree: &LabelTree,
    agreement: Agreement,
    shelf: &mut Shelf,
) -> Result<Auto, Stop>
    requires shelf { IsShelf shelf.old }
    requires auto { IsAuto g.now shelf.old a.now }
    ensures auto { IfOk result (IsAuto g.now shelf.new) }
    ensures shelf { IsShelf shelf.new }
{
    let tracks = Items::from_slice(alloc, &[Track(agreement.first), Track(agreement.second)])?;
    let b = pinned(alloc, g, tree, &tracks, shelf)?;
    product(alloc, g, a, &b, shelf)
}

/// The product of an automaton and that of the trees that agree.
pub(crate) fn agreeing(
    alloc: Global,
    g: &Guide,
    a: &Auto,
    agreement: Agreement,
    shelf: &mut Shelf,
) -> Result<Auto, Stop>
    requires shelf { IsShelf shelf.old }
    requires auto { IsAuto g.now shelf.old a.now }
    ensures auto { IfOk result (IsAuto g.now shelf.new) }
    ensures shelf { IsShelf shelf.new }
{
    let tree = LabelTree::new(tree_of(alloc, agreement.size, agreement.number)?);
    agreeing_with(alloc, g, a, &tree, agreement, shelf)
}
