//! Automata whose functions are listed.

ghost use Rattle.std.specs.Prelude.{◌≡◌, ◌<◌, length};

use bdd_list::{Listed, ListedNode, Listing};
use gta_classes::NumberList;
use plain_data::Items;

/// The states of a space, and which function each pair of child states has.
///
/// Child states with the same functions may share a class, so that a function is kept for a pair of classes.
#[derive(Debug, Drop)]
pub struct FormSpace {
    /// How many states the space has: they are the numbers below.
    pub states: u32,
    pub initial: u32,
    /// The spaces of the left and of the right child.
    pub children: (u32, u32),
    /// The functions: its roots, each of which may be that of many pairs.
    pub listing: Listing,
    /// The class of each state of the left child: a row of `cells`.
    pub rows: NumberList,
    /// The class of each state of the right child: a column of `cells`.
    pub columns: NumberList,
    /// How many cells a row has.
    pub width: u32,
    /// Row after row, which root of the listing a pair of classes has.
    pub cells: NumberList,
}

/// The part of each space, in order.
pub type FormSpaceList = Items<FormSpace>;

/// An automaton whose functions are listed.
#[derive(Debug, Drop)]
pub struct Form {
    pub spaces: FormSpaceList,
    /// For each state of space 0 whether it is accepting.
    pub accepting: Items<bool>,
}

impl Form {
    ghost use Rattle.std.specs.Prelude.{Some, slice_get};

    /// The part of a space.
    #[inline]
    pub fn space(&self, s: usize) -> &FormSpace
        requires { s < length self.now.spaces }
        ensures { slice_get self.now.spaces s ≡ Some result.now }
    {
        &self.spaces.as_slice()[s]
    }
}

impl FormSpace {
    ghost use Rattle.bdd_list.specs.Listing.{node_at};
    ghost use Rattle.gta_reach.specs.Form.{cell_in, root_in};
    ghost use Rattle.gta_reach.specs.Reached.{HasRoot};

    /// Which root of the listing a pair of child states has.
    #[inline]
    pub fn cell(&self, left: u32, right: u32) -> usize
        requires { HasRoot self.now left right }
        ensures value { result ≡ cell_in self.now left right }
        ensures within { result < length self.now.listing.roots }
    {
        let row = self.rows.as_slice()[left as usize] as usize;
        let column = self.columns.as_slice()[right as usize] as usize;
        self.cells.as_slice()[row * self.width as usize + column] as usize
    }

    /// What is listed for a pair of child states.
    #[inline]
    pub fn listed(&self, left: u32, right: u32) -> Listed
        requires { HasRoot self.now left right }
        ensures { result ≡ root_in self.now (cell_in self.now left right) }
    {
        self.listing.roots.as_slice()[self.cell(left, right)]
    }

    /// A node of the listing.
    #[inline]
    pub fn node(&self, index: u32) -> ListedNode
        requires { index < length self.now.listing.nodes }
        ensures { result ≡ node_at self.now.listing.nodes index }
    {
        self.listing.nodes.as_slice()[index as usize]
    }
}
