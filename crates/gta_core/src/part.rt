//! The part of an automaton that a space has.

ghost use Rattle.std.specs.Prelude.{◌≡◌, IfOk};

use bdd_nodes::NodeRef;
use bdd_walk::NoMemory;
use plain_data::Items;
use std::alloc::Global;

/// The states of a space, and which root each pair of child states has.
///
/// States of a child with the same roots may share a class, so that a root is kept for a pair of classes.
#[derive(Debug, Drop)]
pub struct Part {
    /// How many states the space has: they are the numbers below.
    pub states: u32,
    pub initial: u32,
    /// The spaces of the left and of the right child.
    pub children: (u32, u32),
    /// Where the roots of this space begin in the table.
    pub first: u32,
    /// The class of each state of the left child: a row of `cells`.
    pub rows: Items<u32>,
    /// The class of each state of the right child: a column of `cells`.
    pub columns: Items<u32>,
    /// How many cells a row has.
    pub width: u32,
    /// Row after row, which root a pair of classes has, counted from `first`.
    pub cells: Items<u32>,
}

impl Part {
    ghost use Rattle.gta_core.specs.Auto.{place_in, root_among};

    /// Where the root of a pair of child states stands in the table. `None` for an unknown state.
    #[inline]
    pub(crate) fn place(&self, left: u32, right: u32) -> Option<usize>
        ensures { result ≡ place_in self.now left right }
    {
        let row = *self.rows.get(left as usize)? as usize;
        let column = *self.columns.get(right as usize)? as usize;
        let cell = *self.cells.get(row * self.width as usize + column)? as usize;
        Some(self.first as usize + cell)
    }

    /// The root of a pair of child states, where the automaton's table has these roots. `None` for an unknown state, and for a
    /// place that they don't have. Takes no memory.
    #[inline]
    pub fn root(&self, roots: &[NodeRef], left: u32, right: u32) -> Option<NodeRef>
        ensures { result ≡ root_among roots.now self.now left right }
    {
        roots.get(self.place(left, right)?).copied()
    }

    /// An equal part.
    pub(crate) fn copy(&self, alloc: Global) -> Result<Part, NoMemory>
        ensures { IfOk result (λ copy. copy ≡ self.now) }
    {
        Ok(Part {
            states: self.states,
            initial: self.initial,
            children: self.children,
            first: self.first,
            rows: Items::from_slice(alloc, self.rows.as_slice())?,
            columns: Items::from_slice(alloc, self.columns.as_slice())?,
            width: self.width,
            cells: Items::from_slice(alloc, self.cells.as_slice())?,
        })
    }
}
