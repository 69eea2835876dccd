//! The nodes of a pair of child states.

ghost use Rattle.std.specs.Prelude.{◌≡◌, ◌<◌, ◌≢◌, min, IfOk, OnErr};
ghost use Rattle.labels.specs.Labels.{Label, IsUnder, with_track};
ghost use Rattle.bdd_nodes.specs.Shelf.{IsShelf, IsValid, IsLeaf, IsSideFor, state_of};
ghost use Rattle.gta_atom.specs.Cells.{cell_step, cell_function, lower_track};
ghost use Rattle.gta_room.specs.Progress.{Adds, IsStuck};

use crate::kept::Kept;
use crate::known::{Form, Known};
use bdd_nodes::{Full, NodeRef, Shelf};

/// What is known of the two children of a node, the tracks of the atom, and the states of the node's space.
#[derive(Clone, Copy, Debug)]
pub(crate) struct Cell {
    pub(crate) form: Form,
    pub(crate) first: u32,
    pub(crate) second: u32,
    pub(crate) kept: Kept,
    pub(crate) left: Known,
    pub(crate) right: Known,
}

impl Cell {
    /// The function of the cell: from the labels to the numbers of states.
    pub(crate) fn root(self, shelf: &mut Shelf) -> Result<NodeRef, Full>
        requires { IsShelf shelf.old }
        ensures value { IfOk result (λ made. (label : Label) → state_of shelf.new made label ≡ cell_function self label) }
        ensures valid { IfOk result (IsValid shelf.new) }
        ensures adds { Adds (IsUnder (cell_function self)) shelf.old shelf.new }
        ensures stuck { OnErr result (IsStuck (IsUnder (cell_function self)) shelf.new) }
    {
        let low = self.side(false, shelf)?;
        let high = self.side(true, shelf)?;
        shelf.make(self.first.min(self.second), low, high)
    }

    /// The function with the lower track fixed.
    fn side(self, bit: bool, shelf: &mut Shelf) -> Result<NodeRef, Full>
        requires { IsShelf shelf.old }
        ensures value { IfOk result (λ made. (label : Label) →
            state_of shelf.new made label ≡ cell_function self (with_track label (lower_track self) bit)) }
        ensures side { IfOk result (IsSideFor shelf.new (lower_track self)) }
        ensures adds { Adds (IsUnder (cell_function self)) shelf.old shelf.new }
        ensures stuck { OnErr result (IsStuck (IsUnder (cell_function self)) shelf.new) }
    {
        if self.first == self.second {
            return Ok(self.end(bit, bit));
        }
        if self.first < self.second {
            let low = self.end(bit, false);
            let high = self.end(bit, true);
            return shelf.make(self.second, low, high);
        }
        let low = self.end(false, bit);
        let high = self.end(true, bit);
        shelf.make(self.first, low, high)
    }

    /// The state where it is known which of the sets have the root.
    fn end(self, first: bool, second: bool) -> NodeRef
        ensures { IsLeaf result (cell_step self first second) }
    {
        let known = self.form.step(self.left, self.right, first, second);
        Shelf::leaf(self.kept.number(known))
    }
}
