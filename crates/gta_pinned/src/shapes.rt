//! Shapes of subtrees, and their states.

ghost use Rattle.std.specs.Prelude.{◌≡◌, ◌<◌, ◌^◌, [], ◌∷◌, length, IfOk};
ghost use Rattle.ws2s_core.specs.Nodes.{AddsAtMost};
ghost use Rattle.gta_pinned.specs.Shapes.{AreListed, IsStateOf};

use bdd_nodes::NodeRef;
use indexmap::IndexSet;
use std::alloc::{AllocError, Global};
use std::marker::Model;

/// What the tracks say of a subtree.
#[derive(Clone, Copy, Debug, PartialEq, Eq, Hash)]
pub(crate) struct Shape {
    /// The state of the left half in its space.
    pub(crate) left: u32,
    /// The state of the right half in its space.
    pub(crate) right: u32,
    /// The function that is 1 at the labels that have, of the tracks, what the root has, and 0 at the others.
    pub(crate) test: NodeRef,
}

/// The state of every subtree without a shape.
pub(crate) const ASTRAY: u32 = 0;

/// The state of the subtree without nodes.
pub(crate) const EMPTY: u32 = 1;

/// The most shapes that there are states for.
const MOST: usize = (1 << 31) - 1;

/// The shapes of a space in the order in which they came. The state of a shape is its place, counted from 1.
#[derive(Drop)]
pub(crate) struct Shapes {
    shapes: IndexSet<Shape>,
}

impl Model for Shapes {
    ghost use Rattle.std.specs.Prelude.{List};
    ghost use Rattle.gta_pinned.specs.declared.shapes.Shape.{Shape};
    ghost use Rattle.gta_pinned.specs.Shapes.{AreListed};

    ghost Value = { List Shape };

    ghost view = { λ list. list.shapes.keys };

    ghost invariant = { λ list. AreListed list.shapes.keys };
}

impl Shapes {
    /// No shapes yet. Takes no memory.
    fn new(alloc: Global) -> Shapes
        ensures { result ≡ [] }
    {
        Shapes {
            shapes: IndexSet::new(alloc),
        }
    }

    /// One shape.
    pub(crate) fn of(alloc: Global, shape: Shape) -> Result<Shapes, AllocError>
        ensures { IfOk result (λ shapes. shapes ≡ shape ∷ []) }
    {
        let mut shapes = Shapes::new(alloc);
        shapes.state(shape)?;
        Ok(shapes)
    }

    pub(crate) fn as_slice(&self) -> &[Shape]
        ensures shapes { result.now ≡ self.now }
        ensures listed { AreListed self.now }
    {
        self.shapes.as_slice()
    }

    pub(crate) fn len(&self) -> usize
        ensures value { result ≡ length self.now }
        ensures listed { AreListed self.now }
    {
        self.shapes.as_slice().len()
    }

    /// The state of a shape, which comes where it wasn't there. Want of memory, also where no state is left, changes nothing.
    pub(crate) fn state(&mut self, shape: Shape) -> Result<u32, AllocError>
        ensures value { IfOk result (IsStateOf self.new shape) }
        ensures small { IfOk result (λ state. state < 2 ^ 31) }
        ensures added { AddsAtMost self.old shape self.new }
        ensures listed { AreListed self.new }
    {
        if self.shapes.len() >= MOST {
            return Err(AllocError);
        }
        let (place, _) = self.shapes.insert_full(shape)?;
        Ok(place as u32 + 1)
    }
}
