//! The cuts that a code reaches.

ghost use Rattle.std.specs.Prelude.{◌≡◌, [], ◌∷◌, ◌++◌, length, position, OnOk};
ghost use Rattle.hoare_split.specs.Flows.{is_point};

use hoare_split::Point;
use plain_data::Items;
use std::alloc::{AllocError, Global};
use store_exec::{Cut, CutList};

/// Cut points with what is checked there, each once, in the order in which they were first reached.
#[derive(Drop)]
pub struct Reached {
    points: Items<Point>,
    cuts: CutList,
}

impl Reached {
    pub(crate) fn new(alloc: Global) -> Reached
        ensures points { result.points ≡ [] }
        ensures cuts { result.cuts ≡ [] }
    {
        Reached {
            points: Items::new(alloc),
            cuts: CutList::new(alloc),
        }
    }

    /// The place of a cut point among those that were reached, where it is there.
    pub(crate) fn find(&self, point: Point) -> Option<usize>
        ensures { result ≡ position (λ q. is_point q point) self.now.points }
    {
        self.points
            .as_slice()
            .iter()
            .position(|reached| reached.is(point))
    }

    /// Adds a cut point that wasn't reached before.
    pub(crate) fn add(&mut self, point: Point, cut: Cut) -> Result<(), AllocError>
        ensures points { OnOk result (self.new.points ≡ self.old.points ++ point ∷ []) }
        ensures cuts { OnOk result (self.new.cuts ≡ self.old.cuts ++ cut ∷ []) }
    {
        self.points.push(point)?;
        self.cuts.push(cut)?;
        Ok(())
    }

    /// How many cut points were reached.
    pub(crate) fn len(&self) -> usize
        ensures { result ≡ length self.now.points }
    {
        self.points.len()
    }

    /// The cuts in order.
    pub(crate) fn into_cuts(self) -> CutList
        ensures { result ≡ self.cuts }
    {
        let Reached {
            points: _points,
            cuts,
        } = self;
        cuts
    }
}
