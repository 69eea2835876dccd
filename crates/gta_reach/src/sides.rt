//! The two children of a node: their spaces, their classes, and the roots that they have beside one another.

ghost use Rattle.std.specs.Prelude.{◌≡◌, ◌<◌, ℕ, length, slice_index};
ghost use Rattle.gta_reach.specs.Form.{root_in};
ghost use Rattle.gta_reach.specs.Sides.{kinds_in, cell_at, HasRootAt, child_of};

use crate::form::FormSpace;
use bdd_list::Listed;

/// The left or the right child.
#[derive(Clone, Copy, Debug)]
pub enum Side {
    Left,
    Right,
}

/// The classes of the states of a child.
#[inline]
pub fn kinds_of(space: &FormSpace, side: Side) -> &[u32]
    ensures { result.now ≡ kinds_in space.now side }
{
    match side {
        Side::Left => space.rows.as_slice(),
        Side::Right => space.columns.as_slice(),
    }
}

/// Which root a state of a child has with one of the other child.
#[inline]
pub fn cell_of(space: &FormSpace, side: Side, own: u32, beside: u32) -> usize
    requires { HasRootAt space.now side own beside }
    ensures value { result ≡ cell_at space.now side own beside }
    ensures within { result < length space.now.listing.roots }
{
    match side {
        Side::Left => space.cell(own, beside),
        Side::Right => space.cell(beside, own),
    }
}

/// What is listed for a state of a child with one of the other child.
#[inline]
pub fn listed_of(space: &FormSpace, side: Side, own: u32, beside: u32) -> Listed
    requires { HasRootAt space.now side own beside }
    ensures { result ≡ root_in space.now (cell_at space.now side own beside) }
{
    match side {
        Side::Left => space.listed(own, beside),
        Side::Right => space.listed(beside, own),
    }
}

/// The space of a child.
#[inline]
pub fn child(space: &FormSpace, side: Side) -> u32
    ensures { result ≡ child_of space.now side }
{
    match side {
        Side::Left => space.children.0,
        Side::Right => space.children.1,
    }
}

/// A number above all of these.
pub fn above(numbers: &[u32]) -> usize
    ensures { (i : ℕ) → slice_index numbers.now i < result }
{
    let mut above = 1;
    for number in numbers {
        if *number as usize >= above {
            above = *number as usize + 1;
        }
    }
    above
}
