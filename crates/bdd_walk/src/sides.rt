//! Sides of references under a track, and the track that is asked first.

ghost use Rattle.std.specs.Prelude.{◌≡◌, ◌++◌, ◌∷◌, [], Bool, true, List, Option, Some, None, map, IfOk, OnOk, IsTrue};
ghost use Rattle.std.specs.List.{list_all, AllByRecursion};
ghost use Rattle.labels.specs.Labels.{Label};
ghost use Rattle.bdd_nodes.specs.Shelf.{Contents, IsShelf, IsValid, top_of};
ghost use Rattle.bdd_nodes.specs.Changes.{is_valid};
ghost use Rattle.bdd_walk.specs.Asked.{leaves_of};
ghost use Rattle.bdd_walk.specs.Sides.{side_at, earlier_of, IsFirstOf, AreLeaves};

use crate::rule::StateList;
use bdd_nodes::{NodeRef, Shelf};
use std::alloc::{AllocError, Global};

/// The side of the reference where the track is fixed, if it is asked first; else the reference.
#[inline]
pub(crate) fn side_of(shelf: &Shelf, r: NodeRef, track: u32, bit: bool) -> NodeRef
    requires { IsValid shelf.now r }
    ensures { result ≡ side_at shelf.now track bit r }
{
    match shelf.top(r) {
        Some(first) if first == track => { if bit { shelf.high(r) } else { shelf.low(r) } }
        _ => r,
    }
}

/// The earlier of two tracks.
#[inline]
pub(crate) fn earlier(first: Option<u32>, second: Option<u32>) -> Option<u32>
    ensures { result ≡ earlier_of first second }
{
    match (first, second) {
        (Some(a), Some(b)) => Some(a.min(b)),
        (Some(a), None) => Some(a),
        (None, other) => other,
    }
}

/// The track that the references ask first; none where all are leaves.
pub(crate) fn first_track(shelf: &Shelf, roots: &[NodeRef]) -> Option<u32>
    requires { IsTrue (list_all (is_valid shelf.now) roots.now) }
    ensures { IsFirstOf shelf.now roots.now result }
{
    let mut first = None;
    for root in roots {
        first = earlier(first, shelf.top(*root));
    }
    first
}

/// The states of leaves.
pub(crate) fn states_of(
    alloc: Global,
    shelf: &Shelf,
    leaves: &[NodeRef],
) -> Result<StateList, AllocError>
    requires { AreLeaves shelf.now leaves.now }
    ensures { IfOk result (λ states. (other : Contents) (label : Label) → leaves_of other leaves.now label ≡ states) }
{
    let mut states = StateList::new(alloc);
    for leaf in leaves {
        match leaf.state() {
            Some(state) => states.push(state)?,
            None => unreachable!(),
        }
    }
    Ok(states)
}

/// Puts the sides of the references at the end of a list.
pub(crate) fn push_sides(
    sides: &mut Vec<NodeRef>,
    shelf: &Shelf,
    roots: &[NodeRef],
    track: u32,
    bit: bool,
) -> Result<(), AllocError>
    requires { IsTrue (list_all (is_valid shelf.now) roots.now) }
    ensures { OnOk result (sides.new.items ≡ sides.old.items ++ map (side_at shelf.now track bit) roots.now) }
{
    for root in roots {
        sides.push(side_of(shelf, *root, track, bit))?;
    }
    Ok(())
}
