//! Tests of labels.

ghost use Rattle.std.specs.Prelude.{◌≡◌, IfOk, map};
ghost use Rattle.std.specs.List.Sorted.{IsStrictlyIncreasing};
ghost use Rattle.labels.specs.Labels.{Label};
ghost use Rattle.bdd_nodes.specs.Shelf.{IsShelf, IsSideFor, IsValid, AsksFrom, state_of};
ghost use Rattle.ws2s_theory.specs.Trees.{label_of};
ghost use Rattle.gta_pinned.specs.Making.{Makes, where_same};
ghost use Rattle.gta_pinned.specs.Shapes.{Tells};
ghost use Rattle.gta_pinned.specs.States.{AreRising};

use bdd_nodes::{Full, NodeRef, Shelf};
use bdd_walk::NoMemory;
use std::alloc::Global;
use ws2s_core::{Track, TrackList};

/// The numbers of the tracks, each once, in rising order.
pub(crate) fn rising_of(alloc: Global, tracks: &TrackList) -> Result<Vec<u32>, NoMemory>
    ensures { IfOk result (λ rising. AreRising tracks.now rising.items) }
{
    let mut numbers = numbers_of(alloc, tracks.as_slice())?;
    numbers.sort_unstable();
    numbers.dedup();
    Ok(numbers)
}

/// The numbers of the tracks, in order.
fn numbers_of(alloc: Global, tracks: &[Track]) -> Result<Vec<u32>, NoMemory>
    ensures { IfOk result (λ numbers. numbers.items ≡ map (λ track. track.0) tracks.now) }
{
    tracks.iter().map(|track| track.0).collect(alloc)
}

/// Whether the tracks have this one.
fn has_track(tracks: &[Track], number: u32) -> bool
    ensures { result ≡ label_of tracks.now number }
{
    tracks.iter().any(|track| track.0 == number)
}

/// The function that is 1 at the labels that have, of the rising tracks, those that `known` has and no others; and 0 elsewhere.
pub(crate) fn telling(rising: &[u32], known: &[Track], shelf: &mut Shelf) -> Result<NodeRef, Full>
    requires shelf { IsShelf shelf.old }
    requires rises { IsStrictlyIncreasing rising.now }
    ensures tells { IfOk result (Tells shelf.new rising.now (label_of known.now)) }
    ensures makes { Makes shelf.old shelf.new }
{
    let mut test = Shelf::leaf(1);
    for k in (0..rising.len()).rev() {
        let track = rising[k];
        test = one_more(track, has_track(known, track), test, shelf)?;
    }
    Ok(test)
}

/// The function that is the test where the track is set as it is said, and 0 elsewhere.
fn one_more(track: u32, is_set: bool, test: NodeRef, shelf: &mut Shelf) -> Result<NodeRef, Full>
    requires { IsSideFor shelf.old track test }
    ensures value { IfOk result (λ made. (label : Label) →
        state_of shelf.new made label ≡ where_same (label track) is_set (state_of shelf.old test label)) }
    ensures valid { IfOk result (IsValid shelf.new) }
    ensures later { IfOk result (AsksFrom shelf.new track) }
    ensures makes { Makes shelf.old shelf.new }
{
    let none = Shelf::leaf(0);
    if is_set {
        shelf.make(track, none, test)
    } else {
        shelf.make(track, test, none)
    }
}
