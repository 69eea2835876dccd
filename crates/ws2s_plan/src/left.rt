//! Tracks that weren't eliminated.

ghost use Rattle.std.specs.Prelude.{◌≡◌, ◌==◌, ℕ, Bool, IfOk, OnOk, not, nat_eq, filter};
ghost use Rattle.std.specs.List.{list_any};
ghost use Rattle.std.specs.HashSet.{contains};
ghost use Rattle.ws2s_plan.specs.Plan.{is_gone};

use crate::network::Elimination;
use plain_data::Items;
use std::alloc::{AllocError, Global};
use std::collections::HashSet;
use ws2s_core::{Track, TrackList};

/// Those of the tracks that weren't eliminated, in their order.
///
/// # Errors
///
/// Want of memory.
pub fn tracks_left(
    alloc: Global,
    tracks: &[Track],
    eliminations: &[Elimination],
) -> Result<TrackList, AllocError>
    ensures { IfOk result (λ left. left ≡ filter (λ t. not (is_gone eliminations.now t)) tracks.now) }
{
    let gone = numbers_of(alloc, eliminations)?;
    let mut left = Items::new(alloc);
    for track in tracks {
        if !gone.contains(&track.0) {
            left.push(*track)?;
        }
    }
    Ok(left)
}

/// The numbers of the tracks that were eliminated.
fn numbers_of(alloc: Global, eliminations: &[Elimination]) -> Result<HashSet<u32>, AllocError>
    ensures { IfOk result (λ numbers. (t : ℕ) → contains nat_eq numbers t ≡ list_any (λ one. one.track.0 == t) eliminations.now) }
{
    let mut numbers = HashSet::new(alloc);
    for one in eliminations {
        numbers.insert(one.track.0)?;
    }
    Ok(numbers)
}
