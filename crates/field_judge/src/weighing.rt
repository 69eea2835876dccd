//! The tracks that are weighed.

ghost use Rattle.std.specs.Prelude.{◌≡◌, Some, IfOk, OnOk};
ghost use Rattle.store_core.specs.Tables.{IsTypeTable};
ghost use Rattle.routing_walks.specs.Gathering.{Gathers, HasAll};
ghost use Rattle.field_judge.specs.Weighed.{IsTrackOf, IsVariantTrack};

use std::alloc::{AllocError, Global};
use store_core::{TypeId, VariantId};
use tree_encode::Layout;
use ws2s_core::{Track, TrackList};

/// Adds the track, if there is one.
fn push_track(tracks: &mut TrackList, track: Option<Track>) -> Result<(), AllocError>
    ensures { OnOk result (Gathers tracks.old tracks.new (λ t. track ≡ Some t)) }
{
    let Some(track) = track else {
        return Ok(());
    };
    tracks.push(track)?;
    Ok(())
}

/// Adds the tracks of the variants of a type.
fn push_tracks(tracks: &mut TrackList, l: &Layout<'_>, ty: TypeId) -> Result<(), AllocError>
    ensures { OnOk result (Gathers tracks.old tracks.new (IsTrackOf l.now.types ty)) }
{
    for index in 0..l.types().variants(ty) {
        push_track(tracks, l.variant_track(VariantId { ty, index }))?;
    }
    Ok(())
}

/// The tracks of all variants: the weight of a tree on them is the number of the cells of its store.
///
/// # Errors
///
/// Want of memory.
pub fn weighed(alloc: Global, l: &Layout<'_>) -> Result<TrackList, AllocError>
    ensures value { IfOk result (λ tracks. HasAll tracks (IsVariantTrack l.now.types)) }
    ensures inside { IsTypeTable l.now.types }
{
    let mut tracks = TrackList::new(alloc);
    for index in 0..l.types().types() {
        push_tracks(&mut tracks, l, TypeId(index))?;
    }
    Ok(tracks)
}
