//! Tracks: the numbers of the variables of a formula.

use plain_data::Items;

/// The number of a track, which stands for a set of positions.
#[derive(Clone, Copy, Debug, PartialEq, Eq, PartialOrd, Ord, Hash)]
pub struct Track(pub u32);

/// Tracks, in an order.
pub type TrackList = Items<Track>;
