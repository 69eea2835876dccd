//! What is read off at the places of nodes.

ghost use Rattle.std.specs.Prelude.{◌≡◌, slice_get, false};
ghost use Rattle.std.specs.Option.{option_and_then};
ghost use Rattle.ws2s_theory.specs.Trees.{label_of};
ghost use Rattle.witness_store.specs.Reading.{left_of_node, right_of_node, has_track, number_in};

use crate::preorder::node_at;
use store_core::CellId;
use ws2s_core::{Track, TreeNode};

/// The place of the left child of a node.
pub(crate) fn left_of(nodes: &[TreeNode], place: Option<u32>) -> Option<u32>
    ensures { result ≡ left_of_node nodes.now place }
{
    node_at(nodes, place?)?.left
}

/// The place of the right child of a node.
pub(crate) fn right_of(nodes: &[TreeNode], place: Option<u32>) -> Option<u32>
    ensures { result ≡ right_of_node nodes.now place }
{
    node_at(nodes, place?)?.right
}

/// Whether a node's tracks have this one.
fn is_among(tracks: &[Track], track: Track) -> bool
    ensures { result ≡ label_of tracks.now track.0 }
{
    tracks.iter().any(|known| known.0 == track.0)
}

/// Whether the position of the node at a place is on the track, if both are there.
pub(crate) fn is_on(nodes: &[TreeNode], place: Option<u32>, track: Option<Track>) -> bool
    ensures { result ≡ has_track nodes.now place track }
{
    let Some(place) = place else {
        return false;
    };
    let Some(track) = track else {
        return false;
    };
    match node_at(nodes, place) {
        Some(node) => is_among(node.tracks.as_slice(), track),
        None => false,
    }
}

/// The number of the cell that stands at a place, if one does.
pub(crate) fn number_at(numbers: &[Option<CellId>], place: Option<u32>) -> Option<CellId>
    ensures { result ≡ number_in numbers.now place }
{
    *numbers.get(place? as usize)?
}
