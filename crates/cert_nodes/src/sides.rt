//! Sides of spots under a track, and the track that is asked first.

ghost use Rattle.std.specs.Prelude.{◌≡◌, map, IfOk};
ghost use Rattle.cert_nodes.specs.Spots.{bit_for, side_at, track_at, earlier_of, leaf_of, IsFirstOf};

use crate::spots::{Diagrams, Spot};
use cert_text::Target;
use plain_data::Items;
use std::alloc::{AllocError, Global};

/// Which side is taken at a node that asks the track.
fn bit_for(dropped: u32, track: u32, bit: bool, fixed: Option<bool>) -> bool
    ensures { result ≡ bit_for dropped track bit fixed }
{
    match fixed {
        Some(fixed) => { if track == dropped { fixed } else { bit } }
        None => bit,
    }
}

/// The spot's side, if its node asks the track; else the spot.
fn side(nodes: &Diagrams, dropped: u32, track: u32, bit: bool, spot: Spot) -> Spot
    ensures { result ≡ side_at nodes.now dropped track bit spot }
{
    match nodes.node(spot) {
        Some(node) => {
            if node.track == track {
                let is_high = bit_for(dropped, track, bit, spot.fixed);
                Spot {
                    target: if is_high { node.high } else { node.low },
                    ..spot
                }
            } else {
                spot
            }
        }
        None => spot,
    }
}

/// The sides of spots, in order.
pub(crate) fn sides(
    alloc: Global,
    nodes: &Diagrams,
    dropped: u32,
    track: u32,
    bit: bool,
    spots: &[Spot],
) -> Result<Vec<Spot>, AllocError>
    ensures { IfOk result (λ sides. sides.items ≡ map (side_at nodes.now dropped track bit) spots.now) }
{
    let mut sides = Vec::with_capacity(alloc, spots.len())?;
    for spot in spots {
        sides.push(side(nodes, dropped, track, bit, *spot))?;
    }
    Ok(sides)
}

/// The track that a spot's node asks.
fn track(nodes: &Diagrams, spot: Spot) -> Option<u32>
    ensures { result ≡ track_at nodes.now spot }
{
    match nodes.node(spot) {
        Some(node) => Some(node.track),
        None => None,
    }
}

/// The earlier of two tracks.
fn earlier(first: Option<u32>, second: Option<u32>) -> Option<u32>
    ensures { result ≡ earlier_of first second }
{
    match (first, second) {
        (Some(a), Some(b)) => Some(a.min(b)),
        (Some(a), None) => Some(a),
        (None, other) => other,
    }
}

/// The track that is asked first; none where no spot has a node.
pub(crate) fn first_track(nodes: &Diagrams, spots: &[Spot]) -> Option<u32>
    ensures { IsFirstOf nodes.now spots.now result }
{
    let mut first = None;
    for spot in spots {
        first = earlier(first, track(nodes, *spot));
    }
    first
}

/// The states of spots without nodes, in order.
pub(crate) fn leaves(alloc: Global, spots: &[Spot]) -> Result<Items<u32>, AllocError>
    ensures { IfOk result (λ states. states ≡ map (λ spot. leaf_of spot.target) spots.now) }
{
    let mut states = Items::new(alloc);
    for spot in spots {
        let state = match spot.target {
            Target::State(state) => state,
            Target::Node(_) => 0,
        };
        states.push(state)?;
    }
    Ok(states)
}
