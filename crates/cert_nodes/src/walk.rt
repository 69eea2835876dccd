//! Walks down from lists of spots.

ghost use Rattle.std.specs.Prelude.{Contains, IfOk, List, ℕ};
ghost use Rattle.labels.specs.Labels.{Label};
ghost use Rattle.cert_nodes.specs.declared.spots.Spot.{Spot};
ghost use Rattle.cert_nodes.specs.Spots.{AreDrawn, states_at, IsLedTo};
ghost use Rattle.cert_nodes.specs.Walks.{IsStepFrom};

use crate::met::SpotListSet;
use crate::sides::{first_track, leaves, sides};
use crate::spots::{Diagrams, Spot};
use plain_data::Items;
use std::alloc::{AllocError, Global};

/// States, in the order of spots.
pub type StateList = Items<u32>;

/// Where a list of spots leads to.
#[derive(Drop)]
pub(crate) enum Step {
    /// These states, on each label.
    Leaf(StateList),
    /// The sides, with the first track unset and with it set.
    Split(Vec<Spot>, Vec<Spot>),
}

/// The step down from a list of spots.
fn step_from(
    alloc: Global,
    nodes: &Diagrams,
    dropped: u32,
    spots: &[Spot],
) -> Result<Step, AllocError>
    ensures { IfOk result (IsStepFrom nodes.now dropped spots.now) }
{
    match first_track(nodes, spots) {
        None => Ok(Step::Leaf(leaves(alloc, spots)?)),
        Some(track) => {
            let low = sides(alloc, nodes, dropped, track, false, spots)?;
            let high = sides(alloc, nodes, dropped, track, true, spots)?;
            Ok(Step::Split(low, high))
        }
    }
}

/// The lists of states that lists of spots lead to, over all labels. Each list of spots on the way down is looked at once.
pub fn led_to(
    alloc: Global,
    nodes: &Diagrams,
    dropped: u32,
    starts: SpotListSet,
) -> Result<Items<StateList>, AllocError>
    requires { AreDrawn nodes.now }
    ensures all { IfOk result (λ lists. (spots : List Spot) (label : Label) → Contains starts spots →
        Contains lists (states_at nodes.now dropped spots label)) }
    ensures only { IfOk result (λ lists. (states : List ℕ) → Contains lists states → IsLedTo nodes.now dropped starts states) }
{
    let mut met = starts;
    let mut lists = Items::new(alloc);
    for place in 0..usize::MAX {
        let Some(spots) = met.list(place) else {
            return Ok(lists);
        };
        match step_from(alloc, nodes, dropped, spots)? {
            Step::Leaf(states) => lists.push(states)?,
            Step::Split(low, high) => {
                met.insert(low)?;
                met.insert(high)?;
            }
        }
    }
    Err(AllocError)
}
