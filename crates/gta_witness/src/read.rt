//! By which step a state has its weight.

ghost use Rattle.std.specs.Prelude.{◌≡◌, ◌<◌, ℕ, Some, IfOk, length, slice_get};
ghost use Rattle.gta_reach.specs.declared.form.FormSpace.{FormSpace};
ghost use Rattle.gta_witness.specs.declared.goal.Goal.TheVariants.{State};
ghost use Rattle.gta_witness.specs.declared.goal.Weight.{Weight};
ghost use Rattle.gta_witness.specs.declared.goal.Reason.TheVariants.{Member};
ghost use Rattle.gta_witness.specs.Searching.{found_by, IsSettled};
ghost use Rattle.gta_witness.specs.Reading.{IsReadable, HasReason, HasSomeStep, AddsTrack};

use crate::goal::{Goal, Reason};
use crate::relax::Search;
use gta_reach::Form;
use plain_data::Items;
use std::alloc::{AllocError, Global};
use ws2s_core::{Track, TrackList};

/// A step that gives a state: the tracks of the label, and the states of the children.
#[derive(Drop)]
pub(crate) struct Step {
    pub tracks: TrackList,
    pub left: u32,
    pub right: u32,
}

/// By what a settled goal has its weight.
fn reason_of(search: &Search, goal: Goal) -> Reason
    requires { (w : Weight) × IsSettled (found_by search.now) goal w }
    ensures { HasReason (found_by search.now) goal result }
{
    let Some(found) = search.at(goal) else {
        unreachable!()
    };
    found.reason
}

/// The state by which a class has its weight.
fn member_of(search: &Search, goal: Goal) -> u32
    requires { (state : ℕ) × HasReason (found_by search.now) goal (Member state) }
    ensures { HasReason (found_by search.now) goal (Member result) }
{
    let Some(found) = search.at(goal) else {
        unreachable!()
    };
    let Reason::Member { state } = found.reason else {
        unreachable!()
    };
    state
}

/// Adds the track of a node, if its high side was taken.
fn add_track(
    form: &Form,
    tracks: &mut TrackList,
    space: u32,
    index: u32,
    is_high: bool,
) -> Result<(), AllocError>
    requires { (part : FormSpace) × (slice_get form.now.spaces space ≡ Some part) × (index < length part.listing.nodes) }
    ensures { IfOk result (λ done. AddsTrack form.now tracks.old tracks.new space index is_high) }
{
    if !is_high {
        return Ok(());
    }
    let Some(part) = form.spaces.get(space as usize) else {
        unreachable!()
    };
    let Some(node) = part.listing.nodes.get(index as usize) else {
        unreachable!()
    };
    tracks.push(Track(node.track))?;
    Ok(())
}

/// The step by which a state has its weight; none for an initial state.
pub(crate) fn step_of(
    alloc: Global,
    form: &Form,
    weigh: &[Track],
    search: &Search,
    space: u32,
    state: u32,
) -> Result<Option<Step>, AllocError>
    requires readable { IsReadable form.now weigh.now (found_by search.now) }
    requires settled { (w : Weight) × IsSettled (found_by search.now) (State space state) w }
    ensures { IfOk result (HasSomeStep form.now weigh.now (found_by search.now) space state) }
{
    let mut tracks = Items::new(alloc);
    let mut goal = Goal::State { space, state };
    loop {
        match reason_of(search, goal) {
            Reason::Initial => return Ok(None),
            Reason::Member { .. } => unreachable!(),
            Reason::Side { index, is_high } => {
                add_track(form, &mut tracks, space, index, is_high)?;
                goal = Goal::Node { space, index };
            }
            Reason::Cell { row, column } => {
                let left = member_of(search, Goal::Row { space, class: row });
                let right = member_of(
                    search,
                    Goal::Column {
                        space,
                        class: column,
                    },
                );
                return Ok(Some(Step {
                    tracks,
                    left,
                    right,
                }));
            }
        }
    }
}
