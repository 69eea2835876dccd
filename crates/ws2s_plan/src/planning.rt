//! Tracks eliminated one after the other.

ghost use Rattle.std.specs.Prelude.{◌≡◌, ◌+◌, ◌<◌, true, List, All, Contains, IfOk, OnOk, IfSome, length};
ghost use Rattle.ws2s_core.specs.declared.track.Track.{Track};
ghost use Rattle.ws2s_core.specs.declared.formula.Formula.{Formula};
ghost use Rattle.ws2s_core.specs.Nodes.{Extends};
ghost use Rattle.ws2s_core.specs.Tracks.{IsFree};
ghost use Rattle.ws2s_facts.specs.Conjuncts.{IsThere, formula_of};
ghost use Rattle.ws2s_facts.specs.Facts.{AreFacts};
ghost use Rattle.ws2s_plan.specs.Plan.{AreAllTracks, IsNetworkOf};
ghost use Rattle.ws2s_plan.specs.Steps.{IsPlanning};

use crate::choice::next_of;
use crate::conjunctions::conjunction_of;
use crate::conjuncts::conjuncts_of;
use crate::eliminating::eliminate_from;
use crate::network::{Elimination, Network};
use plain_data::Items;
use std::alloc::{AllocError, Global};
use std::collections::HashSet;
use ws2s_core::{FormulaId, Interner, Track, TrackList};
use ws2s_facts::Facts;

/// A formula's conjuncts, from which tracks are eliminated.
#[derive(Drop)]
pub(crate) struct Planning {
    /// The tracks that may be eliminated, none of which is weighed.
    pub(crate) waiting: Vec<Track>,
    /// What is left.
    pub(crate) units: Vec<FormulaId>,
    pub(crate) eliminations: Items<Elimination>,
}

/// The network of the formula with the number.
pub(crate) fn planned(
    alloc: Global,
    interner: &mut Interner,
    id: FormulaId,
    tracks: &TrackList,
    weigh: &TrackList,
) -> Result<Option<Network>, AllocError>
    requires { IsThere interner.old id }
    ensures value { IfOk result (λ made. IfSome made (IsNetworkOf interner.new weigh.now (formula_of interner.old id))) }
    ensures kept { Extends interner.old interner.new }
{
    let mut facts = Facts::of_parts(alloc, interner, id)?;
    let Some(free) = facts.free_tracks(alloc, id)? else {
        return Ok(None);
    };
    let known = all_tracks(alloc, free.as_slice(), weigh)?;
    let mut planning = first_planning(alloc, interner, id, tracks, weigh)?;
    let weighed = numbers_of(alloc, weigh)?;
    eliminate_all(alloc, interner, &mut facts, &weighed, &mut planning)?;
    let made = finished(alloc, interner, &mut facts, planning, known)?;
    Ok(made)
}

/// The formula's conjuncts, and those of the tracks that aren't weighed.
fn first_planning(
    alloc: Global,
    interner: &Interner,
    id: FormulaId,
    tracks: &TrackList,
    weigh: &TrackList,
) -> Result<Planning, AllocError>
    requires { IsThere interner.now id }
    ensures { IfOk result (IsPlanning interner.now weigh.now (formula_of interner.now id)) }
{
    let units = conjuncts_of(alloc, interner, id)?;
    let waiting = unweighed(alloc, tracks, weigh)?;
    Ok(Planning {
        waiting,
        units,
        eliminations: Items::new(alloc),
    })
}

/// Those of the tracks that aren't weighed.
fn unweighed(alloc: Global, tracks: &TrackList, weigh: &TrackList) -> Result<Vec<Track>, AllocError>
    ensures { IfOk result (λ found. All (λ t. ¬ Contains weigh.now t) found.items) }
{
    let mut found = Vec::new(alloc);
    for track in tracks.as_slice() {
        if is_unweighed(weigh, *track) {
            found.push(*track)?;
        }
    }
    Ok(found)
}

/// Whether the track isn't weighed.
fn is_unweighed(weigh: &TrackList, t: Track) -> bool
    ensures { result ≡ true → Contains weigh.now t → ⊥ }
{
    !weigh.as_slice().contains(&t)
}

/// The numbers of the tracks.
fn numbers_of(alloc: Global, tracks: &TrackList) -> Result<HashSet<u32>, AllocError> {
    let mut numbers = HashSet::new(alloc);
    for track in tracks.as_slice() {
        numbers.insert(track.0)?;
    }
    Ok(numbers)
}

/// The tracks with these numbers, and then the weighed ones.
fn all_tracks(alloc: Global, free: &[u32], weigh: &TrackList) -> Result<TrackList, AllocError>
    ensures free { IfOk result (λ tracks. (t : Track) → Contains free.now t.0 → Contains tracks t) }
    ensures weighed { IfOk result (λ tracks. (t : Track) → Contains weigh.now t → Contains tracks t) }
{
    let mut tracks = Items::from_slice(alloc, weigh.as_slice())?;
    for number in free {
        tracks.push(Track(*number))?;
    }
    Ok(tracks)
}

/// Eliminates tracks as long as one is to be.
fn eliminate_all(
    alloc: Global,
    interner: &mut Interner,
    facts: &mut Facts,
    weighed: &HashSet<u32>,
    planning: &mut Planning,
) -> Result<(), AllocError>
    requires there { All (IsThere interner.old) planning.old.units.items }
    requires facts { AreFacts interner.old facts.old.facts.items }
    ensures kept { Extends interner.old interner.new }
    ensures there { OnOk result (All (IsThere interner.new) planning.new.units.items) }
    ensures facts { OnOk result (AreFacts interner.new facts.new.facts.items) }
    ensures value { OnOk result ((weigh : List Track) (f : Formula) → IsPlanning interner.old weigh f planning.old →
        IsPlanning interner.new weigh f planning.new) }
{
    while let Some(place) = next_of(
        facts,
        planning.units.as_slice(),
        planning.waiting.as_slice(),
        weighed,
    ) {
        eliminate(alloc, interner, facts, place, planning)?;
    }
    Ok(())
}

/// Eliminates the track at the place.
fn eliminate(
    alloc: Global,
    interner: &mut Interner,
    facts: &mut Facts,
    place: usize,
    planning: &mut Planning,
) -> Result<(), AllocError>
    requires place { place < length planning.old.waiting.items }
    requires there { All (IsThere interner.old) planning.old.units.items }
    requires facts { AreFacts interner.old facts.old.facts.items }
    ensures kept { Extends interner.old interner.new }
    ensures there { OnOk result (All (IsThere interner.new) planning.new.units.items) }
    ensures facts { OnOk result (AreFacts interner.new facts.new.facts.items) }
    ensures value { OnOk result ((weigh : List Track) (f : Formula) → IsPlanning interner.old weigh f planning.old →
        IsPlanning interner.new weigh f planning.new) }
    ensures fewer { OnOk result (length planning.new.waiting.items + 1 ≡ length planning.old.waiting.items) }
{
    let track = planning.waiting.remove(place);
    let Some(made) = eliminate_from(alloc, interner, facts, planning.units.as_slice(), track)?
    else {
        return Ok(());
    };
    planning.eliminations.push(Elimination {
        track,
        bucket: made.bucket,
    })?;
    planning.units = made.left;
    Ok(())
}

/// The network, where any track was eliminated.
fn finished(
    alloc: Global,
    interner: &mut Interner,
    facts: &mut Facts,
    planning: Planning,
    tracks: TrackList,
) -> Result<Option<Network>, AllocError>
    requires there { All (IsThere interner.old) planning.units.items }
    requires facts { AreFacts interner.old facts.old.facts.items }
    ensures kept { Extends interner.old interner.new }
    ensures value { IfOk result (λ made. IfSome made (λ network. (weigh : List Track) (f : Formula) → IsPlanning interner.old weigh f planning →
        AreAllTracks weigh f tracks → IsNetworkOf interner.new weigh f network)) }
{
    let Planning {
        waiting: _,
        units,
        eliminations,
    } = planning;
    if eliminations.is_empty() {
        return Ok(None);
    }
    let Some((first, more)) = units.as_slice().split_first() else {
        return Ok(None);
    };
    let rest = conjunction_of(alloc, interner, facts, *first, more)?;
    Ok(Some(Network {
        rest,
        eliminations,
        tracks,
    }))
}
