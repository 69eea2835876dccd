//! What is asked of the facts about formulas where the choice is free: nothing is promised of the answers.

use std::alloc::{AllocError, Global};
use std::collections::HashSet;
use ws2s_core::{FormulaId, TrackList};
use ws2s_facts::Facts;

/// The numbers of the tracks.
pub(crate) fn of_list(alloc: Global, list: &TrackList) -> Result<HashSet<u32>, AllocError> {
    let mut tracks = HashSet::new(alloc);
    for track in list.as_slice() {
        tracks.insert(track.0)?;
    }
    Ok(tracks)
}

/// Whether the second set has all numbers of the first.
fn is_within(few: &HashSet<u32>, many: &HashSet<u32>) -> bool {
    few.len() <= many.len() && few.iter().all(|t| many.contains(t))
}

/// How many nodes the formula has as a tree, or the greatest number where it has more or that isn't known.
pub(crate) fn size(facts: &Facts, id: FormulaId) -> u32 {
    match facts.get(id) {
        Some(fact) => fact.size,
        None => u32::MAX,
    }
}

/// Whether there are numbers, and the formula has a free track that isn't among them, as far as known.
pub(crate) fn has_stranger(facts: &Facts, id: FormulaId, tracks: &HashSet<u32>) -> bool {
    match facts.get(id) {
        Some(fact) => !tracks.is_empty() && !is_within(&fact.tracks, tracks),
        None => false,
    }
}

/// Whether the conjunct has free tracks, all of which are free in the formula, as far as known.
pub(crate) fn is_relevant(facts: &Facts, conjunct: FormulaId, id: FormulaId) -> bool {
    match (facts.get(conjunct), facts.get(id)) {
        (Some(c), Some(f)) => !c.tracks.is_empty() && is_within(&c.tracks, &f.tracks),
        (_, None) => true,
        (None, Some(_)) => false,
    }
}
