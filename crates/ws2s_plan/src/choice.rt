//! Which track is eliminated next. It is a choice alone, so it promises nothing.
//!
//! A track that stands in many conjuncts beside others without weight would join all of them in one bucket, whose automaton tells apart
//! their sets. So one goes that at most one conjunct joins to others; where there are several, the first one that none does.

ghost use Rattle.std.specs.Prelude.{◌<◌, IfSome, length};

use std::collections::HashSet;
use ws2s_core::{FormulaId, Track};
use ws2s_facts::Facts;

/// How many conjuncts may join a track that is eliminated to others without weight.
const FEW_CONJUNCTS: usize = 1;

/// Whether the formula has another free track than this one that isn't weighed, as far as known.
fn has_another(facts: &Facts, id: FormulaId, t: Track, weighed: &HashSet<u32>) -> bool {
    let Some(fact) = facts.get(id) else {
        return true;
    };
    for track in &fact.tracks {
        if *track != t.0 && !weighed.contains(track) {
            return true;
        }
    }
    false
}

/// In how many of the conjuncts that have the track another one without weight is free.
fn crowd(facts: &Facts, units: &[FormulaId], t: Track, weighed: &HashSet<u32>) -> usize {
    let mut count: usize = 0;
    for unit in units {
        if !facts.lacks(*unit, t) && has_another(facts, *unit, t, weighed) {
            count = count.saturating_add(1);
        }
    }
    count
}

/// The first of the tracks that so many conjuncts join to others.
fn first_of(
    facts: &Facts,
    units: &[FormulaId],
    waiting: &[Track],
    weighed: &HashSet<u32>,
    many: usize,
) -> Option<usize>
    ensures { IfSome result (λ place. place < length waiting.now) }
{
    for place in 0..waiting.len() {
        if crowd(facts, units, waiting[place], weighed) == many {
            return Some(place);
        }
    }
    None
}

/// The place of the track that is to be eliminated next, if any.
pub(crate) fn next_of(
    facts: &Facts,
    units: &[FormulaId],
    waiting: &[Track],
    weighed: &HashSet<u32>,
) -> Option<usize>
    ensures { IfSome result (λ place. place < length waiting.now) }
{
    for many in 0..=FEW_CONJUNCTS {
        let first = first_of(facts, units, waiting, weighed, many);
        if first.is_some() {
            return first;
        }
    }
    None
}
