//! The call.

ghost use Rattle.std.specs.Prelude.{◌≡◌, IfOk, IfSome, Some, slice_get};
ghost use Rattle.ws2s_core.specs.declared.formula.Formula.{Formula};
ghost use Rattle.ws2s_core.specs.Nodes.{Extends};
ghost use Rattle.ws2s_plan.specs.Plan.{IsNetworkOf};

use crate::planning::planned;
use plain_data::Items;
use std::alloc::{AllocError, Global};
use ws2s_core::{FormulaId, Interner, Track, TrackList};

/// A track that was eliminated, and the number of the conjunction of all that had it.
#[derive(Clone, Copy, Debug)]
pub struct Elimination {
    pub track: Track,
    pub bucket: FormulaId,
}

/// What is left of a formula, and what was eliminated.
#[derive(Drop)]
pub struct Network {
    /// The number of what is left.
    pub rest: FormulaId,
    /// In the order in which tracks were eliminated.
    pub eliminations: Items<Elimination>,
    /// The formula's free tracks, and those that are weighed.
    pub tracks: TrackList,
}

/// The network of the formula with the number, from which some of these tracks were eliminated, none of which is weighed. `None` where
/// none is to be eliminated, and where the formula has too many free tracks.
///
/// # Errors
///
/// Want of memory.
pub fn network_of(
    alloc: Global,
    interner: &mut Interner,
    id: FormulaId,
    tracks: &TrackList,
    weigh: &TrackList,
) -> Result<Option<Network>, AllocError>
    requires { (f : Formula) × (slice_get interner.old id.0 ≡ Some f) }
    ensures value { IfOk result (λ made. IfSome made (λ network. (f : Formula) → slice_get interner.old id.0 ≡ Some f →
        IsNetworkOf interner.new weigh.now f network)) }
    ensures kept { Extends interner.old interner.new }
{
    let made = planned(alloc, interner, id, tracks, weigh)?;
    Ok(made)
}
