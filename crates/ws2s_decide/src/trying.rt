//! An easier formula is tried: by its network where tracks are eliminated from it, and where that says nothing as it stands.

ghost use Rattle.std.specs.Prelude.{◌≡◌, ◌≤◌, Some, IfOk, IfSome, slice_get};
ghost use Rattle.ws2s_core.specs.declared.formula.Formula.{Formula};
ghost use Rattle.ws2s_core.specs.Nodes.{Extends};
ghost use Rattle.ws2s_plan.specs.Plan.{IsNetworkOf};
ghost use Rattle.ws2s_decide.specs.Deciding.{IsVerdict};
ghost use Rattle.ws2s_decide.specs.Own.{IsReady};

use crate::first_way::FirstWay;
use crate::verdict::Verdict;
use bdd_walk::NoMemory;
use plain_data::Items;
use std::alloc::{AllocError, Global};
use ws2s_core::{FormulaId, Interner, Track, TrackList};
use ws2s_facts::Facts;
use ws2s_plan::{Network, network_of};

/// With fewer variables none is eliminated.
const MANY_VARIABLES: usize = 6;

/// The verdict on the formula with the number `made`, which was made of the one with the number `id`, under the first way's guide and in its
/// room. A limit says only that the room was too small.
///
/// # Errors
///
/// Want of memory, also where a projection has no room for its sets.
pub(crate) fn tried(
    alloc: Global,
    interner: &mut Interner,
    id: FormulaId,
    made: FormulaId,
    once: bool,
    weigh: &TrackList,
    first: &mut FirstWay,
    limit: u32,
) -> Result<Verdict, NoMemory>
    requires from { (f : Formula) × (slice_get interner.old id.0 ≡ Some f) }
    requires there { (f : Formula) × (slice_get interner.old made.0 ≡ Some f) }
    requires small { limit ≤ 16000000 }
    requires ready { IsReady interner.old first.old }
    ensures value { IfOk result (λ verdict. (f : Formula) → slice_get interner.old made.0 ≡ Some f → IsVerdict weigh.now f verdict) }
    ensures kept { Extends interner.old interner.new }
    ensures ready { IsReady interner.new first.new }
{
    if let Some(verdict) = tried_by_network(alloc, interner, id, made, weigh, first, limit) {
        return Ok(verdict);
    }
    let verdict = first.verdict(alloc, interner, made, once, weigh, limit)?;
    Ok(verdict)
}

/// The verdict by the formula's network; `None` where it has none, or that says nothing.
fn tried_by_network(
    alloc: Global,
    interner: &mut Interner,
    id: FormulaId,
    made: FormulaId,
    weigh: &TrackList,
    first: &mut FirstWay,
    limit: u32,
) -> Option<Verdict>
    requires from { (f : Formula) × (slice_get interner.old id.0 ≡ Some f) }
    requires there { (f : Formula) × (slice_get interner.old made.0 ≡ Some f) }
    requires small { limit ≤ 16000000 }
    requires ready { IsReady interner.old first.old }
    ensures value { IfSome result (λ verdict. (f : Formula) → slice_get interner.old made.0 ≡ Some f → IsVerdict weigh.now f verdict) }
    ensures kept { Extends interner.old interner.new }
    ensures ready { IsReady interner.new first.new }
{
    let network = network_at(alloc, interner, id, made, weigh)?;
    match first.verdict_by(alloc, interner, &network, weigh, limit) {
        Ok(Verdict::None) => Some(Verdict::None),
        Ok(Verdict::Witness(tree, weight)) => Some(Verdict::Witness(tree, weight)),
        Ok(Verdict::TooLarge) | Ok(Verdict::Limit) | Err(_) => None,
    }
}

/// The network of the formula with the number `made`: variables of the one with the number `id` may be eliminated. `None` where these are few,
/// where none is to be eliminated, and where memory is wanting.
fn network_at(
    alloc: Global,
    interner: &mut Interner,
    id: FormulaId,
    made: FormulaId,
    weigh: &TrackList,
) -> Option<Network>
    requires from { (f : Formula) × (slice_get interner.old id.0 ≡ Some f) }
    requires there { (f : Formula) × (slice_get interner.old made.0 ≡ Some f) }
    ensures value { IfSome result (λ network. (f : Formula) → slice_get interner.old made.0 ≡ Some f → IsNetworkOf interner.new weigh.now f network) }
    ensures kept { Extends interner.old interner.new }
{
    let Ok(variables) = variables_of(alloc, interner, id, weigh) else {
        return None;
    };
    if variables.len() < MANY_VARIABLES {
        return None;
    }
    match network_of(alloc, interner, made, &variables, weigh) {
        Ok(network) => network,
        Err(_) => None,
    }
}

/// The free tracks of a formula that aren't weighed, in order; none where they aren't known. Which they are is a choice alone, so it promises nothing.
fn variables_of(
    alloc: Global,
    interner: &Interner,
    id: FormulaId,
    weigh: &TrackList,
) -> Result<TrackList, AllocError>
    requires { (f : Formula) × (slice_get interner.now id.0 ≡ Some f) }
{
    let facts = Facts::of_parts(alloc, interner, id)?;
    let mut variables = Items::new(alloc);
    let Some(mut numbers) = facts.free_tracks(alloc, id)? else {
        return Ok(variables);
    };
    numbers.sort()?;
    for number in &numbers {
        if !weigh.as_slice().contains(&Track(*number)) {
            variables.push(Track(*number))?;
        }
    }
    Ok(variables)
}
