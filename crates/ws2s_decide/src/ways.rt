//! Two ways to a verdict: by a formula that is easier to decide, and where that is at the limit, wants memory or has trees that are
//! too large alone by the formula as it stands.

ghost use Rattle.std.specs.Prelude.{◌≡◌, ◌<◌, ℕ, [], Some, Ok, IfOk, IfSome, slice_get};
ghost use Rattle.bdd_nodes.specs.Shelf.{limit_of};
ghost use Rattle.ws2s_core.specs.declared.formula.Formula.{Formula};
ghost use Rattle.ws2s_core.specs.Nodes.{Extends};
ghost use Rattle.ws2s_theory.specs.Peaks.{HasPeak};
ghost use Rattle.ws2s_decide.specs.declared.verdict.Verdict.{Verdict};
ghost use Rattle.ws2s_decide.specs.Going.{Rests};
ghost use Rattle.ws2s_decide.specs.Deciding.{IsVerdict};
ghost use Rattle.ws2s_decide.specs.Telling.{TellsOf};
ghost use Rattle.ws2s_decide.specs.Own.{IsReady};

use crate::deciding::verdict_of;
use crate::first_way::FirstWay;
use crate::trying::tried;
use crate::verdict::Verdict;
use crate::way::Way;
use bdd_nodes::Shelf;
use bdd_walk::NoMemory;
use gta_keep::Kept;
use std::alloc::Global;
use ws2s_context::{in_context, opened};
use ws2s_core::{FormulaId, Guide, Interner, TrackList};

/// The number of a formula each verdict on which is one on the formula with the given number, unless its trees are too large: it is
/// rewritten in its context, and the quantifiers at its end are opened. The trees of the sets that were quantified count too, so they
/// may be large where the formula's own aren't.
///
/// # Errors
///
/// Want of memory.
fn easier(
    alloc: Global,
    interner: &mut Interner,
    id: FormulaId,
    weigh: &TrackList,
) -> Result<FormulaId, NoMemory>
    requires { (f : Formula) × (slice_get interner.old id.0 ≡ Some f) }
    ensures value { IfOk result (λ made. (f : Formula) → slice_get interner.old id.0 ≡ Some f →
        (g : Formula) × (slice_get interner.new made.0 ≡ Some g) × TellsOf weigh.now g f) }
    ensures kept { Extends interner.old interner.new }
{
    let rewritten = in_context(alloc, interner, id, weigh)?;
    let made = opened(alloc, interner, rewritten, weigh)?;
    Ok(made)
}

/// The number of an easier formula than the one with the given number. `None` where that is its own easiest one, and where
/// memory for another is wanting.
fn easier_than(
    alloc: Global,
    interner: &mut Interner,
    id: FormulaId,
    weigh: &TrackList,
) -> Option<FormulaId>
    requires { (f : Formula) × (slice_get interner.old id.0 ≡ Some f) }
    ensures value { IfSome result (λ made. (f : Formula) → slice_get interner.old id.0 ≡ Some f →
        (g : Formula) × (slice_get interner.new made.0 ≡ Some g) × TellsOf weigh.now g f) }
    ensures kept { Extends interner.old interner.new }
{
    match easier(alloc, interner, id, weigh) {
        Ok(made) => { if made == id { None } else { Some(made) } }
        Err(_) => None,
    }
}

/// The verdict on a formula for which there is no easier one, by a way to the end; where that wants memory, by one that stops
/// as soon as a limit is licensed, and so may come to a limit before it wants as much.
///
/// # Errors
///
/// Want of memory, also where a projection has no room for its sets, on the second of these ways.
fn verdict_alone(
    alloc: Global,
    g: &Guide,
    interner: &Interner,
    id: FormulaId,
    once: bool,
    weigh: &TrackList,
    kept: &mut Kept,
    shelf: &mut Shelf,
) -> Result<Verdict, NoMemory>
    requires there { (f : Formula) × (slice_get interner.now id.0 ≡ Some f) }
    requires rests { Rests g.now interner.now shelf.old [] kept.old }
    ensures value { IfOk result (λ verdict. (f : Formula) → slice_get interner.now id.0 ≡ Some f → IsVerdict weigh.now f verdict) }
    ensures limit { result ≡ Ok Verdict.Limit → (f : Formula) (p : ℕ) → slice_get interner.now id.0 ≡ Some f → HasPeak g.now f p →
        limit_of shelf.old < p }
    ensures rests { Rests g.now interner.now shelf.new [] kept.new }
    ensures same_limit { limit_of shelf.new ≡ limit_of shelf.old }
{
    let to_the_end = Way {
        stops_early: false,
        once,
    };
    let early = Way {
        stops_early: true,
        once,
    };
    match verdict_of(alloc, g, interner, id, to_the_end, weigh, kept, shelf) {
        Ok(verdict) => Ok(verdict),
        Err(_) => verdict_of(alloc, g, interner, id, early, weigh, kept, shelf),
    }
}

/// The verdict on the formula with the number: by an easier one, under the first way's guide and in its room, and where that
/// is at the limit, wants memory or has trees that are too large by the formula as it stands. Its Peak on this shelf alone licenses a limit, so only the second
/// way answers one, as soon as it is licensed. Want of memory on the first way is no answer either, also where a projection has
/// met its room for sets: the formula as it stands may need less, or be at the limit.
///
/// # Errors
///
/// Want of memory, also where a projection has no room for its sets, on the last way that is tried.
pub(crate) fn decide_number(
    alloc: Global,
    g: &Guide,
    interner: &mut Interner,
    id: FormulaId,
    once: bool,
    weigh: &TrackList,
    first: &mut FirstWay,
    kept: &mut Kept,
    shelf: &mut Shelf,
) -> Result<Verdict, NoMemory>
    requires there { (f : Formula) × (slice_get interner.old id.0 ≡ Some f) }
    requires rests { Rests g.now interner.old shelf.old [] kept.old }
    requires ready { IsReady interner.old first.old }
    ensures value { IfOk result (λ verdict. (f : Formula) → slice_get interner.old id.0 ≡ Some f → IsVerdict weigh.now f verdict) }
    ensures limit { result ≡ Ok Verdict.Limit → (f : Formula) (p : ℕ) → slice_get interner.old id.0 ≡ Some f → HasPeak g.now f p →
        limit_of shelf.old < p }
    ensures rests { Rests g.now interner.new shelf.new [] kept.new }
    ensures ready { IsReady interner.new first.new }
    ensures same_limit { limit_of shelf.new ≡ limit_of shelf.old }
{
    let early = Way {
        stops_early: true,
        once,
    };
    let Some(made) = easier_than(alloc, interner, id, weigh) else {
        return verdict_alone(alloc, g, interner, id, once, weigh, kept, shelf);
    };
    let limit = shelf.limit();
    match tried(alloc, interner, id, made, once, weigh, first, limit) {
        Ok(Verdict::None) => Ok(Verdict::None),
        Ok(Verdict::Witness(tree, weight)) => Ok(Verdict::Witness(tree, weight)),
        Ok(Verdict::TooLarge) | Ok(Verdict::Limit) | Err(_) => {
            verdict_of(alloc, g, interner, id, early, weigh, kept, shelf)
        }
    }
}
