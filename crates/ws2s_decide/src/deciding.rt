//! The verdict on a formula.

ghost use Rattle.std.specs.Prelude.{◌≡◌, ◌<◌, ℕ, [], Some, Ok, IfOk, slice_get};
ghost use Rattle.bdd_nodes.specs.Shelf.{IsShelf, limit_of};
ghost use Rattle.bdd_nodes.specs.Changes.{DropsTable};
ghost use Rattle.gta_core.specs.Auto.{IsAuto};
ghost use Rattle.gta_theory.specs.Guides.{IsGuide};
ghost use Rattle.ws2s_core.specs.declared.formula.Formula.{Formula};
ghost use Rattle.ws2s_theory.specs.Peaks.{HasPeak};
ghost use Rattle.ws2s_decide.specs.declared.verdict.Verdict.{Verdict};
ghost use Rattle.gta_keep.specs.Holding.{IsMinimalFor};
ghost use Rattle.ws2s_decide.specs.Going.{Rests};
ghost use Rattle.ws2s_decide.specs.Deciding.{IsVerdict};

use crate::machine::automaton_of;
use crate::verdict::Verdict;
use crate::way::Way;
use bdd_nodes::Shelf;
use bdd_walk::{NoMemory, Stop};
use gta_core::{Auto, release};
use gta_keep::Kept;
use gta_witness::{Lightest, least};
use std::alloc::{AllocError, Global};
use ws2s_core::{FormulaId, Guide, Interner, TrackList};

/// The verdict on the formula with the number.
///
/// # Errors
///
/// Want of memory, also where a projection has no room for its sets.
pub(crate) fn verdict_of(
    alloc: Global,
    g: &Guide,
    interner: &Interner,
    id: FormulaId,
    way: Way,
    weigh: &TrackList,
    kept: &mut Kept,
    shelf: &mut Shelf,
) -> Result<Verdict, NoMemory>
    requires there { (f : Formula) × (slice_get interner.now id.0 ≡ Some f) }
    requires rests { Rests g.now interner.now shelf.old [] kept.old }
    ensures value { IfOk result (λ verdict. (f : Formula) → slice_get interner.now id.0 ≡ Some f → IsVerdict weigh.now f verdict) }
    ensures limit { result ≡ Ok Verdict.Limit → (f : Formula) (p : ℕ) → slice_get interner.now id.0 ≡ Some f → HasPeak g.now f p →
        limit_of shelf.old < p }
    ensures rests { Rests g.now interner.now shelf.new [] kept.new }
    ensures same_limit { limit_of shelf.new ≡ limit_of shelf.old }
    ensures guide { IsGuide g.now }
{
    match automaton_of(alloc, g, interner, id, way, kept, shelf) {
        Ok(auto) => verdict_by(alloc, g, auto, weigh, shelf),
        Err(Stop::Limit) => Ok(Verdict::Limit),
        Err(Stop::NoMemory) => Err(AllocError),
    }
}

/// The verdict by the formula's minimal automaton, which is released.
fn verdict_by(
    alloc: Global,
    g: &Guide,
    auto: Auto,
    weigh: &TrackList,
    shelf: &mut Shelf,
) -> Result<Verdict, NoMemory>
    requires { IsAuto g.now shelf.old auto }
    ensures value { IfOk result (λ verdict. (f : Formula) → IsMinimalFor g.now shelf.old auto f → IsVerdict weigh.now f verdict) }
    ensures no_limit { result ≡ Ok Verdict.Limit → ⊥ }
    ensures dropped { DropsTable shelf.old shelf.new auto.table }
    ensures shelf { IsShelf shelf.new }
{
    let found = least(alloc, g, &auto, shelf, weigh);
    release(auto, shelf);
    match found? {
        Lightest::None => Ok(Verdict::None),
        Lightest::Tree(tree, weight) => Ok(Verdict::Witness(tree, weight)),
        Lightest::TooLarge => Ok(Verdict::TooLarge),
    }
}
