//! The value of a track that was eliminated: a tree that satisfies its bucket and is on the known tracks what another one is.

ghost use Rattle.std.specs.Prelude.{◌≡◌, List, [], ◌∷◌, Some, IfOk, IfSome, slice_get};
ghost use Rattle.gta_core.specs.Auto.{AutoView, automaton_of as machine_of, IsAuto};
ghost use Rattle.gta_keep.specs.Holding.{Holds, IsMinimalFor};
ghost use Rattle.gta_theory.specs.Guides.{IsGuide};
ghost use Rattle.ws2s_core.specs.declared.formula.Formula.{Formula};
ghost use Rattle.ws2s_decide.specs.Going.{Rests, Releases};
ghost use Rattle.ws2s_decide.specs.Networks.{HoldsStill, IsTreeOfBoth, IsValued};

use crate::machine::automaton_of;
use crate::way::Way;
use bdd_nodes::Shelf;
use bdd_walk::NoMemory;
use gta_core::{Auto, release};
use gta_keep::Kept;
use gta_pinned::pinned;
use gta_product::product;
use gta_witness::{Lightest, least};
use std::alloc::{AllocError, Global};
use ws2s_core::{FormulaId, Guide, Interner, LabelTree, TrackList};

/// A tree that satisfies the formula with the number and has on the known tracks what the tree has, and its weight. `None` where
/// there is none, or none that has room.
///
/// # Errors
///
/// Want of memory, also where the formula's automaton is at the limit.
pub(crate) fn valued(
    alloc: Global,
    g: &Guide,
    interner: &Interner,
    bucket: FormulaId,
    known: &TrackList,
    tree: &LabelTree,
    weigh: &TrackList,
    kept: &mut Kept,
    shelf: &mut Shelf,
) -> Result<Option<(LabelTree, u64)>, NoMemory>
    requires guide { IsGuide g.now }
    requires there { (f : Formula) × (slice_get interner.now bucket.0 ≡ Some f) }
    requires rests { Rests g.now interner.now shelf.old [] kept.old }
    ensures value { IfOk result (λ made. IfSome made (λ found. (f : Formula) → slice_get interner.now bucket.0 ≡ Some f →
        IsValued weigh.now known.now f tree.now found.0 found.1)) }
    ensures rests { Rests g.now interner.now shelf.new [] kept.new }
{
    let to_the_end = Way {
        stops_early: false,
        once: false,
    };
    match automaton_of(alloc, g, interner, bucket, to_the_end, kept, shelf) {
        Ok(auto) => valued_by(alloc, g, auto, known, tree, weigh, shelf),
        Err(_) => Err(AllocError),
    }
}

/// The same by the formula's minimal automaton, which is released.
fn valued_by(
    alloc: Global,
    g: &Guide,
    auto: Auto,
    known: &TrackList,
    tree: &LabelTree,
    weigh: &TrackList,
    shelf: &mut Shelf,
) -> Result<Option<(LabelTree, u64)>, NoMemory>
    requires { (autos : List AutoView) × Holds g.now shelf.old (auto ∷ autos) }
    ensures value { IfOk result (λ made. IfSome made (λ found. (f : Formula) → IsMinimalFor g.now shelf.old auto f →
        IsValued weigh.now known.now f tree.now found.0 found.1)) }
    ensures rests { (autos : List AutoView) → Holds g.now shelf.old (auto ∷ autos) → Releases g.now shelf.old shelf.new autos }
{
    let found = valued_with(alloc, g, &auto, known, tree, weigh, shelf);
    release(auto, shelf);
    found
}

/// The same by an automaton of all trees that are what the tree is on the known tracks.
fn valued_with(
    alloc: Global,
    g: &Guide,
    auto: &Auto,
    known: &TrackList,
    tree: &LabelTree,
    weigh: &TrackList,
    shelf: &mut Shelf,
) -> Result<Option<(LabelTree, u64)>, NoMemory>
    requires { (autos : List AutoView) × Holds g.now shelf.old (auto.now ∷ autos) }
    ensures value { IfOk result (λ made. IfSome made (λ found. (f : Formula) → IsMinimalFor g.now shelf.old auto.now f →
        IsValued weigh.now known.now f tree.now found.0 found.1)) }
    ensures still { HoldsStill g.now shelf.old shelf.new }
{
    let Ok(pins) = pinned(alloc, g, tree, known, shelf) else {
        return Err(AllocError);
    };
    let found = tree_of_both(alloc, g, auto, &pins, weigh, shelf);
    release(pins, shelf);
    found
}

/// A lightest tree that both automata accept, and its weight. `None` where there is none, or none that has room.
fn tree_of_both(
    alloc: Global,
    g: &Guide,
    a: &Auto,
    b: &Auto,
    weigh: &TrackList,
    shelf: &mut Shelf,
) -> Result<Option<(LabelTree, u64)>, NoMemory>
    requires first { IsAuto g.now shelf.old a.now }
    requires second { IsAuto g.now shelf.old b.now }
    ensures value { IfOk result (λ made. IfSome made (λ found.
        IsTreeOfBoth g.now (machine_of shelf.old a.now) (machine_of shelf.old b.now) weigh.now found.0 found.1)) }
    ensures still { HoldsStill g.now shelf.old shelf.new }
{
    let Ok(both) = product(alloc, g, a, b, shelf) else {
        return Err(AllocError);
    };
    let found = least(alloc, g, &both, shelf, weigh);
    release(both, shelf);
    match found? {
        Lightest::Tree(tree, weight) => Ok(Some((tree, weight))),
        Lightest::None | Lightest::TooLarge => Ok(None),
    }
}
