//! The way before the first: by a network. Tracks that few conjuncts of the formula join to others are eliminated from it, what is left is
//! decided, and their values are found afterwards, the last one first.

ghost use Rattle.std.specs.Prelude.{◌≡◌, List, [], All, Some, IfOk, IfSome, slice_get};
ghost use Rattle.gta_theory.specs.Guides.{IsGuide};
ghost use Rattle.ws2s_core.specs.declared.formula.Formula.{Formula};
ghost use Rattle.ws2s_facts.specs.Conjuncts.{IsThere};
ghost use Rattle.ws2s_plan.specs.Plan.{IsNetworkOf};
ghost use Rattle.ws2s_decide.specs.Going.{Rests};
ghost use Rattle.ws2s_decide.specs.Deciding.{IsVerdict, IsLightestModel};
ghost use Rattle.ws2s_decide.specs.Networks.{IsModelOfLeft};

use crate::deciding::verdict_of;
use crate::valuing::valued;
use crate::verdict::Verdict;
use crate::way::Way;
use bdd_nodes::Shelf;
use bdd_walk::NoMemory;
use gta_keep::Kept;
use std::alloc::Global;
use ws2s_core::{Guide, Interner, LabelTree, TrackList};
use ws2s_plan::{Network, tracks_left};

/// The verdict on a formula by its network. A limit says nothing.
///
/// # Errors
///
/// Want of memory, also where an automaton on the way back is at the limit.
pub(crate) fn verdict_by_network(
    alloc: Global,
    g: &Guide,
    interner: &Interner,
    network: &Network,
    weigh: &TrackList,
    kept: &mut Kept,
    shelf: &mut Shelf,
) -> Result<Verdict, NoMemory>
    requires there { (f : Formula) × IsNetworkOf interner.now weigh.now f network.now }
    requires rests { Rests g.now interner.now shelf.old [] kept.old }
    ensures value { IfOk result (λ verdict. (f : Formula) → IsNetworkOf interner.now weigh.now f network.now → IsVerdict weigh.now f verdict) }
    ensures rests { Rests g.now interner.now shelf.new [] kept.new }
{
    let to_the_end = Way {
        stops_early: false,
        once: false,
    };
    let rest = network.rest;
    match verdict_of(alloc, g, interner, rest, to_the_end, weigh, kept, shelf)? {
        Verdict::None => Ok(Verdict::None),
        Verdict::Witness(tree, weight) => {
            let back = go_back(
                alloc, g, interner, network, tree, weight, weigh, kept, shelf,
            )?;
            Ok(back)
        }
        Verdict::TooLarge | Verdict::Limit => Ok(Verdict::Limit),
    }
}

/// The verdict by a lightest model of what is left: the values of the tracks that were eliminated are found, the last one first. A limit
/// where one isn't found.
fn go_back(
    alloc: Global,
    g: &Guide,
    interner: &Interner,
    network: &Network,
    tree: LabelTree,
    weight: u64,
    weigh: &TrackList,
    kept: &mut Kept,
    shelf: &mut Shelf,
) -> Result<Verdict, NoMemory>
    requires guide { IsGuide g.now }
    requires there { All (λ one. IsThere interner.now one.bucket) network.now.eliminations }
    requires rests { Rests g.now interner.now shelf.old [] kept.old }
    ensures value { IfOk result (λ verdict. (f : Formula) → IsNetworkOf interner.now weigh.now f network.now →
        IsModelOfLeft interner.now weigh.now f network.now.eliminations tree weight → IsVerdict weigh.now f verdict) }
    ensures rests { Rests g.now interner.now shelf.new [] kept.new }
{
    let mut found = (tree, weight);
    let mut rest = network.eliminations.as_slice();
    while let Some((last, before)) = rest.split_last() {
        let known = tracks_left(alloc, network.tracks.as_slice(), rest)?;
        let made = valued(
            alloc,
            g,
            interner,
            last.bucket,
            &known,
            &found.0,
            weigh,
            kept,
            shelf,
        )?;
        let Some(next) = made else {
            return Ok(Verdict::Limit);
        };
        found = next;
        rest = before;
    }
    Ok(Verdict::Witness(found.0, found.1))
}
