//! The first way to a verdict: by an easier formula, under a guide and on a shelf of its own.

ghost use Rattle.std.specs.Prelude.{◌≡◌, ◌≤◌, Some, List, IfOk, IfSome, slice_get};
ghost use Rattle.gta_theory.specs.Guides.{Spaces};
ghost use Rattle.ws2s_core.specs.declared.formula.Formula.{Formula};
ghost use Rattle.ws2s_plan.specs.Plan.{IsNetworkOf};
ghost use Rattle.ws2s_decide.specs.Deciding.{IsVerdict};
ghost use Rattle.ws2s_decide.specs.Own.{HoldsItsOwn, IsReady};

use crate::deciding::verdict_of;
use crate::network_way::verdict_by_network;
use crate::verdict::Verdict;
use crate::way::Way;
use bdd_nodes::Shelf;
use bdd_walk::NoMemory;
use gta_keep::Kept;
use std::alloc::Global;
use ws2s_core::{FormulaId, Guide, Interner, TrackList};
use ws2s_plan::Network;

/// How many nodes the first way's shelf may have at least. In a small one automata are let go of and made again and again.
const FEWEST_NODES: u32 = 200_000;

/// A shelf, and the automata that are kept in it.
#[derive(Drop)]
pub(crate) struct Room {
    pub(crate) kept: Kept,
    pub(crate) shelf: Shelf,
}

/// What the first way has of its own. A verdict is one whatever guide and room it was found with, so none rests on them, and
/// a limit of this room is no answer. In a clause `IsReady` says that the room's tables are those of the automata kept in it.
#[derive(Drop)]
pub(crate) struct FirstWay {
    pub(crate) guide: Guide,
    /// Opened with the first formula for which there is an easier one.
    pub(crate) room: Option<Room>,
}

impl FirstWay {
    /// Under the guide, without a room yet. Takes no memory.
    pub(crate) fn new(guide: Guide) -> FirstWay
        ensures { (formulas : List Formula) → IsReady formulas result }
    {
        FirstWay { guide, room: None }
    }

    /// Opens the room if it isn't open, with at least as many nodes as the limit says.
    ///
    /// # Errors
    ///
    /// Want of memory; the room isn't open then.
    fn open(&mut self, alloc: Global, limit: u32) -> Result<(), NoMemory>
        requires { limit ≤ 16000000 }
        ensures { (formulas : List Formula) → IsReady formulas self.old → IsReady formulas self.new }
    {
        if self.room.is_some() {
            return Ok(());
        }
        let room = open_room(alloc, limit)?;
        self.room = Some(room);
        Ok(())
    }

    /// The verdict on the formula with the number, by a way to the end in the room. A limit says only that the room was too
    /// small. `limit` is that of the shelf on which the second way would go.
    ///
    /// # Errors
    ///
    /// Want of memory, also where a projection has no room for its sets.
    pub(crate) fn verdict(
        &mut self,
        alloc: Global,
        interner: &Interner,
        id: FormulaId,
        once: bool,
        weigh: &TrackList,
        limit: u32,
    ) -> Result<Verdict, NoMemory>
        requires there { (f : Formula) × (slice_get interner.now id.0 ≡ Some f) }
        requires small { limit ≤ 16000000 }
        requires ready { IsReady interner.now self.old }
        ensures value { IfOk result (λ verdict. (f : Formula) → slice_get interner.now id.0 ≡ Some f → IsVerdict weigh.now f verdict) }
        ensures ready { IsReady interner.now self.new }
    {
        self.open(alloc, limit)?;
        verdict_in(
            alloc,
            &self.guide,
            interner,
            id,
            once,
            weigh,
            &mut self.room,
        )
    }

    /// The verdict on a formula by its network, in the room. A limit says nothing.
    ///
    /// # Errors
    ///
    /// Want of memory, also where a projection has no room for its sets.
    pub(crate) fn verdict_by(
        &mut self,
        alloc: Global,
        interner: &Interner,
        network: &Network,
        weigh: &TrackList,
        limit: u32,
    ) -> Result<Verdict, NoMemory>
        requires there { (f : Formula) × IsNetworkOf interner.now weigh.now f network.now }
        requires small { limit ≤ 16000000 }
        requires ready { IsReady interner.now self.old }
        ensures value { IfOk result (λ verdict. (f : Formula) → IsNetworkOf interner.now weigh.now f network.now → IsVerdict weigh.now f verdict) }
        ensures ready { IsReady interner.now self.new }
    {
        self.open(alloc, limit)?;
        verdict_by_network_in(alloc, &self.guide, interner, network, weigh, &mut self.room)
    }
}

/// An empty room for as many nodes as the limit says, and for many at least.
///
/// # Errors
///
/// Want of memory.
fn open_room(alloc: Global, limit: u32) -> Result<Room, NoMemory>
    requires { limit ≤ 16000000 }
    ensures { IfOk result (λ room. (g : Spaces) (formulas : List Formula) → HoldsItsOwn g formulas room) }
{
    let kept = Kept::new(alloc)?;
    let shelf = Shelf::open(alloc, limit.max(FEWEST_NODES))?;
    Ok(Room { kept, shelf })
}

/// The verdict on the formula with the number, in the room; a limit where there is none.
fn verdict_in(
    alloc: Global,
    g: &Guide,
    interner: &Interner,
    id: FormulaId,
    once: bool,
    weigh: &TrackList,
    room: &mut Option<Room>,
) -> Result<Verdict, NoMemory>
    requires there { (f : Formula) × (slice_get interner.now id.0 ≡ Some f) }
    requires ready { IfSome room.old (HoldsItsOwn g.now interner.now) }
    ensures value { IfOk result (λ verdict. (f : Formula) → slice_get interner.now id.0 ≡ Some f → IsVerdict weigh.now f verdict) }
    ensures ready { IfSome room.new (HoldsItsOwn g.now interner.now) }
{
    let to_the_end = Way {
        stops_early: false,
        once,
    };
    match room {
        Some(room) => verdict_of(
            alloc,
            g,
            interner,
            id,
            to_the_end,
            weigh,
            &mut room.kept,
            &mut room.shelf,
        ),
        None => Ok(Verdict::Limit),
    }
}

/// The verdict on a formula by its network, in the room; a limit where there is none.
fn verdict_by_network_in(
    alloc: Global,
    g: &Guide,
    interner: &Interner,
    network: &Network,
    weigh: &TrackList,
    room: &mut Option<Room>,
) -> Result<Verdict, NoMemory>
    requires there { (f : Formula) × IsNetworkOf interner.now weigh.now f network.now }
    requires ready { IfSome room.old (HoldsItsOwn g.now interner.now) }
    ensures value { IfOk result (λ verdict. (f : Formula) → IsNetworkOf interner.now weigh.now f network.now → IsVerdict weigh.now f verdict) }
    ensures ready { IfSome room.new (HoldsItsOwn g.now interner.now) }
{
    match room {
        Some(room) => verdict_by_network(
            alloc,
            g,
            interner,
            network,
            weigh,
            &mut room.kept,
            &mut room.shelf,
        ),
        None => Ok(Verdict::Limit),
    }
}
