//! Deciders: formulas decided one after the other, and once.

ghost use Rattle.std.specs.Prelude.{◌≡◌, ◌<◌, ℕ, Ok, IfOk};
ghost use Rattle.bdd_nodes.specs.Shelf.{Contents, limit_of};
ghost use Rattle.ws2s_theory.specs.Peaks.{HasPeak};
ghost use Rattle.ws2s_decide.specs.declared.verdict.Verdict.{Verdict};
ghost use Rattle.gta_keep.specs.Holding.{HasNoTables};
ghost use Rattle.ws2s_decide.specs.Deciding.{IsVerdict, guide_of, HasKept};

use crate::first_way::FirstWay;
use crate::verdict::Verdict;
use crate::ways::decide_number;
use bdd_nodes::Shelf;
use bdd_walk::NoMemory;
use gta_keep::Kept;
use plain_data::Items;
use std::alloc::Global;
use ws2s_core::{Formula, Guide, Interner, TrackList, intern};

/// Decides formulas under one guide, one after the other, on one shelf: what two formulas share is built once where it is
/// still kept. In a clause `HasKept` says that the tables of the shelf are those of the automata that it keeps.
///
/// Each formula is first tried by an easier one, with a second shelf, which the decider opens with the first formula that has
/// one and owns until it is closed. It may have as many nodes as the shelf that is handed in, and 200,000 at least.
#[derive(Drop)]
pub struct Decider {
    guide: Guide,
    /// Where easier formulas are tried.
    first: FirstWay,
    /// The formulas that have a number.
    interner: Interner,
    /// Automata of formulas, by their numbers.
    kept: Kept,
    /// Whether it is used once.
    once: bool,
}

impl Decider {
    /// A decider under the guide, which keeps nothing yet.
    ///
    /// # Errors
    ///
    /// Want of memory.
    pub fn new(alloc: Global, guide: Guide) -> Result<Decider, NoMemory>
        ensures guide { IfOk result (λ decider. guide_of decider ≡ guide) }
        ensures kept { IfOk result (λ decider. (shelf : Contents) → HasNoTables shelf → HasKept shelf decider) }
    {
        let first_guide = copy_of(alloc, &guide)?;
        let decider = Decider::with_first(alloc, guide, first_guide)?;
        Ok(decider)
    }

    /// A decider under the guide, which keeps nothing yet, and tries easier formulas under a guide of their own: a verdict is
    /// one whatever guide it was found under. Only time and memory depend on that guide.
    ///
    /// # Errors
    ///
    /// Want of memory.
    pub fn with_first(alloc: Global, guide: Guide, first_guide: Guide) -> Result<Decider, NoMemory>
        ensures guide { IfOk result (λ decider. guide_of decider ≡ guide) }
        ensures kept { IfOk result (λ decider. (shelf : Contents) → HasNoTables shelf → HasKept shelf decider) }
    {
        let kept = Kept::new(alloc)?;
        Ok(Decider {
            guide,
            first: FirstWay::new(first_guide),
            interner: Interner::new(alloc),
            kept,
            once: false,
        })
    }

    /// The same decider, for one formula: of what is built for it, what doesn't come again in it isn't kept.
    pub fn used_once(mut self) -> Decider
        ensures guide { guide_of result ≡ guide_of self }
        ensures kept { (shelf : Contents) → HasKept shelf self → HasKept shelf result }
    {
        self.once = true;
        self
    }

    /// Decides a formula: [`Verdict::None`] exactly where no assignment satisfies it; otherwise a tree that satisfies it,
    /// of least weight on the tracks `weigh`, with that weight, a track that is given more than once counted once;
    /// [`Verdict::TooLarge`] exactly where some assignment satisfies it, but no tree of one of least weight has room; or
    /// [`Verdict::Limit`], only where the formula's Peak exceeds the shelf's limit. Some of the automata that were built are
    /// kept for the next formula.
    ///
    /// # Errors
    ///
    /// Want of memory; also where a projection on the way has no room for its sets. It is answered only where the formula as it
    /// stands ends so, by a way that stops as soon as a limit is licensed.
    pub fn decide(
        &mut self,
        alloc: Global,
        f: &Formula,
        weigh: &TrackList,
        shelf: &mut Shelf,
    ) -> Result<Verdict, NoMemory>
        requires { HasKept shelf.old self.old }

        // The answer.
        ensures value { IfOk result (IsVerdict weigh.now f.now) }
        ensures limit { result ≡ Ok Verdict.Limit → (p : ℕ) → HasPeak (guide_of self.old) f.now p → limit_of shelf.old < p }

        // What the call leaves, whatever it answers.
        ensures kept { HasKept shelf.new self.new }
        ensures guide { guide_of self.new ≡ guide_of self.old }
        ensures same_limit { limit_of shelf.new ≡ limit_of shelf.old }
    {
        let id = intern(alloc, &mut self.interner, f)?;
        decide_number(
            alloc,
            &self.guide,
            &mut self.interner,
            id,
            self.once,
            weigh,
            &mut self.first,
            &mut self.kept,
            shelf,
        )
    }

    /// Releases all that is kept, and gives the memory of the second shelf back. Takes no memory.
    pub fn close(self, shelf: &mut Shelf)
        requires { HasKept shelf.old self }
        ensures tables { HasNoTables shelf.new }
        ensures same_limit { limit_of shelf.new ≡ limit_of shelf.old }
    {
        let Decider {
            guide,
            first,
            interner,
            mut kept,
            once: _,
        } = self;
        drop(guide);
        drop(first);
        drop(interner);
        kept.release_all(shelf);
        drop(kept);
    }
}

/// Decides a formula under a guide, by a [`Decider`] that is used once: [`Verdict::None`] exactly where no assignment
/// satisfies it; otherwise a tree that satisfies it, of least weight on the tracks `weigh`, with that weight, a track that
/// is given more than once counted once; [`Verdict::TooLarge`] exactly where some assignment satisfies it, but no tree of one of
/// least weight has room; or [`Verdict::Limit`], only where the formula's Peak under the guide exceeds the shelf's limit. The shelf
/// has no table at the call, and none afterwards.
///
/// # Errors
///
/// Want of memory, as for [`Decider::decide`].
pub fn decide(
    alloc: Global,
    f: &Formula,
    g: &Guide,
    weigh: &TrackList,
    shelf: &mut Shelf,
) -> Result<Verdict, NoMemory>
    requires { HasNoTables shelf.old }

    // The answer.
    ensures value { IfOk result (IsVerdict weigh.now f.now) }
    ensures limit { result ≡ Ok Verdict.Limit → (p : ℕ) → HasPeak g.now f.now p → limit_of shelf.old < p }

    // What the call leaves, whatever it answers.
    ensures tables { HasNoTables shelf.new }
    ensures same_limit { limit_of shelf.new ≡ limit_of shelf.old }
{
    let guide = copy_of(alloc, g)?;
    let decider = Decider::new(alloc, guide)?;
    let mut decider = decider.used_once();
    let verdict = decider.decide(alloc, f, weigh, shelf);
    decider.close(shelf);
    verdict
}

/// An equal guide.
fn copy_of(alloc: Global, g: &Guide) -> Result<Guide, NoMemory>
    ensures { IfOk result (λ copy. copy ≡ g.now) }
{
    let mut children = Items::new(alloc);
    for space in 0..g.spaces() {
        children.push(g.children(space).unwrap_or((0, 0)))?;
    }
    Guide::new(alloc, children)
}
