//! Automata that are kept by the numbers of formulas.

ghost use Rattle.std.specs.Prelude.{◌≡◌, ◌<◌, ◌≤◌, ℕ, List, [], ◌∷◌, length, Contains, IfOk, IsSome, OnOk, OnErr, MatchOption};
ghost use Rattle.bdd_nodes.specs.Shelf.{Contents, count_of};
ghost use Rattle.gta_theory.specs.Guides.{Spaces};
ghost use Rattle.gta_core.specs.Auto.{AutoView, IsAuto};
ghost use Rattle.gta_keep.specs.Holding.{Holds, HoldsBeside, HaveSum, IsCopyOfKept, IsNotKept, IsKeptCopy, Passes, TakesIn, as_list, beside};

use crate::pairs::places_of;
use bdd_nodes::Shelf;
use bdd_walk::NoMemory;
use gta_core::{Auto, release};
use lru::LruCache;
use std::alloc::{AllocError, Global};
use std::marker::Model;
use std::num::NonZeroUsize;
use ws2s_core::FormulaId;

/// How many automata are kept at most: on the way to one verdict thousands may be asked for again.
const MOST_KEPT: usize = 4_096;

/// How many places what is kept has together at most, for each node that the shelf may have.
const PLACES_A_NODE: u64 = 16;

/// How many nodes there are at least where those that nothing needs are looked for.
const MANY_NODES: u32 = 1 << 17;

/// Automata of formulas that may be asked for again, by the formulas' numbers, at most `MOST_KEPT` of them. Contracts see
/// the list of them, the last one used first. Each has a table of its own in one shelf, so they are released before they
/// are dropped.
#[derive(Drop)]
pub struct Kept {
    automata: LruCache<FormulaId, Auto>,
    /// How many places they have together, as far as a `u64` counts them.
    places: u64,
    /// How many nodes the shelf had when those that nothing needed were let go of.
    needed: u32,
}

impl Model for Kept {
    ghost use Rattle.std.specs.Prelude.{List};
    ghost use Rattle.gta_core.specs.Auto.{AutoView};
    ghost use Rattle.ws2s_core.specs.declared.node.FormulaId.{FormulaId};

    ghost Value = { List (FormulaId × AutoView) };

    ghost view = { λ kept. kept.automata.entries };
}

impl Kept {
    /// Keeps nothing.
    ///
    /// # Errors
    ///
    /// Want of memory.
    pub fn new(alloc: Global) -> Result<Kept, NoMemory>
        ensures { IfOk result (λ kept. kept ≡ []) }
    {
        let most = NonZeroUsize::new(MOST_KEPT).unwrap();
        Ok(Kept {
            automata: LruCache::sparse(alloc, most)?,
            places: 0,
            needed: 0,
        })
    }

    /// A copy of the automaton that is kept for the number, with a table of its own; `None` exactly where none is.
    ///
    /// # Errors
    ///
    /// Want of memory.
    pub fn copy_of(
        &mut self,
        alloc: Global,
        id: FormulaId,
        shelf: &mut Shelf,
    ) -> Result<Option<Auto>, NoMemory>
        requires { (g : Spaces) × HoldsBeside g shelf.old [] self.old }
        ensures found { IfOk result (λ found. MatchOption found (IsNotKept id self.old) (IsCopyOfKept shelf.old shelf.new id self.old)) }
        ensures ok { IfOk result (λ found. (g : Spaces) → Passes g shelf.old shelf.new [] (as_list found) self.old self.new) }
        ensures err { OnErr result ((g : Spaces) → Passes g shelf.old shelf.new [] [] self.old self.new) }
    {
        let copy = match self.automata.peek(&id) {
            Some(kept) => kept.copy(alloc, shelf)?,
            None => return Ok(None),
        };
        self.automata.promote(&id);
        Ok(Some(copy))
    }

    /// The automaton that is kept for the number, which is no longer kept; `None` exactly where none is. Takes no memory.
    pub fn take(&mut self, id: FormulaId) -> Option<Auto>
        ensures found { (shelf : Contents) → MatchOption result (IsNotKept id self.old) (IsCopyOfKept shelf shelf id self.old) }
        ensures passes { (g : Spaces) (shelf : Contents) → Passes g shelf shelf [] (as_list result) self.old self.new }
    {
        let taken = self.automata.pop(&id);
        let gone = match &taken {
            Some(auto) => places_of(auto),
            None => 0,
        };
        self.places = self.places.saturating_sub(gone);
        taken
    }

    /// Keeps a copy of the automaton for the number, in the place of what was kept for it. The one that was used longest
    /// ago is let go of where there are too many.
    ///
    /// # Errors
    ///
    /// Want of memory. What was kept is kept.
    pub fn keep(
        &mut self,
        alloc: Global,
        id: FormulaId,
        auto: &Auto,
        shelf: &mut Shelf,
    ) -> Result<(), NoMemory>
        requires { (g : Spaces) × HoldsBeside g shelf.old (auto.now ∷ []) self.old }
        ensures takes { (g : Spaces) → IsAuto g shelf.old auto.now → TakesIn g shelf.old shelf.new id auto.now self.old self.new }
        ensures there { OnOk result (IsKeptCopy shelf.old shelf.new id auto.now self.new) }
        ensures err { OnErr result (self.new ≡ self.old) }
    {
        let gone = put(alloc, id, auto, &mut self.automata, shelf)?;
        let places = self.places.saturating_add(places_of(auto));
        self.places = places.saturating_sub(gone);
        self.shrink(id, shelf);
        Ok(())
    }

    /// Lets go of what was used longest ago while what is kept has too many places, but not of what is kept for the number.
    /// Takes no memory.
    fn shrink(&mut self, id: FormulaId, shelf: &mut Shelf)
        requires { (g : Spaces) × HoldsBeside g shelf.old [] self.old }
        ensures passes { (g : Spaces) → Passes g shelf.old shelf.new [] [] self.old self.new }
        ensures stays { (auto : AutoView) → Contains self.old (id, auto) → Contains self.new (id, auto) }
    {
        let most = u64::from(shelf.limit()).saturating_mul(PLACES_A_NODE);
        while let Some(auto) = self.fall_out(id, most) {
            release(auto, shelf);
        }
    }

    /// Takes out what was used longest ago where there are more places than that, unless it is kept for the number.
    fn fall_out(&mut self, id: FormulaId, most: u64) -> Option<Auto>
        ensures passes { (g : Spaces) (shelf : Contents) → Passes g shelf shelf [] (as_list result) self.old self.new }
        ensures stays { (auto : AutoView) → Contains self.old (id, auto) → Contains self.new (id, auto) }
        ensures fewer { IsSome result → length self.new < length self.old }
    {
        let (oldest, _) = self.automata.peek_lru()?;
        if self.places <= most || *oldest == id {
            return None;
        }
        let (_, out) = self.automata.pop_lru()?;
        self.places = self.places.saturating_sub(places_of(&out));
        Some(out)
    }

    /// Releases all that is kept. Takes no memory.
    pub fn release_all(&mut self, shelf: &mut Shelf)
        requires { (g : Spaces) × HoldsBeside g shelf.old [] self.old }
        ensures passes { (g : Spaces) → Passes g shelf.old shelf.new [] [] self.old self.new }
        ensures empty { self.new ≡ [] }
    {
        while let Some((_, auto)) = self.automata.pop_lru() {
            release(auto, shelf);
        }
        self.places = 0;
    }

    /// Lets go of the nodes that nothing needs where there are many, and at least twice as many as were left the last time. So a
    /// node is looked at twice on average, and no more than twice those that were needed wait. Takes no memory.
    pub fn sweep(&mut self, shelf: &mut Shelf)
        ensures { (g : Spaces) → Passes g shelf.old shelf.new [] [] self.old self.new }
    {
        if shelf.count() < self.sweeps_from() {
            return;
        }
        shelf.collect();
        self.needed = shelf.count();
    }

    /// With how many nodes those that nothing needs are looked for.
    fn sweeps_from(&self) -> u32 {
        self.needed.saturating_mul(2).max(MANY_NODES)
    }

    /// Lets go of what is kept and of the nodes that nothing needs. What is left are nodes of the automata that wait: no more
    /// than the sum of their Sizes. Takes no memory.
    pub fn make_room(&mut self, shelf: &mut Shelf)
        requires { (g : Spaces) × HoldsBeside g shelf.old [] self.old }
        ensures passes { (g : Spaces) → Passes g shelf.old shelf.new [] [] self.old self.new }
        ensures empty { self.new ≡ [] }
        ensures room { (g : Spaces) (others : List AutoView) (sum : ℕ) → Holds g shelf.old (beside [] others self.old) →
            HaveSum g shelf.old others sum → count_of shelf.new ≤ sum }
    {
        self.release_all(shelf);
        shelf.collect();
        self.needed = shelf.count();
    }
}

/// Puts a copy of the automaton first, in the place of what was there for the number, and answers how many places what it
/// displaces had: that, or the one that was used longest ago where there are too many. That one is let go of.
///
/// # Errors
///
/// Want of memory. What was there is there.
fn put(
    alloc: Global,
    id: FormulaId,
    auto: &Auto,
    automata: &mut LruCache<FormulaId, Auto>,
    shelf: &mut Shelf,
) -> Result<u64, NoMemory>
    requires { (g : Spaces) × HoldsBeside g shelf.old (auto.now ∷ []) automata.old.entries }
    ensures takes { (g : Spaces) → IsAuto g shelf.old auto.now → TakesIn g shelf.old shelf.new id auto.now automata.old.entries automata.new.entries }
    ensures there { OnOk result (IsKeptCopy shelf.old shelf.new id auto.now automata.new.entries) }
    ensures err { OnErr result (automata.new.entries ≡ automata.old.entries) }
{
    // Only for its clause `valid`.
    let _ = automata.len();
    let copy = auto.copy(alloc, shelf)?;
    match automata.push(id, copy) {
        Ok(Some((_, out))) => {
            let gone = places_of(&out);
            release(out, shelf);
            Ok(gone)
        }
        Ok(None) => Ok(0),
        Err(refused) => {
            let (_, copy) = refused.value;
            release(copy, shelf);
            Err(AllocError)
        }
    }
}
