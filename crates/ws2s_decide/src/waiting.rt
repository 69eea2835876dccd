//! Automata that wait.

ghost use Rattle.std.specs.Prelude.{◌≡◌, List, [], ◌∷◌, ◌++◌, IsSome, OnOk, OnErr, MatchOption};
ghost use Rattle.bdd_nodes.specs.Shelf.{IsShelf, roots_of};
ghost use Rattle.bdd_nodes.specs.Changes.{DropsTable};
ghost use Rattle.gta_theory.specs.Guides.{Spaces};
ghost use Rattle.gta_core.specs.Auto.{AutoView};
ghost use Rattle.gta_keep.specs.Holding.{Holds};
ghost use Rattle.ws2s_decide.specs.Counting.{IsInSizes};
ghost use Rattle.ws2s_decide.specs.Going.{Releases};

use bdd_nodes::Shelf;
use bdd_walk::NoMemory;
use gta_core::{Auto, release};
use gta_keep::{pairs_of, places_of};
use std::alloc::{AllocError, Global};
use std::marker::Model;

/// An automaton that waits.
#[derive(Drop)]
struct Held {
    auto: Auto,
    /// The pairs of child states that it and those before it have together, as far as a `u64` counts them.
    pairs: u64,
    /// The places that it and those before it have together, as far as a `u64` counts them.
    places: u64,
}

/// A stack of automata. Contracts see the list of them, the last one first. Each has a table of its own in one shelf, so
/// they are released before they are dropped.
#[derive(Drop)]
pub(crate) struct Waiting {
    /// The last one last.
    held: Vec<Held>,
}

impl Model for Waiting {
    ghost use Rattle.std.specs.Prelude.{List, map, reverse};
    ghost use Rattle.gta_core.specs.Auto.{AutoView};
    ghost use Rattle.ws2s_decide.specs.Counting.{AreCounted};

    ghost Value = { List AutoView };

    ghost view = { λ waiting. map (λ one. one.auto) (reverse waiting.held.items) };

    ghost invariant = { λ waiting. AreCounted (reverse waiting.held.items) };
}

impl Waiting {
    /// No automata. Takes no memory.
    pub(crate) fn new(alloc: Global) -> Waiting
        ensures { result ≡ [] }
    {
        Waiting {
            held: Vec::new(alloc),
        }
    }

    /// Puts an automaton on top.
    ///
    /// # Errors
    ///
    /// Want of memory; the automaton is then released.
    pub(crate) fn push(&mut self, auto: Auto, shelf: &mut Shelf) -> Result<(), NoMemory>
        requires { IsSome (roots_of shelf.old auto.table) }
        ensures ok { OnOk result (self.new ≡ auto ∷ self.old) }
        ensures same { OnOk result (shelf.new ≡ shelf.old) }
        ensures err { OnErr result (self.new ≡ self.old) }
        ensures dropped { OnErr result (DropsTable shelf.old shelf.new auto.table) }
        ensures shelf { OnErr result (IsShelf shelf.new) }
    {
        let pairs = self.pairs().saturating_add(pairs_of(&auto));
        let places = self.places().saturating_add(places_of(&auto));
        match self.held.push(Held {
            auto,
            pairs,
            places,
        }) {
            Ok(()) => Ok(()),
            Err(refused) => {
                let Held { auto, .. } = refused.value;
                release(auto, shelf);
                Err(AllocError)
            }
        }
    }

    /// Takes the top off. `None` where there is none.
    pub(crate) fn pop(&mut self) -> Option<Auto>
        ensures { MatchOption result ((self.old ≡ []) × (self.new ≡ [])) (λ first. self.old ≡ first ∷ self.new) }
    {
        let Held { auto, .. } = self.held.pop()?;
        Some(auto)
    }

    /// How many pairs of child states the automata have together, or the greatest number where there are more. Their Sizes
    /// count each of them. Takes no memory.
    pub(crate) fn pairs(&self) -> u64
        ensures { IsInSizes self.now result }
    {
        match self.held.last() {
            Some(last) => last.pairs,
            None => 0,
        }
    }

    /// How many places the automata have together, or the greatest number where there are more. When a formula is given up
    /// depends on it, and no clause does. Takes no memory.
    pub(crate) fn places(&self) -> u64 {
        match self.held.last() {
            Some(last) => last.places,
            None => 0,
        }
    }

    /// Releases all of them. Takes no memory.
    pub(crate) fn release_all(&mut self, shelf: &mut Shelf)
        requires { (g : Spaces) × (others : List AutoView) × Holds g shelf.old (self.old ++ others) }
        ensures empty { self.new ≡ [] }
        ensures releases { (g : Spaces) (others : List AutoView) → Holds g shelf.old (self.old ++ others) →
            Releases g shelf.old shelf.new others }
    {
        while let Some(auto) = self.pop() {
            release(auto, shelf);
        }
    }
}
