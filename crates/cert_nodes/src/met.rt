//! Lists of spots that a walk has met.

ghost use Rattle.std.specs.Prelude.{◌≡◌, [], slice_get, option_map, Contains, OnOk};
ghost use Rattle.cert_nodes.specs.Walks.{AddsAtMost};

use crate::spots::Spot;
use indexmap::IndexSet;
use std::alloc::{AllocError, Global};
use std::marker::Model;

/// Lists of spots, each once, in the order in which they came. Contracts see the lists.
#[derive(Drop)]
pub struct SpotListSet {
    lists: IndexSet<Vec<Spot>>,
}

impl Model for SpotListSet {
    ghost use Rattle.std.specs.Prelude.{List, map};
    ghost use Rattle.cert_nodes.specs.declared.spots.Spot.{Spot};

    ghost Value = { List (List Spot) };

    ghost view = { λ met. map (λ list. list.items) met.lists.keys };
}

impl SpotListSet {
    /// No lists yet. Takes no memory.
    pub fn new(alloc: Global) -> SpotListSet
        ensures { result ≡ [] }
    {
        SpotListSet {
            lists: IndexSet::new(alloc),
        }
    }

    /// Puts a list behind the others, if it isn't there.
    pub fn insert(&mut self, list: Vec<Spot>) -> Result<(), AllocError>
        ensures added { OnOk result (AddsAtMost self.old list.items self.new) }
        ensures there { OnOk result (Contains self.new list.items) }
    {
        self.lists.insert_full(list)?;
        Ok(())
    }

    /// The list at a place. `None` past the last one. Takes no memory.
    pub(crate) fn list(&self, place: usize) -> Option<&[Spot]>
        ensures { option_map (λ list. list.now) result ≡ slice_get self.now place }
    {
        match self.lists.get_index(place) {
            None => None,
            Some(list) => Some(list.as_slice()),
        }
    }
}
