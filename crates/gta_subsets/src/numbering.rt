//! Numbers for sets of states.

ghost use Rattle.std.specs.Prelude.{◌≡◌, ◌<◌, ◌≤◌, ◌^◌, [], length, Some, IfOk, slice_get};
ghost use Rattle.bdd_walk.specs.Sets.{IsSet};
ghost use Rattle.gta_subsets.specs.Numbers.{number_in, AreNumbers, Grows};

use bdd_walk::{LeafRule, StateList, set_of};
use indexmap::IndexSet;
use std::alloc::{AllocError, Global};
use std::marker::Model;

/// The most numbers that there are for states.
const MOST: usize = 1 << 31;

/// How many states the sets of a space may have together for each node of the shelf's limit: they stand outside the shelf.
const STATES_A_NODE: usize = 16;

/// So many states they may have together whatever the limit is.
const ROOM: usize = 1 << 20;

/// How many states the sets of a space may have together on a shelf with this limit.
pub fn room_for(limit: u32) -> usize
    ensures { 2 ^ 20 ≤ result }
{
    (limit as usize).saturating_mul(STATES_A_NODE).max(ROOM)
}

/// The room that is left where a set with so many states was put, if it is new.
fn left_of(room: usize, states: usize, is_new: bool) -> usize {
    if is_new {
        room.saturating_sub(states)
    } else {
        room
    }
}

/// Sets of states in the order in which they came. The place of a set is its number.
#[derive(Drop)]
pub struct Numbering {
    alloc: Global,
    sets: IndexSet<Vec<u32>>,
    /// How many states sets that come may still have together; none where the sets have as many as they may, or more.
    room: usize,
}

impl Model for Numbering {
    ghost use Rattle.std.specs.Prelude.{List, ℕ};
    ghost use Rattle.gta_subsets.specs.Numbers.{lists_of, AreNumbers};

    ghost Value = { List (List ℕ) };

    ghost view = { λ numbering. lists_of numbering.sets.keys };

    ghost invariant = { λ numbering. AreNumbers (lists_of numbering.sets.keys) };
}

impl Numbering {
    /// No numbers yet, and room for sets with so many states together. Takes no memory.
    pub fn new(alloc: Global, room: usize) -> Numbering
        ensures { result ≡ [] }
    {
        Numbering {
            alloc,
            sets: IndexSet::new(alloc),
            room,
        }
    }

    /// The set with a number.
    pub fn set(&self, number: usize) -> &[u32]
        requires { number < length self.now }
        ensures { slice_get self.now number ≡ Some result.now }
    {
        self.sets.as_slice()[number].as_slice()
    }

    pub fn len(&self) -> usize
        ensures value { result ≡ length self.now }
        ensures numbers { AreNumbers self.now }
    {
        self.sets.as_slice().len()
    }

    /// The number of a set, a new one where it has none. Want of memory, also where no number or no room is left, changes
    /// nothing.
    pub fn number(&mut self, set: Vec<u32>) -> Result<u32, AllocError>
        requires { IsSet set.items }
        ensures value { IfOk result (λ number. number_in self.new set.items ≡ Some number) }
        ensures small { IfOk result (λ number. number < 2 ^ 31) }
        ensures place { IfOk result (λ number. number < length self.new) }
        ensures grows { Grows self.old self.new set.items }
        ensures numbers { AreNumbers self.new }
    {
        if self.sets.len() >= MOST || self.room == 0 {
            return Err(AllocError);
        }
        let states = set.len();
        let (place, is_new) = self.sets.insert_full(set)?;
        self.room = left_of(self.room, states, is_new);
        Ok(place as u32)
    }
}

impl LeafRule for Numbering {
    ghost use Rattle.gta_subsets.specs.Numbers.{numbered, AreNumbers, AreOfOneSet};

    ghost answers = { λ sets. numbered sets };

    ghost may_ask = { λ sets states. AreNumbers sets };

    ghost like = { AreOfOneSet };

    fn leaf(&mut self, states: &StateList) -> Result<u32, AllocError> {
        let set = set_of(self.alloc, states.as_slice())?;
        self.number(set)
    }
}
