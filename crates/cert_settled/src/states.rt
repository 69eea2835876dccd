//! Settled states.

ghost use Rattle.std.specs.Prelude.{◌≡◌, ◌↔◌, [], ◌∷◌, ◌++◌, map, IfOk, OnErr, IsTrue, if◌then◌else◌};
ghost use Rattle.cert_theory.specs.Tables.{Lists};
ghost use Rattle.cert_settled.specs.Settling.{placed};

use indexmap::IndexSet;
use std::alloc::{AllocError, Global};
use std::marker::Model;

/// A space and a state of it.
#[derive(Clone, Copy, Debug, PartialEq, Eq, Hash)]
pub struct Placed {
    pub space: u32,
    pub state: u32,
}

/// States that settle, each once, in the order in which they came. Contracts see the list.
#[derive(Drop)]
pub struct SettledStates {
    states: IndexSet<Placed>,
}

impl Model for SettledStates {
    ghost use Rattle.std.specs.Prelude.{List, map};
    ghost use Rattle.cert_theory.specs.Tables.{PlacedState};
    ghost use Rattle.cert_settled.specs.Settling.{placed};

    ghost Value = { List PlacedState };

    ghost view = { λ settled. map placed settled.states.keys };
}

impl SettledStates {
    /// No states yet. Takes no memory.
    pub fn new(alloc: Global) -> SettledStates
        ensures { result ≡ [] }
    {
        SettledStates {
            states: IndexSet::new(alloc),
        }
    }

    /// The states, in order. Takes no memory.
    pub fn as_slice(&self) -> &[Placed]
        ensures { map placed result.now ≡ self.now }
    {
        self.states.as_slice()
    }

    /// Whether a state is there. Takes no memory.
    pub fn has(&self, space: u32, state: u32) -> bool
        ensures { IsTrue result ↔ Lists self.now space state }
    {
        self.states.contains(&Placed { space, state })
    }

    /// Puts a state behind the others. `false` where it is there.
    ///
    /// # Errors
    ///
    /// Want of memory; the states are then as they were.
    pub fn push(&mut self, state: Placed) -> Result<bool, AllocError>
        ensures value { IfOk result (λ is_new. self.new ≡ (if is_new then self.old ++ placed state ∷ [] else self.old)) }
        ensures known { IfOk result (λ is_new. IsTrue is_new ↔ ¬ Lists self.old state.space state.state) }
        ensures err { OnErr result (self.new ≡ self.old) }
    {
        if self.has(state.space, state.state) {
            return Ok(false);
        }
        self.states.insert_full(state)?;
        Ok(true)
    }
}
