//! The sets of a certificate's step.

ghost use Rattle.std.specs.Prelude.{◌≡◌, ◌↔◌, [], ◌∷◌, ◌++◌, IfOk, IfSome, IfNone, OnErr, IsTrue, ℕ, if◌then◌else◌};
ghost use Rattle.std.specs.List.Sorted.{IsStrictlyIncreasing};
ghost use Rattle.cert_tables.specs.SetKeys.{IsLineOf, HasSet, AreSets};

use cert_text::SetLine;
use plain_data::Items;
use std::alloc::{AllocError, Global};
use std::collections::HashMap;
use std::marker::Model;

/// What a set is sought by: its space and its members, rising.
#[derive(Debug, PartialEq, Eq, Hash, Drop)]
pub(crate) struct SetKey {
    pub(crate) space: u32,
    pub(crate) members: Vec<u32>,
}

/// Sets of states with the states that they go to, none for two. Contracts see the lines in their order.
#[derive(Drop)]
pub struct SetTable {
    lines: Items<SetLine>,
    places: HashMap<SetKey, usize>,
}

impl Model for SetTable {
    ghost use Rattle.std.specs.Prelude.{List};
    ghost use Rattle.cert_text.specs.declared.line.SetLine.{SetLine};
    ghost use Rattle.cert_tables.specs.SetKeys.{HasSetPlaces, AreSets};

    ghost Value = { List SetLine };

    ghost view = { λ table. table.lines };

    ghost invariant = { λ table. HasSetPlaces table.lines table.places × AreSets table.lines };
}

impl SetTable {
    /// No sets yet. Takes no memory.
    pub fn new(alloc: Global) -> SetTable
        ensures { result ≡ [] }
    {
        SetTable {
            lines: Items::new(alloc),
            places: HashMap::new(alloc),
        }
    }

    /// The lines. Takes no memory.
    pub fn as_slice(&self) -> &[SetLine]
        ensures value { result.now ≡ self.now }
        ensures sets { AreSets self.now }
    {
        self.lines.as_slice()
    }

    /// The place of a set's line. `None` where it has none.
    fn place(&self, key: &SetKey) -> Option<usize>
        ensures found { IfSome result (IsLineOf self.now key.now.space key.now.members.items) }
        ensures none { IfNone result ((place : ℕ) → ¬ IsLineOf self.now key.now.space key.now.members.items place) }
    {
        let place = *self.places.get(key)?;
        let line = self.lines.get(place)?;
        if line.space == key.space && line.members.as_slice() == key.members.as_slice() {
            Some(place)
        } else {
            None
        }
    }

    /// Puts a line, whose members rise, behind the others. `false` where the set has one.
    ///
    /// # Errors
    ///
    /// Want of memory; the lines are then as they were.
    pub fn push(&mut self, alloc: Global, line: SetLine) -> Result<bool, AllocError>
        requires { IsStrictlyIncreasing line.members }
        ensures value { IfOk result (λ is_new. self.new ≡ (if is_new then self.old ++ line ∷ [] else self.old)) }
        ensures known { IfOk result (λ is_new. IsTrue is_new ↔ ((place : ℕ) → ¬ IsLineOf self.old line.space line.members place)) }
        ensures err { OnErr result (self.new ≡ self.old) }
    {
        let members = Vec::from_slice(alloc, line.members.as_slice())?;
        let key = SetKey {
            space: line.space,
            members,
        };
        if self.place(&key).is_some() {
            return Ok(false);
        }
        let place = self.lines.len();
        self.places.insert(key, place)?;
        self.lines.push(line)?;
        Ok(true)
    }

    /// The state that a set of rising members goes to. `None` for a set that isn't there. Takes no memory.
    pub(crate) fn state(&self, space: u32, members: Vec<u32>) -> Option<u32>
        ensures found { IfSome result (HasSet self.now space members.items) }
        ensures none { IfNone result ((state : ℕ) → ¬ HasSet self.now space members.items state) }
        ensures sets { AreSets self.now }
    {
        let _lines = &self.lines;
        let key = SetKey { space, members };
        let place = self.place(&key)?;
        let line = self.lines.get(place)?;
        Some(line.state)
    }
}
