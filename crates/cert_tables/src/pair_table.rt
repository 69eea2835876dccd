//! The pairs of a certificate's step.

ghost use Rattle.std.specs.Prelude.{◌≡◌, ◌↔◌, [], ◌∷◌, ◌++◌, map, IfOk, IfSome, IfNone, OnErr, IsTrue, ℕ, if◌then◌else◌};
ghost use Rattle.cert_text.specs.declared.line.PairLine.{PairLine};
ghost use Rattle.cert_theory.specs.Tables.{GoesTo};
ghost use Rattle.cert_tables.specs.PairKeys.{key_of, named_pair, IsOnePerKey, HasKey, HasLine};

use cert_text::PairLine;
use plain_data::Items;
use std::alloc::{AllocError, Global};
use std::collections::HashMap;
use std::marker::Model;

/// What a pair is sought by: a space, a state of the left part there and one of the right.
#[derive(Clone, Copy, Debug, PartialEq, Eq, Hash)]
pub(crate) struct PairKey {
    pub(crate) space: u32,
    pub(crate) first: u32,
    pub(crate) second: u32,
}

/// Pairs of states with the states that they go to, none for two. Contracts see the lines in their order.
#[derive(Drop)]
pub struct PairTable {
    lines: Items<PairLine>,
    places: HashMap<PairKey, usize>,
}

impl Model for PairTable {
    ghost use Rattle.std.specs.Prelude.{List};
    ghost use Rattle.cert_text.specs.declared.line.PairLine.{PairLine};
    ghost use Rattle.cert_tables.specs.PairKeys.{HasPlaces};

    ghost Value = { List PairLine };

    ghost view = { λ table. table.lines };

    ghost invariant = { λ table. HasPlaces table.lines table.places };
}

impl PairTable {
    /// No pairs yet. Takes no memory.
    pub fn new(alloc: Global) -> PairTable
        ensures { result ≡ [] }
    {
        PairTable {
            lines: Items::new(alloc),
            places: HashMap::new(alloc),
        }
    }

    /// The lines. Takes no memory.
    pub fn as_slice(&self) -> &[PairLine]
        ensures value { result.now ≡ self.now }
        ensures once { IsOnePerKey self.now }
    {
        self.lines.as_slice()
    }

    /// The line of a pair. `None` where it has none.
    fn line(&self, key: PairKey) -> Option<PairLine>
        ensures found { IfSome result (HasLine self.now key) }
        ensures none { IfNone result ((line : PairLine) → ¬ HasLine self.now key line) }
    {
        let place = self.places.get(&key)?;
        let line = *self.lines.get(*place)?;
        if key_of(line) == key {
            Some(line)
        } else {
            None
        }
    }

    /// Puts a line behind the others. `false` where the pair has one.
    ///
    /// # Errors
    ///
    /// Want of memory; the lines are then as they were.
    pub fn push(&mut self, line: PairLine) -> Result<bool, AllocError>
        ensures value { IfOk result (λ is_new. self.new ≡ (if is_new then self.old ++ line ∷ [] else self.old)) }
        ensures known { IfOk result (λ is_new. IsTrue is_new ↔ ¬ HasKey self.old line) }
        ensures err { OnErr result (self.new ≡ self.old) }
    {
        let key = key_of(line);
        if self.line(key).is_some() {
            return Ok(false);
        }
        let place = self.lines.len();
        self.places.insert(key, place)?;
        self.lines.push(line)?;
        Ok(true)
    }

    /// The state that a pair goes to. `None` for a pair that isn't there. Takes no memory.
    pub fn state(&self, space: u32, first: u32, second: u32) -> Option<u32>
        ensures found { IfSome result (λ state. (other : ℕ) →
            GoesTo (map named_pair self.now) space first second other ↔ (state ≡ other)) }
        ensures none { IfNone result ((state : ℕ) → ¬ GoesTo (map named_pair self.now) space first second state) }
    {
        let _lines = &self.lines;
        match self.line(PairKey {
            space,
            first,
            second,
        }) {
            Some(line) => Some(line.state),
            None => None,
        }
    }
}

fn key_of(line: PairLine) -> PairKey
    ensures { result ≡ key_of line }
{
    PairKey {
        space: line.space,
        first: line.first,
        second: line.second,
    }
}
