//! Rules for calls of this crate.

use crate::calls::StateMap;
use crate::rule::{LeafRule, StateList};
use std::alloc::AllocError;

/// A state stays as it is.
#[derive(Clone, Copy, Debug)]
pub(crate) struct SameState;

impl LeafRule for SameState {
    ghost use Rattle.bdd_walk.specs.Rules.{itself_of, IsState};

    ghost answers = { λ rule. itself_of };

    ghost may_ask = { λ rule. IsState };

    fn leaf(&mut self, states: &StateList) -> Result<u32, AllocError> {
        Ok(states.as_slice()[0])
    }
}

/// A state gets its new number.
#[derive(Clone, Copy, Debug)]
pub(crate) struct Renaming<'a> {
    pub(crate) numbers: &'a StateMap,
}

impl LeafRule for Renaming<'_> {
    ghost use Rattle.bdd_walk.specs.Rules.{renamed_by, IsNumbered};

    ghost answers = { λ rule. renamed_by rule.numbers.now };

    ghost may_ask = { λ rule. IsNumbered rule.numbers.now };

    fn leaf(&mut self, states: &StateList) -> Result<u32, AllocError> {
        let state = states.as_slice()[0];
        Ok(self.numbers.as_slice()[state as usize])
    }
}
