//! What the quantifiers around a place bind.

ghost use Rattle.std.specs.Prelude.{◌≡◌, [], ◌∷◌, OnOk, slice_get};
ghost use Rattle.plain_data.specs.Stacks.{rest};
ghost use Rattle.std.specs.Option.{option_copied};

use std::alloc::{AllocError, Global};
use std::marker::Model;
use store_core::Value;

/// What the quantifiers around a place bind. Contracts see a list with the nearest first.
#[derive(Drop)]
pub(crate) struct Bound {
    /// The nearest last.
    values: Vec<Value>,
}

impl Model for Bound {
    ghost use Rattle.std.specs.Prelude.{List, reverse};
    ghost use Rattle.store_core.specs.declared.value.Value.{Value as StoreValue};

    ghost Value = { List StoreValue };

    ghost view = { λ b. reverse b.values.items };
}

impl Bound {
    /// No quantifier. Takes no memory.
    pub(crate) fn new(alloc: Global) -> Bound
        ensures { result ≡ [] }
    {
        Bound {
            values: Vec::new(alloc),
        }
    }

    /// One quantifier more.
    pub(crate) fn push(&mut self, value: Value) -> Result<(), AllocError>
        ensures { OnOk result (self.new ≡ value ∷ self.old) }
    {
        self.values.push(value)?;
        Ok(())
    }

    /// Outside of the nearest quantifier, if there is one.
    pub(crate) fn pop(&mut self)
        ensures { self.new ≡ rest self.old }
    {
        let _value = self.values.pop();
    }

    /// What a quantifier binds, by the number of those between; `None` exactly where there is none. Takes no memory.
    pub(crate) fn get(&self, between: u32) -> Option<&Value>
        ensures { option_copied result ≡ slice_get self.now between }
    {
        let place = self.values.len().checked_sub(between as usize + 1)?;
        self.values.get(place)
    }
}
