//! Copies of formulas.

ghost use Rattle.std.specs.Prelude.{◌≡◌, ◌<◌, Some, IfOk, OnOk, IsSome, reverse};
ghost use Rattle.ws2s_core.specs.Postfix.{applied};

use crate::formula::Formula;
use crate::postfix::{Symbol, symbols_of};
use std::alloc::{AllocError, Global};

impl Formula {
    /// An equal formula, by a loop, however deep the formula is.
    ///
    /// # Errors
    ///
    /// Want of memory.
    pub fn copy(&self, alloc: Global) -> Result<Formula, AllocError>
        ensures { IfOk result (λ copy. copy ≡ self.now) }
    {
        let symbols = symbols_of(alloc, self)?;
        let mut parts = Vec::new(alloc);
        for symbol in symbols.as_slice() {
            apply_symbol(alloc, &mut parts, *symbol)?;
        }
        let copy = parts.pop().unwrap();
        Ok(copy)
    }
}

/// Puts the formula that a symbol makes of the last parts in their place.
///
/// # Errors
///
/// Want of memory; the parts that were taken are then dropped.
pub fn apply_symbol(
    alloc: Global,
    parts: &mut Vec<Formula>,
    symbol: Symbol,
) -> Result<(), AllocError>
    requires { IsSome (applied symbol (reverse parts.old.items)) }
    ensures { OnOk result (applied symbol (reverse parts.old.items) ≡ Some (reverse parts.new.items)) }
{
    let formula = match symbol {
        Symbol::Sub(x, y) => Formula::Sub(x, y),
        Symbol::Single(x) => Formula::Single(x),
        Symbol::Succ0(x, y) => Formula::Succ0(x, y),
        Symbol::Succ1(x, y) => Formula::Succ1(x, y),
        Symbol::Root(x) => Formula::Root(x),
        Symbol::And => {
            let right = parts.pop().unwrap();
            let left = parts.pop().unwrap();
            Formula::and(alloc, left, right)?
        }
        Symbol::Not => {
            let inner = parts.pop().unwrap();
            Formula::not(alloc, inner)?
        }
        Symbol::Ex2(t) => {
            let inner = parts.pop().unwrap();
            Formula::ex2(alloc, t, inner)?
        }
    };
    parts.push(formula)?;
    Ok(())
}
