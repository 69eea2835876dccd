//! Negations of negations left out.

ghost use Rattle.std.specs.Prelude.{◌≡◌, Some, IsSome, IfOk, OnOk, reverse};
ghost use Rattle.ws2s_pass.specs.Folding.{stepped};
ghost use Rattle.ws2s_pass.specs.Flattening.{negation_of, flattened_node, flattened};
ghost use Rattle.ws2s_pass.specs.Rewriting.{IsRewriting};

use std::alloc::{AllocError, Global};
use ws2s_core::{Formula, Symbol, apply_symbol, symbols_of};

/// The formula with every negation of a negation left out, from its parts up, however deep it is. The time is linear in
/// the number of nodes.
///
/// # Errors
///
/// Want of memory.
pub fn flatten_not(alloc: Global, formula: &Formula) -> Result<Formula, AllocError>
    ensures value { IfOk result (λ flat. flat ≡ flattened formula.now) }
    ensures kept { IfOk result (λ flat. IsRewriting formula.now flat) }
{
    let symbols = symbols_of(alloc, formula)?;
    let mut parts = Vec::new(alloc);
    for symbol in symbols.as_slice() {
        flatten_symbol(alloc, &mut parts, *symbol)?;
    }
    let flat = parts.pop().unwrap();
    Ok(flat)
}

/// Puts what a symbol makes of the last parts in their place.
fn flatten_symbol(alloc: Global, parts: &mut Vec<Formula>, symbol: Symbol) -> Result<(), AllocError>
    requires { IsSome (stepped flattened_node symbol (reverse parts.old.items)) }
    ensures { OnOk result (stepped flattened_node symbol (reverse parts.old.items) ≡ Some (reverse parts.new.items)) }
{
    match symbol {
        Symbol::Not => {
            let inner = parts.pop().unwrap();
            let negated = negation(alloc, inner)?;
            parts.push(negated)?;
            Ok(())
        }
        _ => apply_symbol(alloc, parts, symbol),
    }
}

/// The negation of a formula: what is negated where it is one itself.
fn negation(alloc: Global, formula: Formula) -> Result<Formula, AllocError>
    ensures { IfOk result (λ negated. negated ≡ negation_of formula) }
{
    match formula.into_negated() {
        Ok(inner) => Ok(inner),
        Err(other) => Formula::not(alloc, other),
    }
}
