//! Quantifiers brought into conjunctions.

ghost use Rattle.std.specs.Prelude.{◌≡◌, ℕ, ◌<◌, ◌≤◌, ◌∷◌, [], ◌++◌, List, true, Some, IfOk, OnOk, reverse};
ghost use Rattle.std.specs.List.{AllByRecursion};
ghost use Rattle.ws2s_core.specs.Postfix.{run_on};
ghost use Rattle.ws2s_core.specs.declared.formula.Formula.{Formula};
ghost use Rattle.ws2s_core.specs.declared.postfix.Symbol.{Symbol};
ghost use Rattle.ws2s_pass.specs.Rewriting.{IsRewriting};
ghost use Rattle.ws2s_narrow.specs.declared.steps.Step.{Step};
ghost use Rattle.ws2s_narrow.specs.declared.pending.Waiting.{Waiting};
ghost use Rattle.ws2s_narrow.specs.Narrowing.{narrowed};
ghost use Rattle.ws2s_narrow.specs.Pending.{IsSound, Quantifies};
ghost use Rattle.ws2s_narrow.specs.Taking.{quantifiers, Takes, Divides};

use crate::pending::{Pending, Waiting};
use crate::sharing::Sharing;
use crate::steps::{Step, steps_of};
use std::alloc::{AllocError, Global};
use std::collections::BTreeMap;
use ws2s_core::{Formula, Symbol, apply_symbol};

/// The formula with every quantifier as far inside its conjunctions as it gets, from its parts up, however deep it is.
///
/// A quantifier goes into the side of a conjunction that alone has its track free, and into the right one where none has.
///
/// The formula is read from its parts up, with the set of each part's free tracks, of which the smaller one is put into the
/// larger one; then it is gone through from the whole down, with the quantifiers that wait before each part, of which those
/// that go into the side with fewer atoms are taken out. The time is that of n log n insertions into maps of at most n
/// elements, where n is the number of nodes.
///
/// # Errors
///
/// Want of memory.
pub fn narrow_scope(alloc: Global, formula: &Formula) -> Result<Formula, AllocError>
    ensures value { IfOk result (λ made. made ≡ narrowed formula.now) }
    ensures kept { IfOk result (λ made. IsRewriting formula.now made) }
{
    let symbols = narrowed_symbols(alloc, formula)?;
    let made = built(alloc, symbols)?;
    Ok(made)
}

/// The symbols of the narrowed formula, each before those of its parts.
fn narrowed_symbols(alloc: Global, formula: &Formula) -> Result<Vec<Symbol>, AllocError>
    ensures { IfOk result (λ symbols. run_on (reverse symbols.items) [] ≡ Some (narrowed formula.now ∷ [])) }
{
    let mut steps = steps_of(alloc, formula)?;
    let mut symbols = Vec::new(alloc);
    let mut pending = Vec::new(alloc);
    pending.push(Pending::new(alloc))?;
    while let Some(step) = steps.pop() {
        let top = pending.pop().unwrap();
        let number = steps.len();
        take(alloc, &mut pending, &mut symbols, number, step, top)?;
    }
    Ok(symbols)
}

/// Takes a step down: its symbol and the quantifiers that stay before it come to the symbols, and the others wait before
/// its parts.
fn take(
    alloc: Global,
    pending: &mut Vec<Pending>,
    symbols: &mut Vec<Symbol>,
    number: usize,
    step: Step,
    top: Pending,
) -> Result<(), AllocError>
    requires sound { IsSound top }
    requires inner { AllByRecursion (λ other. number < other.0) top.waiting.entries }
    requires alone { (next : Waiting) → step ≡ Step.Ex2 next → next.used ≡ true
        → AllByRecursion (λ other. Quantifies next.track.0 other → ⊥) top.waiting.entries }
    ensures { OnOk result (Takes number step top pending.old.items pending.new.items (reverse symbols.old.items) (reverse symbols.new.items)) }
{
    match step {
        Step::Atom(symbol) => {
            finish(symbols, symbol, top.waiting)?;
            Ok(())
        }
        Step::And(shares) => {
            divide(alloc, pending, symbols, shares, top)?;
            Ok(())
        }
        Step::Not => {
            finish(symbols, Symbol::Not, top.waiting)?;
            let none = Pending::new(alloc);
            pending.push(none)?;
            Ok(())
        }
        Step::Ex2(next) => {
            let mut inner = top;
            inner.add(number, next)?;
            pending.push(inner)?;
            Ok(())
        }
    }
}

/// Lets the quantifiers that wait before a conjunction stay there or go into its sides.
fn divide(
    alloc: Global,
    pending: &mut Vec<Pending>,
    symbols: &mut Vec<Symbol>,
    shares: Sharing,
    top: Pending,
) -> Result<(), AllocError>
    requires { IsSound top }
    ensures { OnOk result (Divides shares top pending.old.items pending.new.items (reverse symbols.old.items) (reverse symbols.new.items)) }
{
    let mut inner = top;
    let staying = inner.take_staying(alloc, shares.both.as_slice())?;
    finish(symbols, Symbol::And, staying)?;
    let gone = inner.part_with(alloc, &shares)?;
    if shares.is_left {
        pending.push(gone)?;
        pending.push(inner)?;
        return Ok(());
    }
    pending.push(inner)?;
    pending.push(gone)?;
    Ok(())
}

/// Puts the quantifiers and the symbol that they stand before at the end.
fn finish(
    symbols: &mut Vec<Symbol>,
    symbol: Symbol,
    staying: BTreeMap<usize, Waiting>,
) -> Result<(), AllocError>
    ensures { OnOk result (reverse symbols.new.items ≡ symbol ∷ (quantifiers staying.entries ++ reverse symbols.old.items)) }
{
    let mut staying = staying;
    while let Some((_, next)) = staying.pop_last() {
        symbols.push(Symbol::Ex2(next.track))?;
    }
    symbols.push(symbol)?;
    Ok(())
}

/// The formula of symbols, each of which stands before those of its parts.
fn built(alloc: Global, symbols: Vec<Symbol>) -> Result<Formula, AllocError>
    requires { (f : Formula) × (run_on (reverse symbols.items) [] ≡ Some (f ∷ [])) }
    ensures { IfOk result (λ made. run_on (reverse symbols.items) [] ≡ Some (made ∷ [])) }
{
    let mut symbols = symbols;
    let mut parts = Vec::new(alloc);
    while let Some(symbol) = symbols.pop() {
        apply_symbol(alloc, &mut parts, symbol)?;
    }
    let formula = parts.pop().unwrap();
    Ok(formula)
}
