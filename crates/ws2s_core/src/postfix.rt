//! Formulas as lists in postfix order, so that loops go over them however deep they are.

ghost use Rattle.std.specs.Prelude.{◌≡◌, ◌++◌, map, IfOk, OnOk};
ghost use Rattle.ws2s_core.specs.Postfix.{symbol_of, parts_of, postfix_of};
ghost use Rattle.ws2s_core.specs.declared.formula.Formula.{out-Formula};

use crate::formula::Formula;
use crate::track::Track;
use std::alloc::{AllocError, Global};

/// A form of a formula, without its parts.
#[derive(Clone, Copy, Debug)]
pub enum Symbol {
    Sub(Track, Track),
    Single(Track),
    Succ0(Track, Track),
    Succ1(Track, Track),
    Root(Track),
    And,
    Not,
    Ex2(Track),
}

/// The symbols of a formula, each after those of its parts.
///
/// # Errors
///
/// Want of memory.
pub fn symbols_of(alloc: Global, formula: &Formula) -> Result<Vec<Symbol>, AllocError>
    ensures { IfOk result (λ symbols. symbols.items ≡ postfix_of formula.now) }
{
    let mut pending = Vec::new(alloc);
    pending.push(formula)?;
    let mut symbols = Vec::new(alloc);
    while let Some(next) = pending.pop() {
        symbols.push(top_symbol(next))?;
        push_parts(&mut pending, next)?;
    }
    symbols.reverse();
    Ok(symbols)
}

fn top_symbol(formula: &Formula) -> Symbol
    ensures { result ≡ symbol_of (out-Formula formula.now) }
{
    match formula {
        Formula::Sub(x, y) => Symbol::Sub(*x, *y),
        Formula::Single(x) => Symbol::Single(*x),
        Formula::Succ0(x, y) => Symbol::Succ0(*x, *y),
        Formula::Succ1(x, y) => Symbol::Succ1(*x, *y),
        Formula::Root(x) => Symbol::Root(*x),
        Formula::And(_, _) => Symbol::And,
        Formula::Not(_) => Symbol::Not,
        Formula::Ex2(t, _) => Symbol::Ex2(*t),
    }
}

/// Puts the parts of a formula at the end of those that are still to be gone through.
fn push_parts<'a>(pending: &mut Vec<&'a Formula>, formula: &'a Formula) -> Result<(), AllocError>
    ensures { OnOk result (map (λ part. part.now) pending.new.items
        ≡ map (λ part. part.now) pending.old.items ++ parts_of (out-Formula formula.now)) }
{
    match formula {
        Formula::And(left, right) => {
            pending.push(left.get())?;
            pending.push(right.get())?;
        }
        Formula::Not(inner) => pending.push(inner.get())?,
        Formula::Ex2(_, inner) => pending.push(inner.get())?,
        _ => {}
    }
    Ok(())
}
