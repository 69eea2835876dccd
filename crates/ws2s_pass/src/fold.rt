//! Constants folded.

ghost use Rattle.std.specs.Prelude.{◌≡◌, Some, IsSome, IfOk, OnOk, reverse};
ghost use Rattle.ws2s_pass.specs.Folding.{stepped};
ghost use Rattle.ws2s_pass.specs.Constants.{is_single, is_contradiction, conjunction_of, opposite_of, quantified_over};
ghost use Rattle.ws2s_pass.specs.Constants.{folded_node, constant_formula, settled, without_constants};
ghost use Rattle.ws2s_pass.specs.Rewriting.{IsRewriting};

use std::alloc::{AllocError, Global};
use ws2s_core::{Formula, Symbol, Track, symbols_of};

/// What a formula folds to: a constant, or a formula without constants.
#[derive(Drop)]
pub enum Folded {
    Constant(bool),
    Open(Formula),
}

/// The formula with its constants folded, from its parts up, however deep it is.
///
/// Constant are `Ex2 t (And (Single t) (Not (Single t)))` and atoms that compare a track with itself, and what is made
/// of constants. A whole formula that is constant becomes one of two nodes, but an atom stays. The time is linear in the
/// number of nodes.
///
/// # Errors
///
/// Want of memory.
pub fn fold_constants(alloc: Global, formula: &Formula) -> Result<Formula, AllocError>
    ensures value { IfOk result (λ made. made ≡ without_constants formula.now) }
    ensures kept { IfOk result (λ made. IsRewriting formula.now made) }
{
    let symbols = symbols_of(alloc, formula)?;
    let mut parts = Vec::new(alloc);
    for symbol in symbols.as_slice() {
        fold_symbol(alloc, &mut parts, *symbol)?;
    }
    let whole = parts.pop().unwrap();
    settle(alloc, formula, whole)
}

/// Puts what a symbol makes of the last parts in their place.
fn fold_symbol(alloc: Global, parts: &mut Vec<Folded>, symbol: Symbol) -> Result<(), AllocError>
    requires { IsSome (stepped folded_node symbol (reverse parts.old.items)) }
    ensures { OnOk result (stepped folded_node symbol (reverse parts.old.items) ≡ Some (reverse parts.new.items)) }
{
    let made = match symbol {
        Symbol::Sub(x, y) if x.0 == y.0 => Folded::Constant(true),
        Symbol::Sub(x, y) => Folded::Open(Formula::Sub(x, y)),
        Symbol::Single(x) => Folded::Open(Formula::Single(x)),
        Symbol::Succ0(x, y) if x.0 == y.0 => Folded::Constant(false),
        Symbol::Succ0(x, y) => Folded::Open(Formula::Succ0(x, y)),
        Symbol::Succ1(x, y) if x.0 == y.0 => Folded::Constant(false),
        Symbol::Succ1(x, y) => Folded::Open(Formula::Succ1(x, y)),
        Symbol::Root(x) => Folded::Open(Formula::Root(x)),
        Symbol::And => {
            let right = parts.pop().unwrap();
            let left = parts.pop().unwrap();
            conjunction(alloc, left, right)?
        }
        Symbol::Not => {
            let inner = parts.pop().unwrap();
            opposite(alloc, inner)?
        }
        Symbol::Ex2(t) => {
            let inner = parts.pop().unwrap();
            quantified(alloc, t, inner)?
        }
    };
    parts.push(made)?;
    Ok(())
}

fn conjunction(alloc: Global, left: Folded, right: Folded) -> Result<Folded, AllocError>
    ensures { IfOk result (λ made. made ≡ conjunction_of left right) }
{
    match (left, right) {
        (Folded::Constant(true), other) => Ok(other),
        (Folded::Constant(false), _) | (Folded::Open(_), Folded::Constant(false)) => {
            Ok(Folded::Constant(false))
        }
        (Folded::Open(formula), Folded::Constant(true)) => Ok(Folded::Open(formula)),
        (Folded::Open(left), Folded::Open(right)) => {
            Ok(Folded::Open(Formula::and(alloc, left, right)?))
        }
    }
}

fn opposite(alloc: Global, inner: Folded) -> Result<Folded, AllocError>
    ensures { IfOk result (λ made. made ≡ opposite_of inner) }
{
    match inner {
        Folded::Constant(truth) => Ok(Folded::Constant(!truth)),
        Folded::Open(formula) => Ok(Folded::Open(Formula::not(alloc, formula)?)),
    }
}

fn quantified(alloc: Global, track: Track, inner: Folded) -> Result<Folded, AllocError>
    ensures { IfOk result (λ made. made ≡ quantified_over track inner) }
{
    match inner {
        Folded::Constant(truth) => Ok(Folded::Constant(truth)),
        Folded::Open(formula) => {
            if is_contradiction(track, &formula) {
                return Ok(Folded::Constant(false));
            }
            Ok(Folded::Open(Formula::ex2(alloc, track, formula)?))
        }
    }
}

/// Whether the formula is `And (Single t) (Not (Single t))`.
fn is_contradiction(track: Track, formula: &Formula) -> bool
    ensures { result ≡ is_contradiction track.0 formula.now }
{
    match formula {
        Formula::And(left, right) => match right.get() {
            Formula::Not(inner) => is_single(track, left.get()) && is_single(track, inner.get()),
            _ => false,
        },
        _ => false,
    }
}

fn is_single(track: Track, formula: &Formula) -> bool
    ensures { result ≡ is_single track.0 formula.now }
{
    match formula {
        Formula::Single(x) => x.0 == track.0,
        _ => false,
    }
}

/// What stands for the whole formula once it is folded.
fn settle(alloc: Global, whole: &Formula, made: Folded) -> Result<Formula, AllocError>
    ensures { IfOk result (λ formula. formula ≡ settled whole.now made) }
{
    match made {
        Folded::Open(formula) => Ok(formula),
        Folded::Constant(truth) => match whole {
            Formula::And(_, _) | Formula::Not(_) | Formula::Ex2(_, _) => constant(alloc, truth),
            Formula::Sub(x, y) => Ok(Formula::Sub(*x, *y)),
            Formula::Single(x) => Ok(Formula::Single(*x)),
            Formula::Succ0(x, y) => Ok(Formula::Succ0(*x, *y)),
            Formula::Succ1(x, y) => Ok(Formula::Succ1(*x, *y)),
            Formula::Root(x) => Ok(Formula::Root(*x)),
        },
    }
}

/// A constant as a formula of two nodes.
fn constant(alloc: Global, truth: bool) -> Result<Formula, AllocError>
    ensures { IfOk result (λ formula. formula ≡ constant_formula truth) }
{
    let track = Track(0);
    let atom = if truth {
        Formula::Sub(track, track)
    } else {
        Formula::Succ0(track, track)
    };
    Formula::ex2(alloc, track, atom)
}
