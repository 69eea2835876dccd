//! Quantifiers of unused tracks left out.

ghost use Rattle.std.specs.Prelude.{◌≡◌, ◌∷◌, Some, IsSome, IfOk, OnOk, map, reverse};
ghost use Rattle.ws2s_pass.specs.Folding.{stepped};
ghost use Rattle.ws2s_pass.specs.Using.{quantified_where_free, used_node, without_unused};
ghost use Rattle.ws2s_pass.specs.Rewriting.{IsRewriting};

use crate::used::{Part, atom, conjunction, negation};
use std::alloc::{AllocError, Global};
use ws2s_core::{Formula, Symbol, Track, symbols_of};

/// The formula with every quantifier left out whose track isn't free under it, from its parts up, however deep it is.
///
/// Each part is kept with the set of its free tracks, and of two such sets the smaller one is put into the larger one: the
/// time is that of n log n insertions into hash sets, where n is the number of nodes.
///
/// # Errors
///
/// Want of memory.
pub fn drop_unused(alloc: Global, formula: &Formula) -> Result<Formula, AllocError>
    ensures value { IfOk result (λ made. made ≡ without_unused formula.now) }
    ensures kept { IfOk result (λ made. IsRewriting formula.now made) }
{
    let symbols = symbols_of(alloc, formula)?;
    let mut parts = Vec::new(alloc);
    for symbol in symbols.as_slice() {
        use_symbol(alloc, &mut parts, *symbol)?;
    }
    let Part { formula, .. } = parts.pop().unwrap();
    Ok(formula)
}

/// Puts what a symbol makes of the last parts in their place.
fn use_symbol(alloc: Global, parts: &mut Vec<Part>, symbol: Symbol) -> Result<(), AllocError>
    requires { IsSome (stepped used_node symbol (map (λ part. part.formula) (reverse parts.old.items))) }
    ensures { OnOk result (stepped used_node symbol (map (λ part. part.formula) (reverse parts.old.items))
        ≡ Some (map (λ part. part.formula) (reverse parts.new.items))) }
{
    let made = made_by(alloc, parts, symbol)?;
    parts.push(made)?;
    Ok(())
}

/// What a symbol makes of the last parts, which are taken.
fn made_by(alloc: Global, parts: &mut Vec<Part>, symbol: Symbol) -> Result<Part, AllocError>
    requires { IsSome (stepped used_node symbol (map (λ part. part.formula) (reverse parts.old.items))) }
    ensures { IfOk result (λ made. stepped used_node symbol (map (λ part. part.formula) (reverse parts.old.items))
        ≡ Some (made.formula ∷ map (λ part. part.formula) (reverse parts.new.items))) }
{
    match symbol {
        Symbol::Sub(x, y) => atom(alloc, Formula::Sub(x, y), x, y),
        Symbol::Single(x) => atom(alloc, Formula::Single(x), x, x),
        Symbol::Succ0(x, y) => atom(alloc, Formula::Succ0(x, y), x, y),
        Symbol::Succ1(x, y) => atom(alloc, Formula::Succ1(x, y), x, y),
        Symbol::Root(x) => atom(alloc, Formula::Root(x), x, x),
        Symbol::And => {
            let right = parts.pop().unwrap();
            let left = parts.pop().unwrap();
            let made = conjunction(alloc, left, right)?;
            Ok(made)
        }
        Symbol::Not => {
            let inner = parts.pop().unwrap();
            let made = negation(alloc, inner)?;
            Ok(made)
        }
        Symbol::Ex2(t) => quantified(alloc, t, parts.pop().unwrap()),
    }
}

fn quantified(alloc: Global, track: Track, inner: Part) -> Result<Part, AllocError>
    ensures { IfOk result (λ made. made.formula ≡ quantified_where_free track inner.formula) }
{
    let Part { formula, mut free } = inner;
    if free.remove(&track.0) {
        let formula = Formula::ex2(alloc, track, formula)?;
        return Ok(Part { formula, free });
    }
    Ok(Part { formula, free })
}
