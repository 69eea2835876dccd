//! Conjunctions and disjunctions of lists.

ghost use Rattle.std.specs.Prelude.{◌≡◌, fold, map, IfOk};
ghost use Rattle.ws2s_core.specs.declared.formula.Formula.TheVariants.{And, Not};
ghost use Rattle.ws2s_forms.specs.Forms as forms;

use crate::connectives::true_at;
use std::alloc::{AllocError, Global};
use ws2s_core::Formula;

/// A formula and others, joined from the left.
fn and_all(alloc: Global, first: Formula, others: Vec<Formula>) -> Result<Formula, AllocError>
    ensures { IfOk result (λ formula. formula ≡ fold And first others.items) }
{
    let mut whole = first;
    for formula in others {
        whole = Formula::and(alloc, whole, formula)?;
    }
    Ok(whole)
}

/// All of the formulas, joined from the left; True of none.
///
/// # Errors
///
/// Want of memory.
pub fn and_list(alloc: Global, next: u32, formulas: Vec<Formula>) -> Result<Formula, AllocError>
    ensures { IfOk result (λ formula. formula ≡ forms.and_list next formulas.items) }
{
    let mut formulas = formulas;
    if formulas.is_empty() {
        return true_at(alloc, next);
    }
    let first = formulas.remove(0);
    and_all(alloc, first, formulas)
}

/// The negation of each formula.
fn negated(alloc: Global, formulas: Vec<Formula>) -> Result<Vec<Formula>, AllocError>
    ensures { IfOk result (λ negations. negations.items ≡ map Not formulas.items) }
{
    let mut negations = Vec::new(alloc);
    for formula in formulas {
        negations.push(Formula::not(alloc, formula)?)?;
    }
    Ok(negations)
}

/// Some of the formulas; False of none.
///
/// # Errors
///
/// Want of memory.
pub fn or_list(alloc: Global, next: u32, formulas: Vec<Formula>) -> Result<Formula, AllocError>
    ensures { IfOk result (λ formula. formula ≡ forms.or_list next formulas.items) }
{
    let negations = negated(alloc, formulas)?;
    let none = and_list(alloc, next, negations)?;
    Formula::not(alloc, none)
}
