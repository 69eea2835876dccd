//! Formulas of any form.

ghost use Rattle.std.specs.Prelude.{◌≡◌, map, length, IfOk, IfErr, OnOk};
ghost use Rattle.ws2s_syntax.specs.Checked.{class_bound};
ghost use Rattle.ws2s_read.specs.Resolving.{IsStop, bound, all_bound, parameters_bound, each_resolved, resolved_right, resolved_others};
ghost use Rattle.ws2s_read.specs.Resolving.{resolved_quantified, resolved_formula};

use crate::atoms::resolve_alone;
use crate::names::{Meaning, Names, number};
use pale_text::TextStop;
use plain_data::{Boxed, Items};
use std::alloc::Global;
use ws2s_syntax::{
    Class, Connective, Name, Quantifier, SourceFormula, SourceName, SourceParameter, TextFormula,
};

/// What a quantifier's names stand for.
fn class_bound(quantifier: Quantifier) -> Class
    ensures { result ≡ class_bound quantifier }
{
    match quantifier {
        Quantifier::Ex1 | Quantifier::All1 => Class::Position,
        Quantifier::Ex2 | Quantifier::All2 => Class::Set,
    }
}

/// Makes a name of the item itself visible. So many names are visible outside of the item.
#[tactic(auto, unfolding(crate::specs::Resolving::bound))]
fn bind(names: &mut Names, outer: usize, class: Class, name: &SourceName) -> Result<(), TextStop>
    ensures names { OnOk result (bound outer class name.now names.old ≡ Ok names.new) }
    ensures stop { IfErr result (IsStop (bound outer class name.now names.old)) }
{
    let place = number(names.len().saturating_sub(outer))?;
    names.declare(name, Meaning::Variable(Name::Local(place), class))
}

/// Makes a quantifier's names visible, in order.
fn bind_names(
    names: &mut Names,
    outer: usize,
    class: Class,
    bound: &[SourceName],
) -> Result<(), TextStop>
    ensures names { OnOk result (all_bound outer class bound.now names.old ≡ Ok names.new) }
    ensures stop { IfErr result (IsStop (all_bound outer class bound.now names.old)) }
{
    for name in bound {
        bind(names, outer, class, name)?;
    }
    Ok(())
}

/// Makes a predicate's parameters visible, in order.
pub fn bind_parameters(
    names: &mut Names,
    outer: usize,
    parameters: &[SourceParameter],
) -> Result<(), TextStop>
    ensures names { OnOk result (parameters_bound outer parameters.now names.old ≡ Ok names.new) }
    ensures stop { IfErr result (IsStop (parameters_bound outer parameters.now names.old)) }
{
    for parameter in parameters {
        bind(names, outer, parameter.class, &parameter.name)?;
    }
    Ok(())
}

/// Formulas, one after the other.
#[cycle(resolving)]
fn resolve_each(
    alloc: Global,
    names: &mut Names,
    outer: usize,
    formulas: &[SourceFormula],
) -> Result<Items<TextFormula>, TextStop>
    ensures formulas { IfOk result (λ found. each_resolved names.old (map (resolved_formula outer) formulas.now) ≡ Ok found) }
    ensures stop { IfErr result (IsStop (each_resolved names.old (map (resolved_formula outer) formulas.now))) }
    ensures names_stay { OnOk result (names.new ≡ names.old) }
{
    let mut resolved = Items::new(alloc);
    for formula in formulas {
        let next = resolve_formula(alloc, names, outer, formula)?;
        resolved.push(next)?;
    }
    Ok(resolved)
}

/// The right side of an implication, whose left side was resolved before.
#[cycle(resolving)]
fn resolve_right(
    alloc: Global,
    names: &mut Names,
    outer: usize,
    right: &SourceFormula,
    left: TextFormula,
) -> Result<TextFormula, TextStop>
    ensures formula { IfOk result (λ found. resolved_right left (resolved_formula outer right.now) names.old ≡ Ok found) }
    ensures stop { IfErr result (IsStop (resolved_right left (resolved_formula outer right.now) names.old)) }
    ensures names_stay { OnOk result (names.new ≡ names.old) }
{
    let left = Boxed::new(alloc, left)?;
    let right = resolve_formula(alloc, names, outer, right)?;
    Ok(TextFormula::Implies(left, Boxed::new(alloc, right)?))
}

/// The others of a chain, whose first was resolved before.
#[cycle(resolving)]
fn resolve_others(
    alloc: Global,
    names: &mut Names,
    outer: usize,
    others: &[SourceFormula],
    connective: Connective,
    first: TextFormula,
) -> Result<TextFormula, TextStop>
    ensures formula { IfOk result (λ found. resolved_others connective first (map (resolved_formula outer) others.now) names.old ≡ Ok found) }
    ensures stop { IfErr result (IsStop (resolved_others connective first (map (resolved_formula outer) others.now) names.old)) }
    ensures names_stay { OnOk result (names.new ≡ names.old) }
{
    let first = Boxed::new(alloc, first)?;
    let others = resolve_each(alloc, names, outer, others)?;
    Ok(TextFormula::Chain(connective, first, others))
}

/// The bound names first, in order, and then what the quantifier governs, where they are visible.
#[cycle(resolving)]
fn resolve_quantified(
    alloc: Global,
    names: &mut Names,
    outer: usize,
    quantifier: Quantifier,
    bound: &[SourceName],
    inner: &SourceFormula,
) -> Result<TextFormula, TextStop>
    ensures formula { IfOk result (λ found. resolved_quantified outer quantifier bound.now (resolved_formula outer inner.now) names.old ≡ Ok found) }
    ensures stop { IfErr result (IsStop (resolved_quantified outer quantifier bound.now (resolved_formula outer inner.now) names.old)) }
    ensures names_stay { OnOk result (names.new ≡ names.old) }
{
    let before = names.len();
    bind_names(names, outer, class_bound(quantifier), bound)?;
    let formula = resolve_formula(alloc, names, outer, inner)?;
    names.close(before);
    let count = number(bound.len())?;
    Ok(TextFormula::Quantified(quantifier, count, Boxed::new(alloc, formula)?))
}

/// A formula of an item, outside of which so many names are visible.
#[cycle(resolving)]
pub fn resolve_formula(
    alloc: Global,
    names: &mut Names,
    outer: usize,
    formula: &SourceFormula,
) -> Result<TextFormula, TextStop>
    ensures formula { IfOk result (λ found. resolved_formula outer formula.now names.old ≡ Ok found) }
    ensures stop { IfErr result (IsStop (resolved_formula outer formula.now names.old)) }
    ensures names_stay { OnOk result (names.new ≡ names.old) }
{
    match formula {
        SourceFormula::Not(inner) => {
            let formula = resolve_formula(alloc, names, outer, inner.get())?;
            Ok(TextFormula::Not(Boxed::new(alloc, formula)?))
        }
        SourceFormula::Implies(left, right) => {
            let left = resolve_formula(alloc, names, outer, left.get())?;
            resolve_right(alloc, names, outer, right.get(), left)
        }
        SourceFormula::Chain(connective, first, others) => {
            let first = resolve_formula(alloc, names, outer, first.get())?;
            let others = others.as_slice();
            resolve_others(alloc, names, outer, others, *connective, first)
        }
        SourceFormula::Quantified(quantifier, bound, inner) => {
            let names_bound = bound.as_slice();
            resolve_quantified(alloc, names, outer, *quantifier, names_bound, inner.get())
        }
        _ => resolve_alone(alloc, names, formula),
    }
}
