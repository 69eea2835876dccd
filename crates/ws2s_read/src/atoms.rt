//! Formulas without parts.

ghost use Rattle.std.specs.Prelude.{◌≡◌, ℕ, length, false, IfOk, IfErr};
ghost use Rattle.ws2s_syntax.specs.declared.formula.TextFormula.TheVariants as text_formula;
ghost use Rattle.ws2s_read.specs.Resolving.{IsStop, resolved_empty, resolved_in, resolved_sub, resolved_same, resolved_arguments, resolved_use};
ghost use Rattle.ws2s_read.specs.Resolving.{resolved_differ, resolved_not_in, has_parts, resolved_formula};

use crate::names::{Meaning, Names, refused};
use crate::terms::{
    first_place, resolve_argument, resolve_position, resolve_set, resolve_set_side, resolve_side,
};
use pale_text::{RefusalKind, TextStop};
use plain_data::{Boxed, Items};
use std::alloc::{AllocError, Global};
use ws2s_syntax::{Argument, Atom, Class, SourceFormula, SourceName, SourceTerm, TextFormula};

/// A set that is empty.
#[tactic(auto, unfolding(crate::specs::Resolving::resolved_empty))]
fn resolve_empty(names: &Names, set: &SourceName) -> Result<Atom, TextStop>
    ensures atom { IfOk result (λ found. resolved_empty names.now set.now ≡ Ok found) }
    ensures stop { IfErr result (IsStop (resolved_empty names.now set.now)) }
{
    Ok(Atom::Empty(resolve_set(names, set)?))
}

/// A position in a set.
#[tactic(auto, unfolding(crate::specs::Resolving::resolved_in))]
fn resolve_in(
    alloc: Global,
    names: &Names,
    term: &SourceTerm,
    set: &SourceName,
) -> Result<Atom, TextStop>
    ensures atom { IfOk result (λ found. resolved_in names.now term.now set.now ≡ Ok found) }
    ensures stop { IfErr result (IsStop (resolved_in names.now term.now set.now)) }
{
    let position = resolve_position(alloc, names, term)?;
    Ok(Atom::In(position, resolve_set(names, set)?))
}

/// A set within a set.
#[tactic(auto, unfolding(crate::specs::Resolving::resolved_sub))]
fn resolve_sub(
    alloc: Global,
    names: &Names,
    term: &SourceTerm,
    set: &SourceName,
) -> Result<Atom, TextStop>
    ensures atom { IfOk result (λ found. resolved_sub names.now term.now set.now ≡ Ok found) }
    ensures stop { IfErr result (IsStop (resolved_sub names.now term.now set.now)) }
{
    let inner = resolve_set_side(alloc, names, term)?;
    Ok(Atom::Sub(inner, resolve_set(names, set)?))
}

/// Two positions or two sets: the right side has the class of the left.
#[tactic(auto, unfolding(crate::specs::Resolving::resolved_same))]
fn resolve_same(
    alloc: Global,
    names: &Names,
    left: &SourceTerm,
    right: &SourceTerm,
) -> Result<Atom, TextStop>
    ensures atom { IfOk result (λ found. resolved_same names.now left.now right.now ≡ Ok found) }
    ensures stop { IfErr result (IsStop (resolved_same names.now left.now right.now)) }
{
    let one = resolve_side(alloc, names, left)?;
    let other = resolve_side(alloc, names, right)?;
    match (one, other) {
        (Argument::Position(one), Argument::Position(other)) => Ok(Atom::SamePosition(one, other)),
        (Argument::Set(one), Argument::Set(other)) => Ok(Atom::SameSet(one, other)),
        _ => Err(refused(first_place(right), RefusalKind::Kind)),
    }
}

/// As many arguments as parameters, each of its parameter's class.
fn resolve_arguments(
    alloc: Global,
    names: &Names,
    classes: &[Class],
    terms: &[SourceTerm],
) -> Result<Items<Argument>, TextStop>
    requires { length classes.now ≡ length terms.now }
    ensures arguments { IfOk result (λ found. resolved_arguments names.now classes.now terms.now ≡ Ok found) }
    ensures stop { IfErr result (IsStop (resolved_arguments names.now classes.now terms.now)) }
{
    let mut arguments = Items::new(alloc);
    for (place, term) in terms.iter().enumerate() {
        let argument = resolve_argument(alloc, names, classes[place], term)?;
        arguments.push(argument)?;
    }
    Ok(arguments)
}

/// A predicate of its arguments: their number is looked at first, and then each from the left.
#[tactic(auto, unfolding(crate::specs::Resolving::resolved_use))]
fn resolve_use(
    alloc: Global,
    names: &Names,
    name: &SourceName,
    terms: &[SourceTerm],
) -> Result<Atom, TextStop>
    ensures atom { IfOk result (λ found. resolved_use names.now name.now terms.now ≡ Ok found) }
    ensures stop { IfErr result (IsStop (resolved_use names.now name.now terms.now)) }
{
    match names.find(name)? {
        Meaning::Variable(_, _) => Err(refused(name.place, RefusalKind::Kind)),
        Meaning::Predicate(_, classes) if classes.len() != terms.len() => {
            Err(refused(name.place, RefusalKind::Arity))
        }
        Meaning::Predicate(predicate, classes) => {
            let arguments = resolve_arguments(alloc, names, classes.as_slice(), terms)?;
            Ok(Atom::Use(*predicate, arguments))
        }
    }
}

/// What denies an atom.
fn negated(alloc: Global, atom: Atom) -> Result<TextFormula, AllocError>
    ensures { IfOk result (λ made. made ≡ text_formula.Not (text_formula.Atom atom)) }
{
    Ok(TextFormula::Not(Boxed::new(alloc, TextFormula::Atom(atom))?))
}

/// Two terms that differ.
fn resolve_differ(
    alloc: Global,
    names: &Names,
    left: &SourceTerm,
    right: &SourceTerm,
) -> Result<TextFormula, TextStop>
    ensures formula { IfOk result (λ found. resolved_differ names.now left.now right.now ≡ Ok found) }
    ensures stop { IfErr result (IsStop (resolved_differ names.now left.now right.now)) }
{
    let same = resolve_same(alloc, names, left, right)?;
    Ok(negated(alloc, same)?)
}

/// A position that isn't in a set.
fn resolve_not_in(
    alloc: Global,
    names: &Names,
    term: &SourceTerm,
    set: &SourceName,
) -> Result<TextFormula, TextStop>
    ensures formula { IfOk result (λ found. resolved_not_in names.now term.now set.now ≡ Ok found) }
    ensures stop { IfErr result (IsStop (resolved_not_in names.now term.now set.now)) }
{
    let within = resolve_in(alloc, names, term, set)?;
    Ok(negated(alloc, within)?)
}

/// A formula without parts.
pub fn resolve_alone(
    alloc: Global,
    names: &Names,
    formula: &SourceFormula,
) -> Result<TextFormula, TextStop>
    requires { has_parts formula.now ≡ false }
    ensures formula { (outer : ℕ) → IfOk result (λ found. resolved_formula outer formula.now names.now ≡ Ok found) }
    ensures stop { (outer : ℕ) → IfErr result (IsStop (resolved_formula outer formula.now names.now)) }
{
    match formula {
        SourceFormula::Truth(value) => Ok(TextFormula::Atom(Atom::Truth(*value))),
        SourceFormula::Empty(set) => Ok(TextFormula::Atom(resolve_empty(names, set)?)),
        SourceFormula::Same(left, right) => {
            let atom = resolve_same(alloc, names, left, right)?;
            Ok(TextFormula::Atom(atom))
        }
        SourceFormula::Differ(left, right) => resolve_differ(alloc, names, left, right),
        SourceFormula::In(term, set) => {
            let atom = resolve_in(alloc, names, term, set)?;
            Ok(TextFormula::Atom(atom))
        }
        SourceFormula::NotIn(term, set) => resolve_not_in(alloc, names, term, set),
        SourceFormula::Sub(term, set) => {
            let atom = resolve_sub(alloc, names, term, set)?;
            Ok(TextFormula::Atom(atom))
        }
        SourceFormula::Use(name, terms) => {
            let atom = resolve_use(alloc, names, name, terms.as_slice())?;
            Ok(TextFormula::Atom(atom))
        }
        _ => unreachable!(),
    }
}
