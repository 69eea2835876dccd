//! How large reductions are, counted without building them.

ghost use Rattle.std.specs.Prelude.{◌≡◌, ◌↔◌, ◌+◌, ◌*◌, ◌≤◌, min, not, IsTrue, map, fold, count_by, IfOk};
ghost use Rattle.std.specs.List.{sum_by};
ghost use Rattle.ws2s_syntax.specs.Sentences.{Sentence, joined, sentence_of};
ghost use Rattle.ws2s_reduce.specs.Sizes.{term_size, argument_size, atom_size, joined_size, quantifier_size, sentence_size, formulas_size, sizes_in};
ghost use Rattle.ws2s_reduce.specs.Sizes.{AreSizes, IsSmall};
ghost use Rattle.ws2s_reduce.specs.Reducing.{no_reductions, reductions_from, reductions_of, holds_of, breaks_of};
ghost use Rattle.ws2s_syntax.specs.Checked.{Text};

use std::alloc::{AllocError, Global};
use ws2s_syntax::{
    Argument, Atom, Base, Connective, Free, Predicate, Quantifier, Term, TextFormula, Ws2sText,
};

/// Sizes are told apart up to this one; a greater one counts as it.
const CAP: u64 = 65_537;

/// The size, up to the greatest that is told apart.
fn capped(size: u64) -> u64
    ensures { result ≡ min size 65537 }
{
    size.min(CAP)
}

/// Of "the track is the position of the term".
fn size_of_term(term: &Term) -> u64
    ensures { result ≡ min (term_size term.now) 65537 }
{
    let base = match term.base {
        Base::Root => 1,
        Base::Variable(_) => 3,
    };
    let steps = (term.steps.len() as u64).min(CAP);
    capped(base + 3 * steps)
}

/// Of what an argument puts around a predicate's body.
fn size_of_argument(argument: &Argument) -> u64
    ensures { result ≡ min (argument_size argument.now) 65537 }
{
    match argument {
        Argument::Set(_) => 0,
        Argument::Position(term) => match term.base {
            Base::Variable(_) if term.steps.is_empty() => 0,
            _ => capped(size_of_term(term) + 2),
        },
    }
}

fn size_of_arguments(arguments: &[Argument]) -> u64
    ensures { result ≡ min (sum_by argument_size arguments.now) 65537 }
{
    let mut size = 0;
    for argument in arguments {
        size = capped(size + size_of_argument(argument));
    }
    size
}

fn size_of_use(predicate: u32, arguments: &[Argument], sizes: &[u64]) -> u64
    ensures { result ≡ min (sum_by argument_size arguments.now + sizes_in sizes.now predicate) 65537 }
{
    let body = match sizes.get(predicate as usize) {
        Some(size) => (*size).min(CAP),
        None => 6,
    };
    capped(size_of_arguments(arguments) + body)
}

fn size_of_atom(atom: &Atom, sizes: &[u64]) -> u64
    ensures { result ≡ min (atom_size (sizes_in sizes.now) atom.now) 65537 }
{
    match atom {
        Atom::Truth(true) => 6,
        Atom::Truth(false) => 5,
        Atom::Empty(_) => 5,
        Atom::In(term, _) => capped(size_of_term(term) + 3),
        Atom::SamePosition(left, right) => capped(size_of_term(left) + size_of_term(right) + 2),
        Atom::SameSet(_, _) => 3,
        Atom::Sub(_, _) => 1,
        Atom::Use(predicate, arguments) => { size_of_use(*predicate, arguments.as_slice(), sizes) }
    }
}

/// Of two parts joined.
fn size_of_joined(connective: Connective, left: u64, right: u64) -> u64
    requires left { left ≤ 65537 }
    requires right { right ≤ 65537 }
    ensures { result ≡ min (joined_size connective left right) 65537 }
{
    match connective {
        Connective::And => capped(left + right + 1),
        Connective::Or => capped(left + right + 4),
        Connective::Iff => capped(2 * (left + right) + 7),
    }
}

/// Of a formula with so many quantifiers around it.
fn size_of_quantified(quantifier: Quantifier, names: u32, inner: u64) -> u64
    requires { inner ≤ 65537 }
    ensures { result ≡ min (inner + names * quantifier_size quantifier) 65537 }
{
    let each: u64 = match quantifier {
        Quantifier::Ex1 => 3,
        Quantifier::All1 => 5,
        Quantifier::Ex2 => 1,
        Quantifier::All2 => 3,
    };
    capped(inner + u64::from(names) * each)
}

/// Of a first part of this size and others, joined from the left.
#[cycle(sizing)]
fn size_of_chain(connective: Connective, first: u64, others: &[TextFormula], sizes: &[u64]) -> u64
    requires { first ≤ 65537 }
    ensures { (s : Sentence) → first ≡ min (sentence_size (sizes_in sizes.now) s) 65537 →
        result ≡ min (sentence_size (sizes_in sizes.now)
        (fold (joined connective) s (map sentence_of others.now))) 65537 }
{
    let mut size = first;
    for other in others {
        size = size_of_joined(connective, size, size_of_formula(other, sizes));
    }
    size
}

/// The size of a formula's reduction, up to 65,537, where predicates have these sizes. Takes no memory.
#[cycle(sizing)]
pub fn size_of_formula(formula: &TextFormula, sizes: &[u64]) -> u64
    ensures { result ≡ min (sentence_size (sizes_in sizes.now) (sentence_of formula.now)) 65537 }
{
    match formula {
        TextFormula::Atom(atom) => size_of_atom(atom, sizes),
        TextFormula::Not(inner) => capped(size_of_formula(inner.get(), sizes) + 1),
        TextFormula::Implies(left, right) => {
            let first = size_of_formula(left.get(), sizes);
            capped(first + size_of_formula(right.get(), sizes) + 3)
        }
        TextFormula::Chain(connective, first, others) => {
            let size = size_of_formula(first.get(), sizes);
            size_of_chain(*connective, size, others.as_slice(), sizes)
        }
        TextFormula::Quantified(quantifier, names, inner) => {
            size_of_quantified(*quantifier, *names, size_of_formula(inner.get(), sizes))
        }
    }
}

/// Of the conjunction of formulas. Takes no memory.
pub fn size_of_formulas(formulas: &[TextFormula], sizes: &[u64]) -> u64
    ensures { result ≡ min (formulas_size (sizes_in sizes.now) formulas.now) 65537 }
{
    match formulas.split_first() {
        None => 6,
        Some((first, others)) => {
            let size = size_of_formula(first, sizes);
            size_of_chain(Connective::And, size, others, sizes)
        }
    }
}

/// The sizes of predicates' reductions, up to 65,537, in order of the text.
///
/// # Errors
///
/// Want of memory.
pub fn sizes_of_predicates(alloc: Global, predicates: &[Predicate]) -> Result<Vec<u64>, AllocError>
    ensures { IfOk result (λ sizes. AreSizes sizes.items
        (reductions_from no_reductions 0 (map (λ p. sentence_of p.body) predicates.now))) }
{
    let mut sizes = Vec::new(alloc);
    for predicate in predicates {
        let size = size_of_formula(&predicate.body, sizes.as_slice());
        sizes.push(size)?;
    }
    Ok(sizes)
}

/// How many of the variables are positions.
fn count_of_positions(free: &[Free]) -> usize
    ensures { result ≡ count_by (λ variable. not variable.set) free.now }
{
    free.iter().filter(|variable| !variable.set).count()
}

/// Whether both formulas of a text's reduction have at most 65,536 nodes, where its predicates have these sizes.
fn is_small_with(free: &[Free], stated: &[TextFormula], sizes: &[u64]) -> bool
    ensures { (text : Text) → text.free ≡ free.now → text.formulas ≡ stated.now →
        AreSizes sizes.now (reductions_of text) →
        IsTrue result ↔ (IsSmall (holds_of text) × IsSmall (breaks_of text)) }
{
    let size = size_of_formulas(stated, sizes);
    let found = count_of_positions(free);
    let positions = capped(found as u64);
    2 * positions + size < 65_536
}

/// Whether both formulas of a text's reduction have at most 65,536 nodes, found without building them.
///
/// # Errors
///
/// Want of memory.
pub fn is_small(alloc: Global, text: &Ws2sText) -> Result<bool, AllocError>
    ensures { IfOk result (λ small. IsTrue small ↔ (IsSmall (holds_of text.now) × IsSmall (breaks_of text.now))) }
{
    let sizes = sizes_of_predicates(alloc, text.predicates().as_slice())?;
    let free = text.free().as_slice();
    let stated = text.formulas().as_slice();
    let small = is_small_with(free, stated, sizes.as_slice());
    Ok(small)
}
