//! Names, terms and atoms as core formulas.

ghost use Rattle.std.specs.Prelude.{◌≡◌, IfOk};
ghost use Rattle.ws2s_core.specs.declared.formula.Formula.TheVariants.{And, Ex2};
ghost use Rattle.ws2s_forms.specs.Forms.{track};
ghost use Rattle.ws2s_reduce.specs.Reducing.{track_of, succ_of, is_base_at, is_at, plain_name, no_reductions, atom_at};
ghost use Rattle.ws2s_syntax.specs.declared.formula.Atom.{Atom};

use std::alloc::{AllocError, Global};
use ws2s_core::{Formula, Track};
use ws2s_forms::{bound, later, target};
use ws2s_syntax::{Base, Name, Successor, Term};

/// The track of a name, where the names of its item have these tracks.
pub fn track_of(tracks: &[u32], name: Name) -> u32
    ensures { result ≡ track_of tracks.now name }
{
    match name {
        Name::Free(variable) => variable,
        Name::Local(place) => match tracks.get(place as usize) {
            Some(track) => *track,
            None => 0,
        },
    }
}

fn succ_of(step: Successor, parent: u32, child: u32) -> Formula
    ensures { result ≡ succ_of step parent child }
{
    match step {
        Successor::Zero => Formula::Succ0(Track(parent), Track(child)),
        Successor::One => Formula::Succ1(Track(parent), Track(child)),
    }
}

fn is_base_at(alloc: Global, tracks: &[u32], base: Base, own: u32) -> Result<Formula, AllocError>
    ensures { IfOk result (λ formula. formula ≡ is_base_at tracks.now base own) }
{
    match base {
        Base::Root => Ok(Formula::Root(Track(own))),
        Base::Variable(name) => {
            let within = Formula::Sub(Track(own), Track(track_of(tracks, name)));
            Formula::and(alloc, Formula::Single(Track(own)), within)
        }
    }
}

/// Some parent is what the formula says, and the step leads from it to the track.
fn stepped(
    alloc: Global,
    formula: Formula,
    step: Successor,
    parent: u32,
    own: u32,
) -> Result<Formula, AllocError>
    ensures { IfOk result (λ made. made ≡ Ex2 (track parent) (And formula (succ_of step parent own))) }
{
    bound(alloc, parent, formula, succ_of(step, parent, own))
}

/// The track is the position of the term; bound tracks begin with `next`.
pub fn is_at(
    alloc: Global,
    next: u32,
    tracks: &[u32],
    term: &Term,
    own: u32,
) -> Result<Formula, AllocError>
    ensures { IfOk result (λ formula. formula ≡ is_at next tracks.now term.now own) }
{
    let steps = term.steps.as_slice();
    let Ok(mut left) = u32::try_from(steps.len()) else {
        return Err(AllocError);
    };
    let innermost = target(next, left, own)?;
    let mut formula = is_base_at(alloc, tracks, term.base, innermost)?;
    for step in steps {
        left -= 1;
        let parent = later(next, left)?;
        let child = target(next, left, own)?;
        formula = stepped(alloc, formula, *step, parent, child)?;
    }
    Ok(formula)
}

/// The name that a term is, where it is no more than a name.
pub fn plain_name(term: &Term) -> Option<Name>
    ensures { result ≡ plain_name term.now.base term.now.steps }
{
    match term.base {
        Base::Variable(name) if term.steps.is_empty() => Some(name),
        _ => None,
    }
}

/// The term is in the set.
pub fn in_at(
    alloc: Global,
    next: u32,
    tracks: &[u32],
    term: &Term,
    whole: Name,
) -> Result<Formula, AllocError>
    ensures { IfOk result (λ formula. formula ≡ atom_at no_reductions next tracks.now (Atom.In term.now whole)) }
{
    let inner = later(next, 1)?;
    let position = is_at(alloc, inner, tracks, term, next)?;
    let within = Formula::Sub(Track(next), Track(track_of(tracks, whole)));
    bound(alloc, next, position, within)
}

/// The two terms are the same position.
pub fn same_at(
    alloc: Global,
    next: u32,
    tracks: &[u32],
    left: &Term,
    right: &Term,
) -> Result<Formula, AllocError>
    ensures { IfOk result (λ formula. formula ≡
        atom_at no_reductions next tracks.now (Atom.SamePosition left.now right.now)) }
{
    let inner = later(next, 1)?;
    let first = is_at(alloc, inner, tracks, left, next)?;
    let second = is_at(alloc, inner, tracks, right, next)?;
    bound(alloc, next, first, second)
}
