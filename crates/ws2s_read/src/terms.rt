//! Terms and names where they are used.

ghost use Rattle.std.specs.Prelude.{◌≡◌, IfOk, IfErr};
ghost use Rattle.ws2s_syntax.specs.declared.name.Argument.TheVariants as argument;
ghost use Rattle.ws2s_read.specs.Resolving.{IsStop, first_place, resolved_variable, resolved_named, resolved_set, resolved_side, resolved_position};
ghost use Rattle.ws2s_read.specs.Resolving.{resolved_set_side, resolved_argument};

use crate::names::{Meaning, Names, refused};
use pale_text::{Pos, RefusalKind, TextStop};
use plain_data::Items;
use std::alloc::{AllocError, Global};
use ws2s_syntax::{
    Argument, Base, Class, Name, SourceBase, SourceName, SourceTerm, SuccessorList, Term,
};

/// The place of a term's first token.
pub fn first_place(term: &SourceTerm) -> Pos
    ensures { result ≡ first_place term.now }
{
    match &term.base {
        SourceBase::Root(place) => *place,
        SourceBase::Name(name) => name.place,
    }
}

/// The variable of this name.
#[tactic(auto, unfolding(crate::specs::Resolving::resolved_variable))]
fn resolve_variable(names: &Names, name: &SourceName) -> Result<(Name, Class), TextStop>
    ensures variable { IfOk result (λ found. resolved_variable names.now name.now ≡ Ok found) }
    ensures stop { IfErr result (IsStop (resolved_variable names.now name.now)) }
{
    match names.find(name)? {
        Meaning::Variable(variable, class) => Ok((*variable, *class)),
        Meaning::Predicate(_, _) => Err(refused(name.place, RefusalKind::Kind)),
    }
}

/// The set of this name.
#[tactic(auto, unfolding(crate::specs::Resolving::resolved_set))]
pub fn resolve_set(names: &Names, name: &SourceName) -> Result<Name, TextStop>
    ensures set { IfOk result (λ found. resolved_set names.now name.now ≡ Ok found) }
    ensures stop { IfErr result (IsStop (resolved_set names.now name.now)) }
{
    let (variable, class) = resolve_variable(names, name)?;
    match class {
        Class::Set => Ok(variable),
        Class::Position => Err(refused(name.place, RefusalKind::Kind)),
    }
}

/// The term from this base on.
fn make_term(alloc: Global, base: Base, steps: &SuccessorList) -> Result<Argument, AllocError>
    ensures { IfOk result (λ made. made ≡ argument.Position (record { base = base; steps = steps.now })) }
{
    let steps = Items::from_slice(alloc, steps.as_slice())?;
    Ok(Argument::Position(Term { base, steps }))
}

/// A term that begins with this name: a position, or a set, which has no successor.
#[tactic(auto, unfolding(crate::specs::Resolving::resolved_named))]
fn resolve_named(
    alloc: Global,
    names: &Names,
    name: &SourceName,
    steps: &SuccessorList,
) -> Result<Argument, TextStop>
    ensures side { IfOk result (λ found. resolved_named names.now name.now steps.now ≡ Ok found) }
    ensures stop { IfErr result (IsStop (resolved_named names.now name.now steps.now)) }
{
    let (variable, class) = resolve_variable(names, name)?;
    match class {
        Class::Position => Ok(make_term(alloc, Base::Variable(variable), steps)?),
        Class::Set if steps.is_empty() => Ok(Argument::Set(variable)),
        Class::Set => Err(refused(name.place, RefusalKind::Kind)),
    }
}

/// A term as a side or an argument: a position, or a set.
#[tactic(auto, unfolding(crate::specs::Resolving::resolved_side))]
pub fn resolve_side(alloc: Global, names: &Names, term: &SourceTerm) -> Result<Argument, TextStop>
    ensures side { IfOk result (λ found. resolved_side names.now term.now ≡ Ok found) }
    ensures stop { IfErr result (IsStop (resolved_side names.now term.now)) }
{
    match &term.base {
        SourceBase::Root(_) => Ok(make_term(alloc, Base::Root, &term.steps)?),
        SourceBase::Name(name) => resolve_named(alloc, names, name, &term.steps),
    }
}

/// A term that is a position.
#[tactic(auto, unfolding(crate::specs::Resolving::resolved_position))]
pub fn resolve_position(alloc: Global, names: &Names, term: &SourceTerm) -> Result<Term, TextStop>
    ensures position { IfOk result (λ found. resolved_position names.now term.now ≡ Ok found) }
    ensures stop { IfErr result (IsStop (resolved_position names.now term.now)) }
{
    match resolve_side(alloc, names, term)? {
        Argument::Position(position) => Ok(position),
        Argument::Set(_) => Err(refused(first_place(term), RefusalKind::Kind)),
    }
}

/// A term that is a set.
#[tactic(auto, unfolding(crate::specs::Resolving::resolved_set_side))]
pub fn resolve_set_side(alloc: Global, names: &Names, term: &SourceTerm) -> Result<Name, TextStop>
    ensures set { IfOk result (λ found. resolved_set_side names.now term.now ≡ Ok found) }
    ensures stop { IfErr result (IsStop (resolved_set_side names.now term.now)) }
{
    match resolve_side(alloc, names, term)? {
        Argument::Set(set) => Ok(set),
        Argument::Position(_) => Err(refused(first_place(term), RefusalKind::Kind)),
    }
}

/// An argument for a parameter of this class.
#[tactic(auto, unfolding(crate::specs::Resolving::resolved_argument))]
pub fn resolve_argument(
    alloc: Global,
    names: &Names,
    class: Class,
    term: &SourceTerm,
) -> Result<Argument, TextStop>
    ensures argument { IfOk result (λ found. resolved_argument names.now class term.now ≡ Ok found) }
    ensures stop { IfErr result (IsStop (resolved_argument names.now class term.now)) }
{
    match (class, resolve_side(alloc, names, term)?) {
        (Class::Position, Argument::Position(position)) => Ok(Argument::Position(position)),
        (Class::Set, Argument::Set(set)) => Ok(Argument::Set(set)),
        _ => Err(refused(first_place(term), RefusalKind::Kind)),
    }
}
