//! Terms and names with a predicate's arguments put in.

ghost use Rattle.std.specs.Prelude.{◌≡◌, ◌++◌, IfOk};
ghost use Rattle.store_logic.specs.Filling.{of_term, args_for, shifted_base, shifted_term, path_from, filled_term, name_in, filled_set, filled_truth};

use plain_data::at;
use std::alloc::{AllocError, Global};
use store_core::FieldId;
use store_logic::{Arg, Assertion, Base, FieldList, Term};

/// The name as it stands under so many quantifiers more. Want of memory where no number is left for it.
fn shifted(name: Base, depth: u32) -> Result<Base, AllocError>
    ensures { IfOk result (λ base. base ≡ shifted_base depth name) }
{
    match name {
        Base::Bound(k) => match k.checked_add(depth) {
            Some(moved) => Ok(Base::Bound(moved)),
            None => Err(AllocError),
        },
        Base::Var(v) => Ok(Base::Var(v)),
        Base::Param(k) => Ok(Base::Param(k)),
    }
}

/// The term under so many quantifiers more, with more fields behind it: null where it is null.
fn path(alloc: Global, put: &Term, depth: u32, more: &[FieldId]) -> Result<Term, AllocError>
    ensures { IfOk result (λ term. term ≡ path_from (of_term (shifted_term depth put.now)) more.now) }
{
    match put {
        Term::Null => Ok(Term::Null),
        Term::At(name, fields) => {
            let name = shifted(*name, depth)?;
            Ok(Term::At(name, joined(alloc, fields.as_slice(), more)?))
        }
    }
}

/// The fields of two paths, one after the other.
fn joined(alloc: Global, first: &[FieldId], more: &[FieldId]) -> Result<FieldList, AllocError>
    ensures { IfOk result (λ fields. fields ≡ first.now ++ more.now) }
{
    let mut fields = Vec::from_slice(alloc, first)?;
    fields.extend_from_slice(more)?;
    Ok(FieldList::from_vec(fields))
}

/// The term, which stands under so many quantifiers of a predicate's body, with the predicate's arguments put in.
pub(crate) fn fill_term(
    alloc: Global,
    args: &[Arg],
    depth: u32,
    term: &Term,
) -> Result<Term, AllocError>
    ensures { IfOk result (λ filled. filled ≡ filled_term (args_for args.now) depth term.now) }
{
    let Term::At(Base::Param(k), fields) = term else {
        return term.copy(alloc);
    };
    match at(args, *k as usize) {
        Some(Arg::Cell(put)) | Some(Arg::Truth(put)) => path(alloc, put, depth, fields.as_slice()),
        Some(Arg::Set(put)) => {
            let name = shifted(*put, depth)?;
            Ok(Term::At(name, FieldList::from_slice(alloc, fields.as_slice())?))
        }
        None => Ok(Term::Null),
    }
}

/// The name of a set, which stands under so many quantifiers of a predicate's body, with the predicate's arguments put in.
pub(crate) fn fill_set(args: &[Arg], depth: u32, name: Base) -> Result<Base, AllocError>
    ensures { IfOk result (λ filled. filled ≡ filled_set (args_for args.now) depth name) }
{
    let Base::Param(k) = name else {
        return Ok(name);
    };
    match at(args, k as usize) {
        Some(Arg::Set(put)) => shifted(*put, depth),
        Some(Arg::Cell(put)) | Some(Arg::Truth(put)) => set_of(put, depth, name),
        None => Ok(name),
    }
}

/// The name with which the term begins, under so many quantifiers more; for null the other name.
fn set_of(put: &Term, depth: u32, otherwise: Base) -> Result<Base, AllocError>
    ensures { IfOk result (λ name. name ≡ name_in (of_term (shifted_term depth put.now)) otherwise) }
{
    match put {
        Term::At(name, _) => shifted(*name, depth),
        Term::Null => Ok(otherwise),
    }
}

/// That the term is true, with the predicate's arguments put in. Null is false.
pub(crate) fn fill_truth(
    alloc: Global,
    args: &[Arg],
    depth: u32,
    term: &Term,
) -> Result<Assertion, AllocError>
    ensures { IfOk result (λ filled. filled ≡ filled_truth (args_for args.now) depth term.now) }
{
    match fill_term(alloc, args, depth, term)? {
        Term::Null => Ok(Assertion::False),
        filled => Ok(Assertion::Truth(filled)),
    }
}
