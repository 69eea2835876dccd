//! What is put in for the variables of a procedure that is called.

ghost use Rattle.std.specs.Prelude.{◌≡◌, ◌++◌, map, IfOk, OnOk};
ghost use Rattle.store_logic.specs.Filling.{filled_term, filled_truth, filled_set, filled_arg, constant};
ghost use Rattle.pale_calls.specs.declared.actual.Actual.TheVariants as actual;
ghost use Rattle.hoare_fill.specs.Putting.{beside, actual_for, put_for, filling};

use pale_calls::Actual;
use plain_data::Items;
use std::alloc::{AllocError, Global};
use store_core::VarId;
use store_logic::{Arg, ArgList, Assertion, Base, FieldList, Term};

/// A variable of the procedure that is called, and what is handed over for it.
#[derive(Clone, Copy, Debug)]
pub struct Put {
    pub var: VarId,
    pub actual: Actual,
}

/// Variables with what is handed over for them, in order.
pub type PutList = Items<Put>;

/// Puts each variable with what is handed over for it at the end of the list.
pub fn pair_actuals(
    puts: &mut PutList,
    vars: &[VarId],
    actuals: &[Actual],
) -> Result<(), AllocError>
    ensures { OnOk result (puts.new ≡ puts.old ++ beside vars.now actuals.now) }
{
    for (var, actual) in vars.iter().zip(actuals) {
        puts.push(Put {
            var: *var,
            actual: *actual,
        })?;
    }
    Ok(())
}

/// The same of variables alone.
pub fn pair_results(puts: &mut PutList, vars: &[VarId], results: &[VarId]) -> Result<(), AllocError>
    ensures { OnOk result (puts.new ≡ puts.old ++ beside vars.now (map (λ v. actual.Var v) results.now)) }
{
    for (var, result) in vars.iter().zip(results) {
        puts.push(Put {
            var: *var,
            actual: Actual::Var(*result),
        })?;
    }
    Ok(())
}

/// What is handed over for the variable; one for which nothing is stands for itself.
fn actual_for(puts: &[Put], var: VarId) -> Actual
    ensures { result ≡ actual_for puts.now var }
{
    for put in puts {
        if put.var.0 == var.0 {
            return put.actual;
        }
    }
    Actual::Var(var)
}

/// The name, or null or the truth value that is put in for it.
#[derive(Clone, Copy, Debug)]
pub enum Filled {
    Name(Base),
    Null,
    Truth(bool),
}

fn fill_name(puts: &[Put], name: Base) -> Filled
    ensures { filling result ≡ put_for puts.now name }
{
    match name {
        Base::Var(var) => match actual_for(puts, var) {
            Actual::Var(var) => Filled::Name(Base::Var(var)),
            Actual::Null => Filled::Null,
            Actual::Truth(truth) => Filled::Truth(truth),
        },
        Base::Bound(_) | Base::Param(_) => Filled::Name(name),
    }
}

/// A path of a cell: null where null is put in for its name.
pub(crate) fn fill_term(alloc: Global, puts: &[Put], term: &Term) -> Result<Term, AllocError>
    ensures { IfOk result (λ filled. filled ≡ filled_term (put_for puts.now) 0 term.now) }
{
    let Term::At(name, fields) = term else {
        return Ok(Term::Null);
    };
    match fill_name(puts, *name) {
        Filled::Name(name) => Ok(Term::At(name, FieldList::from_slice(alloc, fields.as_slice())?)),
        Filled::Null | Filled::Truth(_) => Ok(Term::Null),
    }
}

fn constant(truth: bool) -> Assertion
    ensures { result ≡ constant truth }
{
    if truth {
        Assertion::True
    } else {
        Assertion::False
    }
}

/// That a term is true: false where null is put in for its name, and a truth value itself.
pub(crate) fn fill_truth(alloc: Global, puts: &[Put], term: &Term) -> Result<Assertion, AllocError>
    ensures { IfOk result (λ filled. filled ≡ filled_truth (put_for puts.now) 0 term.now) }
{
    let Term::At(name, fields) = term else {
        return Ok(Assertion::False);
    };
    match fill_name(puts, *name) {
        Filled::Name(name) => {
            let fields = FieldList::from_slice(alloc, fields.as_slice())?;
            Ok(Assertion::Truth(Term::At(name, fields)))
        }
        Filled::Null => Ok(Assertion::False),
        Filled::Truth(truth) => Ok(constant(truth && fields.is_empty())),
    }
}

/// The name of a set.
pub(crate) fn fill_set(puts: &[Put], name: Base) -> Base
    ensures { result ≡ filled_set (put_for puts.now) 0 name }
{
    match fill_name(puts, name) {
        Filled::Name(name) => name,
        Filled::Null | Filled::Truth(_) => name,
    }
}

/// An argument of a predicate.
fn fill_arg(alloc: Global, puts: &[Put], arg: &Arg) -> Result<Arg, AllocError>
    ensures { IfOk result (λ filled. filled ≡ filled_arg (put_for puts.now) 0 arg.now) }
{
    match arg {
        Arg::Cell(term) => Ok(Arg::Cell(fill_term(alloc, puts, term)?)),
        Arg::Set(name) => Ok(Arg::Set(fill_set(puts, *name))),
        Arg::Truth(term) => Ok(Arg::Truth(fill_term(alloc, puts, term)?)),
    }
}

/// The arguments of a predicate.
pub(crate) fn fill_args(alloc: Global, puts: &[Put], args: &[Arg]) -> Result<ArgList, AllocError>
    ensures { IfOk result (λ filled. filled ≡ map (filled_arg (put_for puts.now) 0) args.now) }
{
    let mut filled = ArgList::new(alloc);
    for arg in args {
        filled.push(fill_arg(alloc, puts, arg)?)?;
    }
    Ok(filled)
}
