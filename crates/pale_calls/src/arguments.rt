//! Arguments and logic arguments of calls.

ghost use Rattle.std.specs.Prelude.{◌≡◌, [], None, length, map, IfOk, IfErr, OnOk};
ghost use Rattle.pale_tables.specs.Faults.{IsStop};
ghost use Rattle.pale_calls.specs.Calls.{may_be_handed, named_argument_fault, argument_fault, with_argument, arguments_fault, actual_of, variable_of};

use crate::actual::{Actual, ActualList};
use crate::class::VarClass;
use crate::signature::Formal;
use crate::variables::{is_new, read_beside};
use pale_syntax::{Argument, Name};
use pale_tables::{Names, need};
use pale_text::{RefusalKind, TextStop};
use plain_data::Items;
use std::alloc::{AllocError, Global};
use store_core::{VarId, VarTable};

/// Whether a variable may be handed over: a data or pointer variable where it is new.
#[tactic(auto, unfolding(crate::specs::Calls::may_be_handed))]
fn may_be_handed(class: VarClass, is_new: bool) -> bool
    ensures { result ≡ may_be_handed class is_new }
{
    if class.holds_cell() { is_new } else { true }
}

/// A variable as an argument, after those with these names.
#[tactic(auto, unfolding(crate::specs::Calls::named_argument_fault), using(pale_tables::proofs::FaultLemmas::stops))]
fn read_named(
    vars: &VarTable,
    before: &Names,
    formal: Formal,
    name: &Name,
) -> Result<VarId, TextStop>
    ensures met { OnOk result (named_argument_fault vars.now before.now formal name.now ≡ None) }
    ensures id { IfOk result (λ id. id ≡ variable_of vars.now name.now) }
    ensures stop { IfErr result (IsStop (named_argument_fault vars.now before.now formal name.now)) }
{
    let id = read_beside(vars, formal, name)?;
    let may = may_be_handed(formal.class, is_new(before, name));
    need(may, RefusalKind::Duplicate, name.place)?;
    Ok(id)
}

/// An argument after those with these names.
fn read_argument(
    vars: &VarTable,
    before: &Names,
    formal: Formal,
    argument: &Argument,
) -> Result<Actual, TextStop>
    ensures met { OnOk result (argument_fault vars.now before.now formal argument.now ≡ None) }
    ensures actual { IfOk result (λ actual. actual ≡ actual_of vars.now argument.now) }
    ensures stop { IfErr result (IsStop (argument_fault vars.now before.now formal argument.now)) }
{
    match argument {
        Argument::Name(name) => Ok(Actual::Var(read_named(vars, before, formal, name)?)),
        Argument::Null(place) => {
            need(formal.class.holds_cell(), RefusalKind::Kind, *place)?;
            Ok(Actual::Null)
        }
        Argument::Truth(place, truth) => {
            need(formal.class.holds_truth(), RefusalKind::Kind, *place)?;
            Ok(Actual::Truth(*truth))
        }
    }
}

/// Notes the name of an argument.
fn note(before: &mut Names, argument: &Argument) -> Result<(), AllocError>
    ensures { OnOk result (before.new ≡ with_argument before.old argument.now) }
{
    match argument {
        Argument::Name(name) => before.add(name.bytes.as_slice()),
        Argument::Null(_) | Argument::Truth(_, _) => Ok(()),
    }
}

/// One argument for each that is declared.
pub(crate) fn read_arguments(
    alloc: Global,
    vars: &VarTable,
    formals: &[Formal],
    arguments: &[Argument],
) -> Result<ActualList, TextStop>
    requires { length arguments.now ≡ length formals.now }
    ensures met { OnOk result (arguments_fault vars.now [] formals.now arguments.now ≡ None) }
    ensures actuals { IfOk result (λ actuals. actuals ≡ map (actual_of vars.now) arguments.now) }
    ensures stop { IfErr result (IsStop (arguments_fault vars.now [] formals.now arguments.now)) }
{
    let mut before = Names::new(alloc);
    let mut actuals = Items::new(alloc);
    for (place, argument) in arguments.iter().enumerate() {
        let actual = read_argument(vars, &before, formals[place], argument)?;
        note(&mut before, argument)?;
        actuals.push(actual)?;
    }
    Ok(actuals)
}
