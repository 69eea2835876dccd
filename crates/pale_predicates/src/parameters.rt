//! Parameters of predicates.

ghost use Rattle.std.specs.Prelude.{◌≡◌, [], ◌++◌, ◌∷◌, None, length, map, IfOk, IfErr, OnOk};
ghost use Rattle.pale_tables.specs.Faults.{IsStop};
ghost use Rattle.pale_vocabulary.specs.Parameters.{name_of, type_of, sort_of, param_entry, scope_of, type_fault, sort_fault, parameter_fault, parameters_fault};

use pale_syntax::{Name, PredicateParameter};
use pale_terms::{Origin, Scope, Sort, Visible};
use pale_text::{Refusal, RefusalKind, TextStop};
use plain_data::Items;
use std::alloc::Global;
use store_core::{TypeId, TypeTable};

/// The name of a parameter.
fn name_of(parameter: &PredicateParameter) -> &Name
    ensures { result.now ≡ name_of parameter.now }
{
    match parameter {
        PredicateParameter::Cell(name, _)
        | PredicateParameter::Set(name, _)
        | PredicateParameter::Bool(name) => name,
    }
}

/// The type of this name.
#[tactic(auto, unfolding(pale_vocabulary::specs::Parameters::type_fault, pale_vocabulary::specs::Parameters::type_of))]
fn read_type(types: &TypeTable, ty: &Name) -> Result<TypeId, TextStop>
    ensures met { OnOk result (type_fault types.now ty.now ≡ None) }
    ensures ty { IfOk result (λ found. found ≡ type_of types.now ty.now) }
    ensures stop { IfErr result (IsStop (type_fault types.now ty.now)) }
{
    match types.find_type(ty.bytes.as_slice()) {
        Some(found) => Ok(found),
        None => Err(TextStop::Refused(Refusal::at(ty.place, RefusalKind::Unknown))),
    }
}

/// What a parameter stands for.
#[tactic(auto, unfolding(pale_vocabulary::specs::Parameters::sort_fault))]
fn read_sort(types: &TypeTable, parameter: &PredicateParameter) -> Result<Sort, TextStop>
    ensures met { OnOk result (sort_fault types.now parameter.now ≡ None) }
    ensures sort { IfOk result (λ sort. sort ≡ sort_of types.now parameter.now) }
    ensures stop { IfErr result (IsStop (sort_fault types.now parameter.now)) }
{
    match parameter {
        PredicateParameter::Cell(_, ty) => Ok(Sort::Cell(read_type(types, ty)?)),
        PredicateParameter::Set(_, ty) => Ok(Sort::Set(read_type(types, ty)?)),
        PredicateParameter::Bool(_) => Ok(Sort::Truth),
    }
}

/// A parameter after those before it.
#[tactic(auto, unfolding(pale_vocabulary::specs::Parameters::parameter_fault))]
fn read_parameter(
    types: &TypeTable,
    scope: &mut Scope,
    parameter: &PredicateParameter,
) -> Result<Sort, TextStop>
    ensures met { OnOk result (parameter_fault types.now scope.old parameter.now ≡ None) }
    ensures sort { IfOk result (λ sort. sort ≡ sort_of types.now parameter.now) }
    ensures scope { OnOk result (scope.new ≡ scope.old ++ param_entry types.now (length scope.old) parameter.now ∷ []) }
    ensures stop { IfErr result (IsStop (parameter_fault types.now scope.old parameter.now)) }
{
    let name = name_of(parameter);
    scope.need_new(name)?;
    let sort = read_sort(types, parameter)?;
    let Ok(number) = u32::try_from(scope.len()) else {
        return Err(TextStop::NoMemory);
    };
    let visible = Visible {
        origin: Origin::Parameter(number),
        sort,
        may: true,
    };
    scope.add(name.bytes.as_slice(), visible)?;
    Ok(sort)
}

/// The parameters of a predicate in order, each visible to those behind it and in the end to the body.
///
/// # Errors
///
/// `Refused` is the first fault: `duplicate` at a name that an earlier parameter has, and `unknown` at a type that isn't there.
pub fn read_parameters(
    alloc: Global,
    types: &TypeTable,
    parameters: &[PredicateParameter],
) -> Result<(Scope, Items<Sort>), TextStop>
    ensures met { OnOk result (parameters_fault types.now [] parameters.now ≡ None) }
    ensures scope { IfOk result (λ read. read.0 ≡ scope_of types.now 0 parameters.now) }
    ensures sorts { IfOk result (λ read. read.1 ≡ map (sort_of types.now) parameters.now) }
    ensures stop { IfErr result (IsStop (parameters_fault types.now [] parameters.now)) }
{
    let mut scope = Scope::new(alloc);
    let mut sorts = Items::new(alloc);
    for parameter in parameters {
        let sort = read_parameter(types, &mut scope, parameter)?;
        sorts.push(sort)?;
    }
    Ok((scope, sorts))
}
