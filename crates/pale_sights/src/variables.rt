//! Variables of a procedure.

ghost use Rattle.std.specs.Prelude.{◌≡◌, ◌∷◌, ◌++◌, [], ◌<◌, None, length, map, IfOk, IfErr, OnOk};
ghost use Rattle.store_core.specs.Tables.{place_of};
ghost use Rattle.pale_tables.specs.Faults.{IsStop};
ghost use Rattle.pale_vocabulary.specs.Parameters.{type_of, type_fault};
ghost use Rattle.pale_sights.specs.Variables.{name_of, kind_of, variable_of, logic_name_of, logic_kind_of, logic_of, name_fault, kind_fault, logic_kind_fault};
ghost use Rattle.pale_sights.specs.Variables.{variable_fault, logic_fault, variables_fault, logics_fault, with_names, with_logic_names};

use pale_syntax::{LogicParameter, Name, Parameter};
use pale_tables::{Names, need};
use pale_text::{ByteList, Refusal, RefusalKind, TextStop};
use plain_data::Items;
use std::alloc::{AllocError, Global};
use std::marker::Model;
use store_core::{TypeId, TypeTable, VarKind};

/// The most variables of a procedure.
const MOST_VARS: usize = 64;

/// A variable: its name and what it holds.
#[derive(Drop)]
pub struct Variable {
    name: ByteList,
    kind: VarKind,
}

impl Model for Variable {
    ghost use Rattle.store_core.specs.Tables.{VarEntry};

    ghost Value = { VarEntry };

    ghost view = { λ v. record { name = v.name; kind = v.kind } };
}

impl Variable {
    /// A variable of this name, in memory of its own.
    fn new(alloc: Global, name: &[u8], kind: VarKind) -> Result<Variable, AllocError>
        ensures { IfOk result (λ v. v ≡ record { name = name.now; kind = kind }) }
    {
        Ok(Variable {
            name: Items::from_slice(alloc, name)?,
            kind,
        })
    }

    /// Takes no memory.
    pub fn name(&self) -> &[u8]
        ensures { result.now ≡ self.now.name }
    {
        self.name.as_slice()
    }

    /// Takes no memory.
    pub fn kind(&self) -> VarKind
        ensures { result ≡ self.now.kind }
    {
        self.kind
    }
}

/// Looks at a name after those before it.
#[tactic(auto, unfolding(crate::specs::Variables::name_fault))]
fn need_new(before: &Names, name: &Name) -> Result<(), TextStop>
    ensures met { OnOk result (name_fault before.now name.now ≡ None) }
    ensures new { OnOk result (place_of name.now.bytes before.now ≡ None) }
    ensures stop { IfErr result (IsStop (name_fault before.now name.now)) }
{
    need(before.len() < MOST_VARS, RefusalKind::ManyVars, name.place)?;
    match before.find(name.bytes.as_slice()) {
        None => Ok(()),
        Some(_) => Err(TextStop::Refused(Refusal::at(name.place, RefusalKind::Duplicate))),
    }
}

/// The type of this name.
#[tactic(auto, unfolding(pale_vocabulary::specs::Parameters::type_fault, pale_vocabulary::specs::Parameters::type_of))]
fn read_type(types: &TypeTable, ty: &Name) -> Result<TypeId, TextStop>
    ensures met { OnOk result (type_fault types.now ty.now ≡ None) }
    ensures ty { IfOk result (λ found. found ≡ type_of types.now ty.now) }
    ensures stop { IfErr result (IsStop (type_fault types.now ty.now)) }
{
    match types.find_type(ty.bytes.as_slice()) {
        Some(found) => Ok(found),
        None => Err(TextStop::Refused(Refusal::at(ty.place, RefusalKind::Unknown))),
    }
}

/// The name of a parameter, result or local.
fn name_of(parameter: &Parameter) -> &Name
    ensures { result.now ≡ name_of parameter.now }
{
    match parameter {
        Parameter::Data(name, _) | Parameter::Pointer(name, _) | Parameter::Bool(name) => name,
    }
}

/// What a parameter, result or local holds.
#[tactic(auto, unfolding(crate::specs::Variables::kind_fault))]
fn read_kind(types: &TypeTable, parameter: &Parameter) -> Result<VarKind, TextStop>
    ensures met { OnOk result (kind_fault types.now parameter.now ≡ None) }
    ensures kind { IfOk result (λ kind. kind ≡ kind_of types.now parameter.now) }
    ensures stop { IfErr result (IsStop (kind_fault types.now parameter.now)) }
{
    match parameter {
        Parameter::Data(_, ty) => Ok(VarKind::Data(read_type(types, ty)?)),
        Parameter::Pointer(_, ty) => Ok(VarKind::Pointer(read_type(types, ty)?)),
        Parameter::Bool(_) => Ok(VarKind::Bool),
    }
}

/// A parameter, result or local after those with these names, and its name among them.
#[tactic(auto, unfolding(crate::specs::Variables::variable_fault))]
fn read_variable(
    alloc: Global,
    types: &TypeTable,
    before: &mut Names,
    parameter: &Parameter,
) -> Result<Variable, TextStop>
    ensures met { OnOk result (variable_fault types.now before.old parameter.now ≡ None) }
    ensures variable { IfOk result (λ found. found ≡ variable_of types.now parameter.now) }
    ensures names { OnOk result (before.new ≡ before.old ++ (name_of parameter.now).bytes ∷ []) }
    ensures stop { IfErr result (IsStop (variable_fault types.now before.old parameter.now)) }
{
    let name = name_of(parameter);
    need_new(before, name)?;
    let kind = read_kind(types, parameter)?;
    before.add(name.bytes.as_slice())?;
    Ok(Variable::new(alloc, name.bytes.as_slice(), kind)?)
}

/// Parameters, results or locals in order, after those with these names.
///
/// # Errors
///
/// `Refused` is the first fault: `many-vars` at the 65th name, `duplicate` at a name that is there, and `unknown` at a type that
/// isn't.
pub fn read_variables(
    alloc: Global,
    types: &TypeTable,
    before: &mut Names,
    parameters: &[Parameter],
) -> Result<Items<Variable>, TextStop>
    ensures met { OnOk result (variables_fault types.now before.old parameters.now ≡ None) }
    ensures variables { IfOk result (λ found. found ≡ map (variable_of types.now) parameters.now) }
    ensures names { OnOk result (before.new ≡ with_names before.old parameters.now) }
    ensures stop { IfErr result (IsStop (variables_fault types.now before.old parameters.now)) }
{
    let mut found = Items::new(alloc);
    for parameter in parameters {
        let variable = read_variable(alloc, types, before, parameter)?;
        found.push(variable)?;
    }
    Ok(found)
}

/// The name of a logic variable.
fn logic_name_of(parameter: &LogicParameter) -> &Name
    ensures { result.now ≡ logic_name_of parameter.now }
{
    match parameter {
        LogicParameter::Set(name, _) | LogicParameter::Bool(name) => name,
    }
}

/// What a logic variable holds.
#[tactic(auto, unfolding(crate::specs::Variables::logic_kind_fault))]
fn read_logic_kind(types: &TypeTable, parameter: &LogicParameter) -> Result<VarKind, TextStop>
    ensures met { OnOk result (logic_kind_fault types.now parameter.now ≡ None) }
    ensures kind { IfOk result (λ kind. kind ≡ logic_kind_of types.now parameter.now) }
    ensures stop { IfErr result (IsStop (logic_kind_fault types.now parameter.now)) }
{
    match parameter {
        LogicParameter::Set(_, ty) => Ok(VarKind::LogicSet(read_type(types, ty)?)),
        LogicParameter::Bool(_) => Ok(VarKind::LogicBool),
    }
}

/// A logic variable after those with these names, and its name among them.
#[tactic(auto, unfolding(crate::specs::Variables::logic_fault))]
fn read_logic(
    alloc: Global,
    types: &TypeTable,
    before: &mut Names,
    parameter: &LogicParameter,
) -> Result<Variable, TextStop>
    ensures met { OnOk result (logic_fault types.now before.old parameter.now ≡ None) }
    ensures variable { IfOk result (λ found. found ≡ logic_of types.now parameter.now) }
    ensures names { OnOk result (before.new ≡ before.old ++ (logic_name_of parameter.now).bytes ∷ []) }
    ensures stop { IfErr result (IsStop (logic_fault types.now before.old parameter.now)) }
{
    let name = logic_name_of(parameter);
    need_new(before, name)?;
    let kind = read_logic_kind(types, parameter)?;
    before.add(name.bytes.as_slice())?;
    Ok(Variable::new(alloc, name.bytes.as_slice(), kind)?)
}

/// Logic variables in order, after those with these names.
///
/// # Errors
///
/// As `read_variables`.
pub fn read_logics(
    alloc: Global,
    types: &TypeTable,
    before: &mut Names,
    parameters: &[LogicParameter],
) -> Result<Items<Variable>, TextStop>
    ensures met { OnOk result (logics_fault types.now before.old parameters.now ≡ None) }
    ensures variables { IfOk result (λ found. found ≡ map (logic_of types.now) parameters.now) }
    ensures names { OnOk result (before.new ≡ with_logic_names before.old parameters.now) }
    ensures stop { IfErr result (IsStop (logics_fault types.now before.old parameters.now)) }
{
    let mut found = Items::new(alloc);
    for parameter in parameters {
        let variable = read_logic(alloc, types, before, parameter)?;
        found.push(variable)?;
    }
    Ok(found)
}
