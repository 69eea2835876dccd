//! What procedures declare for their callers.

ghost use Rattle.std.specs.Prelude.{◌≡◌, [], None, map, IfOk};
ghost use Rattle.pale_tables.specs.Names.{repeated_fault};
ghost use Rattle.pale_sights.specs.Formals.{formal_of, logic_formal_of, signature_of, named_of};

use pale_calls::{Formal, Procedures, Signature, VarClass};
use pale_syntax::{LogicParameter, Parameter, Procedure};
use plain_data::Items;
use std::alloc::{AllocError, Global};
use store_core::TypeTable;

/// What a parameter or a result is declared as.
fn formal_of(types: &TypeTable, parameter: &Parameter) -> Formal
    ensures { result ≡ formal_of types.now parameter.now }
{
    match parameter {
        Parameter::Data(_, ty) => Formal {
            class: VarClass::Data,
            ty: types.find_type(ty.bytes.as_slice()),
        },
        Parameter::Pointer(_, ty) => Formal {
            class: VarClass::Pointer,
            ty: types.find_type(ty.bytes.as_slice()),
        },
        Parameter::Bool(_) => Formal {
            class: VarClass::Bool,
            ty: None,
        },
    }
}

/// What a logic variable is declared as.
fn logic_formal_of(types: &TypeTable, parameter: &LogicParameter) -> Formal
    ensures { result ≡ logic_formal_of types.now parameter.now }
{
    match parameter {
        LogicParameter::Set(_, ty) => Formal {
            class: VarClass::LogicSet,
            ty: types.find_type(ty.bytes.as_slice()),
        },
        LogicParameter::Bool(_) => Formal {
            class: VarClass::LogicBool,
            ty: None,
        },
    }
}

fn formals_of(
    alloc: Global,
    types: &TypeTable,
    parameters: &[Parameter],
) -> Result<Items<Formal>, AllocError>
    ensures { IfOk result (λ formals. formals ≡ map (formal_of types.now) parameters.now) }
{
    let mut formals = Items::new(alloc);
    for parameter in parameters {
        formals.push(formal_of(types, parameter))?;
    }
    Ok(formals)
}

fn logic_formals_of(
    alloc: Global,
    types: &TypeTable,
    parameters: &[LogicParameter],
) -> Result<Items<Formal>, AllocError>
    ensures { IfOk result (λ formals. formals ≡ map (logic_formal_of types.now) parameters.now) }
{
    let mut formals = Items::new(alloc);
    for parameter in parameters {
        formals.push(logic_formal_of(types, parameter))?;
    }
    Ok(formals)
}

fn signature_of(
    alloc: Global,
    types: &TypeTable,
    procedure: &Procedure,
) -> Result<Signature, AllocError>
    ensures { IfOk result (λ signature. signature ≡ signature_of types.now procedure.now) }
{
    let params = formals_of(alloc, types, procedure.parameters.as_slice())?;
    let results = formals_of(alloc, types, procedure.results.as_slice())?;
    let logics = logic_formals_of(alloc, types, procedure.logics.as_slice())?;
    Ok(Signature {
        params,
        results,
        logics,
    })
}

/// The procedures as calls see them, in order of the text. Their names have no fault.
pub fn signatures_of(
    alloc: Global,
    types: &TypeTable,
    procedures: &[&Procedure],
) -> Result<Procedures, AllocError>
    requires { repeated_fault [] (map (λ p. p.now.name) procedures.now) ≡ None }
    ensures { IfOk result (λ found. found ≡ map (named_of types.now) (map (λ p. p.now) procedures.now)) }
{
    let mut found = Procedures::new(alloc);
    for procedure in procedures {
        let signature = signature_of(alloc, types, procedure)?;
        found.add(procedure.name.bytes.as_slice(), signature)?;
    }
    Ok(found)
}
