//! What a procedure declares before its body.

ghost use Rattle.std.specs.Prelude.{◌≡◌, [], None, IfOk, IfErr, OnOk};
ghost use Rattle.pale_tables.specs.Faults.{IsStop};
ghost use Rattle.pale_sights.specs.Headings.{heading_of, heading_names, heading_fault, lists_of};

use crate::sights::{Heading, numbers};
use crate::variables::{Variable, read_logics, read_variables};
use pale_syntax::Procedure;
use pale_tables::Names;
use pale_text::TextStop;
use std::alloc::{AllocError, Global};
use store_core::TypeTable;
use store_logic::VarList;

/// The numbers of a procedure's variables.
#[derive(Drop)]
pub struct Lists {
    pub params: VarList,
    pub results: VarList,
    pub locals: VarList,
    pub logics: VarList,
}

/// What a procedure declares before its body, and the names of all that.
#[tactic(auto, unfolding(crate::specs::Headings::heading_fault, crate::specs::Headings::heading_of))]
pub fn read_heading(
    alloc: Global,
    types: &TypeTable,
    before: &mut Names,
    procedure: &Procedure,
) -> Result<Heading, TextStop>
    requires { before.old ≡ [] }
    ensures met { OnOk result (heading_fault types.now procedure.now ≡ None) }
    ensures heading { IfOk result (λ heading. heading ≡ heading_of types.now procedure.now) }
    ensures names { OnOk result (before.new ≡ heading_names procedure.now) }
    ensures stop { IfErr result (IsStop (heading_fault types.now procedure.now)) }
{
    let params = read_variables(alloc, types, before, procedure.parameters.as_slice())?;
    let results = read_variables(alloc, types, before, procedure.results.as_slice())?;
    let logics = read_logics(alloc, types, before, procedure.logics.as_slice())?;
    Ok(Heading {
        params,
        results,
        logics,
        locals: procedure.locals.len(),
    })
}

/// The numbers of the variables, where the body has these locals.
pub fn lists_of(alloc: Global, heading: &Heading, locals: &[Variable]) -> Result<Lists, AllocError>
    ensures { IfOk result (λ lists. lists ≡ lists_of heading.now locals.now) }
{
    let (Some(first_local), Some(first_logic)) = (heading.first_local(), heading.first_logic())
    else {
        return Err(AllocError);
    };
    let params = numbers(alloc, 0, heading.params.as_slice())?;
    let results = numbers(alloc, heading.params.len(), heading.results.as_slice())?;
    let locals = numbers(alloc, first_local, locals)?;
    let logics = numbers(alloc, first_logic, heading.logics.as_slice())?;
    Ok(Lists {
        params,
        results,
        locals,
        logics,
    })
}
