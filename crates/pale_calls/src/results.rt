//! Results of calls.

ghost use Rattle.std.specs.Prelude.{◌≡◌, [], None, map, IfOk, IfErr, OnOk};
ghost use Rattle.std.specs.Option.{option_copied};
ghost use Rattle.pale_tables.specs.Faults.{IsStop};
ghost use Rattle.pale_calls.specs.Calls.{variable_of, stray_fault, result_fault, results_fault};

use crate::class::VarClass;
use crate::signature::Signature;
use crate::variables::{is_new, read_beside, read_variable};
use pale_syntax::Name;
use pale_tables::{Names, need};
use pale_text::{RefusalKind, TextStop};
use plain_data::Items;
use std::alloc::Global;
use store_core::{VarId, VarTable};
use store_logic::VarList;

/// A result of a call to an unknown procedure.
#[tactic(auto, unfolding(crate::specs::Calls::stray_fault))]
fn read_stray(vars: &VarTable, name: &Name) -> Result<VarId, TextStop>
    ensures met { OnOk result (stray_fault vars.now name.now ≡ None) }
    ensures id { IfOk result (λ id. id ≡ variable_of vars.now name.now) }
    ensures stop { IfErr result (IsStop (stray_fault vars.now name.now)) }
{
    let found = read_variable(vars, name)?;
    let is_logic = VarClass::of(found.kind).is_logic();
    need(!is_logic, RefusalKind::Kind, name.place)?;
    Ok(found.id)
}

/// The result in this place.
fn read_result(
    vars: &VarTable,
    callee: Option<&Signature>,
    place: usize,
    name: &Name,
) -> Result<VarId, TextStop>
    ensures met { OnOk result (result_fault vars.now (option_copied callee.entry) place name.now ≡ None) }
    ensures id { IfOk result (λ id. id ≡ variable_of vars.now name.now) }
    ensures stop { IfErr result (IsStop (result_fault vars.now (option_copied callee.entry) place name.now)) }
{
    let Some(callee) = callee else {
        return read_stray(vars, name);
    };
    match callee.results.as_slice().get(place) {
        Some(formal) => read_beside(vars, *formal, name),
        None => {
            let found = read_variable(vars, name)?;
            Ok(found.id)
        }
    }
}

/// The results in order, no variable twice.
pub(crate) fn read_results(
    alloc: Global,
    vars: &VarTable,
    callee: Option<&Signature>,
    names: &[Name],
) -> Result<VarList, TextStop>
    ensures met { OnOk result (results_fault vars.now (option_copied callee.entry) [] names.now ≡ None) }
    ensures results { IfOk result (λ found. found ≡ map (variable_of vars.now) names.now) }
    ensures stop { IfErr result (IsStop (results_fault vars.now (option_copied callee.entry) [] names.now)) }
{
    let mut before = Names::new(alloc);
    let mut found = Items::new(alloc);
    for name in names {
        let id = read_result(vars, callee, before.len(), name)?;
        need(is_new(&before, name), RefusalKind::Duplicate, name.place)?;
        before.add(name.bytes.as_slice())?;
        found.push(id)?;
    }
    Ok(found)
}
