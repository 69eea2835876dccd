//! Calls.

ghost use Rattle.std.specs.Prelude.{◌≡◌, None, map, IfOk, IfErr, OnOk};
ghost use Rattle.std.specs.Option.{option_copied};
ghost use Rattle.pale_tables.specs.Faults.{Fault, IsStop};
ghost use Rattle.pale_calls.specs.Calls.{actual_of, callee_named, has_counts, handed_fault, call_fault, call_of};
ghost use Rattle.pale_calls.specs.Signatures.{number_of};

use crate::actual::ActualList;
use crate::arguments::read_arguments;
use crate::results::read_results;
use crate::signature::{Procedures, Signature};
use pale_syntax::{Call, Name};
use pale_tables::need;
use pale_text::{Refusal, RefusalKind, TextStop};
use std::alloc::Global;
use store_core::VarTable;
use store_logic::VarList;

/// A call but for its `keep`.
#[derive(Debug, Drop)]
pub struct CallHead {
    /// The number of the procedure.
    pub callee: u32,
    pub results: VarList,
    pub args: ActualList,
    pub logics: ActualList,
}

/// What is handed to a procedure.
#[derive(Drop)]
struct Handed {
    args: ActualList,
    logics: ActualList,
}

/// Whether a call has as many results, arguments and logic arguments as are declared.
fn has_counts(callee: &Signature, call: &Call) -> bool
    ensures { result ≡ has_counts callee.now call.now }
{
    call.results.len() == callee.results.len()
        && call.arguments.len() == callee.params.len()
        && call.logics.len() == callee.logics.len()
}

/// The arguments and the logic arguments.
#[tactic(auto, unfolding(crate::specs::Calls::handed_fault))]
fn read_handed(
    alloc: Global,
    vars: &VarTable,
    callee: &Signature,
    call: &Call,
) -> Result<Handed, TextStop>
    ensures met { OnOk result (handed_fault vars.now callee.now call.now ≡ None) }
    ensures args { IfOk result (λ handed. handed.args ≡ map (actual_of vars.now) call.now.arguments) }
    ensures logics { IfOk result (λ handed. handed.logics ≡ map (actual_of vars.now) call.now.logics) }
    ensures stop { IfErr result (IsStop (handed_fault vars.now callee.now call.now)) }
{
    need(
        has_counts(callee, call),
        RefusalKind::Arity,
        call.callee.place,
    )?;
    let args = read_arguments(
        alloc,
        vars,
        callee.params.as_slice(),
        call.arguments.as_slice(),
    )?;
    let logics = read_arguments(
        alloc,
        vars,
        callee.logics.as_slice(),
        call.logics.as_slice(),
    )?;
    Ok(Handed { args, logics })
}

/// The number of the procedure of this name, and what it declares.
fn find_callee<'a>(
    procedures: &'a Procedures,
    name: &Name,
) -> (Option<usize>, Option<&'a Signature>)
    ensures number { result.0 ≡ number_of procedures.now name.now.bytes }
    ensures callee { option_copied result.1 ≡ callee_named procedures.now name.now.bytes }
{
    let number = procedures.find(name.bytes.as_slice());
    let callee = match number {
        Some(number) => procedures.signature(number),
        None => None,
    };
    (number, callee)
}

/// The number of a procedure, as 32 bits hold it.
fn narrow(number: usize) -> Result<u32, TextStop>
    ensures value { IfOk result (λ narrow. narrow ≡ number) }
    ensures memory { IfErr result (λ stop. (fault : Fault) → IsStop fault stop) }
{
    match u32::try_from(number) {
        Ok(number) => Ok(number),
        Err(_) => Err(TextStop::NoMemory),
    }
}

/// A call with its names looked up, but for its `keep`.
///
/// # Errors
///
/// `Refused` is the first fault. Results are looked at first: `unknown` at a name of no variable; where the procedure is there,
/// `kind` at a variable of another class than the result's and `type` at one of another type; where it isn't, `kind` at a logic
/// variable; `duplicate` at a variable's second time. Then `unknown` and `arity` at the procedure's name, the arguments and the
/// logic arguments, with `duplicate` at a data or pointer variable's second time.
#[tactic(auto, unfolding(crate::specs::Calls::call_fault, crate::specs::Calls::call_of))]
pub fn read_call(
    alloc: Global,
    procedures: &Procedures,
    vars: &VarTable,
    call: &Call,
) -> Result<CallHead, TextStop>
    ensures met { OnOk result (call_fault procedures.now vars.now call.now ≡ None) }
    ensures head { IfOk result (λ head. head ≡ call_of procedures.now vars.now call.now) }
    ensures stop { IfErr result (IsStop (call_fault procedures.now vars.now call.now)) }
{
    let (number, found) = find_callee(procedures, &call.callee);
    let results = read_results(alloc, vars, found, call.results.as_slice())?;
    let (Some(number), Some(callee)) = (number, found) else {
        return Err(TextStop::Refused(Refusal::at(call.callee.place, RefusalKind::Unknown)));
    };
    let handed = read_handed(alloc, vars, callee, call)?;
    let callee = narrow(number)?;
    Ok(CallHead {
        callee,
        results,
        args: handed.args,
        logics: handed.logics,
    })
}
