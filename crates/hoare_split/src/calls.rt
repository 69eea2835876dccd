//! What a call hands over and gets back.

ghost use Rattle.std.specs.Prelude.{◌≡◌, [], ◌∷◌, ◌++◌, IfOk, OnOk};
ghost use Rattle.store_logic.specs.declared.region.Region.TheVariants as region;
ghost use Rattle.hoare_split.specs.Picking.{class_at, is_data};
ghost use Rattle.hoare_split.specs.Calls as calls;

use crate::caller::{Caller, class_at};
use hoare_fill::{PutList, fill, pair_actuals, pair_results};
use pale_calls::{Actual, VarClass};
use pale_typed::CallParts;
use std::alloc::{AllocError, Global};
use store_core::{VarId, VarTable};
use store_exec::{Claim, ClaimList};
use store_logic::{Assertion, Region, VarList};

fn is_data(vars: &VarTable, var: VarId) -> bool
    ensures { result ≡ is_data (class_at vars.now var) }
{
    matches!(class_at(vars, var), VarClass::Data)
}

/// The data variables among the arguments, in their order.
pub fn handed(alloc: Global, vars: &VarTable, args: &[Actual]) -> Result<VarList, AllocError>
    ensures { IfOk result (λ found. found ≡ calls.handed_by vars.now args.now) }
{
    let mut found = VarList::new(alloc);
    for arg in args {
        if let Actual::Var(var) = arg {
            if is_data(vars, *var) {
                found.push(*var)?;
            }
        }
    }
    Ok(found)
}

/// The data variables among the results, in their order.
pub(crate) fn returned(
    alloc: Global,
    vars: &VarTable,
    results: &[VarId],
) -> Result<VarList, AllocError>
    ensures { IfOk result (λ found. found ≡ calls.returned_by vars.now results.now) }
{
    let mut found = VarList::new(alloc);
    for var in results {
        if is_data(vars, *var) {
            found.push(*var)?;
        }
    }
    Ok(found)
}

/// The callee's `pre` with the arguments put in; true where there is no such procedure.
pub(crate) fn pre_of(
    alloc: Global,
    caller: &Caller<'_>,
    call: &CallParts,
) -> Result<Assertion, AllocError>
    ensures { IfOk result (λ made. made ≡ calls.pre_of caller.now.program.now.procs call.now) }
{
    let Some(callee) = caller.program.proc(call.callee) else {
        return Ok(Assertion::True);
    };
    let mut puts = PutList::new(alloc);
    pair_actuals(&mut puts, callee.params.as_slice(), call.args.as_slice())?;
    pair_actuals(&mut puts, callee.logics.as_slice(), call.logics.as_slice())?;
    fill(alloc, puts.as_slice(), &callee.pre)
}

/// The callee's `post` with the results and logic arguments put in; true where there is no such procedure.
pub(crate) fn post_of(
    alloc: Global,
    caller: &Caller<'_>,
    call: &CallParts,
) -> Result<Assertion, AllocError>
    ensures { IfOk result (λ made. made ≡ calls.post_of caller.now.program.now.procs call.now) }
{
    let Some(callee) = caller.program.proc(call.callee) else {
        return Ok(Assertion::True);
    };
    let mut puts = PutList::new(alloc);
    pair_results(
        &mut puts,
        callee.results.as_slice(),
        call.results.as_slice(),
    )?;
    pair_actuals(&mut puts, callee.logics.as_slice(), call.logics.as_slice())?;
    fill(alloc, puts.as_slice(), &callee.post)
}

/// An assertion on all cells.
pub(crate) fn on_all(alloc: Global, assertion: &Assertion) -> Result<ClaimList, AllocError>
    ensures { IfOk result (λ claims. claims ≡ calls.on_all assertion.now) }
{
    let mut claims = ClaimList::new(alloc);
    claims.push(Claim {
        region: Region::All,
        assertion: assertion.copy(alloc)?,
    })?;
    Ok(claims)
}

/// One assertion on the part that these variables reach, and another on the rest.
pub(crate) fn on_part_and_rest(
    alloc: Global,
    part: &VarList,
    inside: Assertion,
    outside: &Assertion,
) -> Result<ClaimList, AllocError>
    ensures { IfOk result (λ claims. claims ≡ calls.on_part_and_rest part.now inside outside.now) }
{
    let mut claims = ClaimList::new(alloc);
    push_on_part(alloc, part, inside, &mut claims)?;
    push_on_rest(alloc, part, outside, &mut claims)?;
    Ok(claims)
}

/// Puts an assertion on the part that these variables reach at the end of the claims.
fn push_on_part(
    alloc: Global,
    part: &VarList,
    inside: Assertion,
    claims: &mut ClaimList,
) -> Result<(), AllocError>
    ensures { OnOk result (claims.new ≡ claims.old ++ record { region = region.Part part.now; assertion = inside } ∷ []) }
{
    claims.push(Claim {
        region: Region::Part(VarList::from_slice(alloc, part.as_slice())?),
        assertion: inside,
    })
}

/// The same on the rest.
fn push_on_rest(
    alloc: Global,
    part: &VarList,
    outside: &Assertion,
    claims: &mut ClaimList,
) -> Result<(), AllocError>
    ensures { OnOk result (claims.new ≡ claims.old ++ record { region = region.Rest part.now; assertion = outside.now } ∷ []) }
{
    claims.push(Claim {
        region: Region::Rest(VarList::from_slice(alloc, part.as_slice())?),
        assertion: outside.copy(alloc)?,
    })
}
