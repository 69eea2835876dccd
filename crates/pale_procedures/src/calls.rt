//! Calls with their `keep`.

ghost use Rattle.std.specs.Prelude.{◌≡◌, None, IfOk, IfErr, OnOk};
ghost use Rattle.pale_tables.specs.Faults.{IsStop};
ghost use Rattle.pale_fitting.specs.Declaring.{DeclarationsFit};
ghost use Rattle.pale_sights.specs.Framing.{IsFrame};
ghost use Rattle.pale_procedures.specs.Stated.{stated_fault, stated_or_true};
ghost use Rattle.pale_procedures.specs.Statements.{keep_sight, parts_of, parts_fault};

use crate::basis::Basis;
use crate::stated::read_optional;
use pale_calls::{allow_touched, read_call};
use pale_sights::Frame;
use pale_syntax::Call;
use pale_text::TextStop;
use pale_typed::{CallParts, Stmt};
use pale_vocabulary::Declared;
use std::alloc::Global;
use store_logic::Assertion;

/// The `keep` of a call, which may not name what the call touches. The frame is in the end as it was.
fn read_keep(
    alloc: Global,
    declared: &Declared,
    frame: &mut Frame,
    call: &Call,
) -> Result<Assertion, TextStop>
    requires declarations { DeclarationsFit declared.now }
    requires frame { IsFrame frame.old }
    ensures met { OnOk result (stated_fault declared.now (keep_sight frame.old call.now) call.now.keep ≡ None) }
    ensures keep { IfOk result (λ keep. keep ≡ stated_or_true declared.now (keep_sight frame.old call.now) call.now.keep) }
    ensures frame { frame.new ≡ frame.old }
    ensures stop { IfErr result (IsStop (stated_fault declared.now (keep_sight frame.old call.now) call.now.keep)) }
{
    allow_touched(&mut frame.stated, &frame.vars, call, false);
    let keep = read_optional(alloc, declared, &mut frame.stated, &call.keep);
    allow_touched(&mut frame.stated, &frame.vars, call, true);
    keep
}

/// A call: results, the procedure, arguments, logic arguments, and then the `keep`. The frame is in the end as it was.
#[tactic(auto, unfolding(crate::specs::Statements::parts_of, crate::specs::Statements::parts_fault))]
fn read_parts(
    alloc: Global,
    basis: &Basis,
    frame: &mut Frame,
    call: &Call,
) -> Result<CallParts, TextStop>
    requires declarations { DeclarationsFit basis.now.declared }
    requires frame { IsFrame frame.old }
    ensures met { OnOk result (parts_fault basis.now frame.old call.now ≡ None) }
    ensures parts { IfOk result (λ parts. parts ≡ parts_of basis.now frame.old call.now) }
    ensures frame { frame.new ≡ frame.old }
    ensures stop { IfErr result (IsStop (parts_fault basis.now frame.old call.now)) }
{
    let head = read_call(alloc, &basis.procedures, &frame.vars, call)?;
    let keep = read_keep(alloc, &basis.declared, frame, call)?;
    Ok(CallParts {
        callee: head.callee,
        results: head.results,
        args: head.args,
        logics: head.logics,
        keep,
    })
}

/// A statement that is a call. The frame is in the end as it was.
pub(crate) fn read_called(
    alloc: Global,
    basis: &Basis,
    frame: &mut Frame,
    call: &Call,
) -> Result<Stmt, TextStop>
    requires declarations { DeclarationsFit basis.now.declared }
    requires frame { IsFrame frame.old }
    ensures met { OnOk result (parts_fault basis.now frame.old call.now ≡ None) }
    ensures statement { IfOk result (λ made. made ≡ Stmt.Call call.now.place (parts_of basis.now frame.old call.now)) }
    ensures frame { frame.new ≡ frame.old }
    ensures stop { IfErr result (IsStop (parts_fault basis.now frame.old call.now)) }
{
    let parts = read_parts(alloc, basis, frame, call)?;
    Ok(Stmt::Call(call.place, parts))
}
