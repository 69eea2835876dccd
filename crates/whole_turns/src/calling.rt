//! A call: its cut, and the callee's entry.

ghost use Rattle.std.specs.Prelude.{◌≡◌, Ok, slice_get, IfOk, IfErr, IsSome};
ghost use Rattle.routing_walks.specs.Regions.{IsPart};
ghost use Rattle.pale_typed.specs.declared.typed.Stmt.TheOpen.{Stmt-F};
ghost use Rattle.pale_typed.specs.Fitting.{CallFits, ProgramFits};
ghost use Rattle.hoare_split.specs.Calls.{handed_by};
ghost use Rattle.whole_run.specs.Turns.{Begins};
ghost use Rattle.whole_turns.specs.Standings.{entry_of, frame_of, all_waiting};
ghost use Rattle.whole_turns.specs.Turning.{IsReady, IsEntered, turn_of, GoesAs, HaltsAs};

use crate::activation::{Activation, At, Suspended};
use crate::arriving::set_and_arrive;
use crate::halted::Halted;
use crate::pieces::Piece;
use claim_laws::claims_with_actuals_put_in_fit;
use hoare_split::{Caller, Pick, call_cut, caller_at, handed};
use pale_text::Pos;
use pale_typed::{CallParts, Typed};
use plain_data::Stack;
use routing_expr::reached;
use std::alloc::{AllocError, Global};
use store_core::{CellId, Store};
use whole_handing::{handed_store, rest_store};

/// The procedure of this number at its entry: its whole body is left.
///
/// # Errors
///
/// Want of memory.
pub fn entered<'a>(
    alloc: Global,
    program: &'a Typed,
    number: u32,
) -> Result<Activation<'a>, AllocError>
    requires { IsSome (slice_get program.now.procs number) }
    ensures { IfOk result (λ made. IsEntered program.now number made) }
{
    let Some(caller) = caller_at(program, number) else {
        unreachable!()
    };
    let mut left = Stack::new(alloc);
    left.push(Piece::Block(caller.proc.body.as_slice()))?;
    Ok(Activation {
        number,
        vars: caller.vars,
        proc: caller.proc,
        left,
    })
}

/// The callee runs on the handed part, these cells, and the call waits with the rest.
fn begin_on<'a>(
    alloc: Global,
    program: &'a Typed,
    activation: Activation<'a>,
    store: Store,
    cells: &[CellId],
    call: &'a CallParts,
    waiting: &mut Stack<Suspended<'a>>,
) -> Result<At<'a>, AllocError>
    requires callee { IsSome (slice_get program.now.procs call.now.callee) }
    requires part { IsPart program.now.types activation.vars.now store (handed_by activation.vars.now call.now.args) cells.now }
    ensures { IfOk result (λ after. Begins program.now call.now (frame_of activation.entry store) (all_waiting waiting.old)
        (turn_of (all_waiting waiting.new) (Ok after))) }
{
    let callee = entered(alloc, program, call.callee)?;
    let handed = handed_store(alloc, callee.vars, callee.proc, call, &store, cells)?;
    let rest = rest_store(alloc, &store, cells)?;
    waiting.push(Suspended {
        call,
        caller: activation,
        rest,
    })?;
    Ok(At::Running(callee, handed))
}

/// The same, of the part that data fields reach from the data arguments.
fn begin<'a>(
    alloc: Global,
    program: &'a Typed,
    activation: Activation<'a>,
    store: Store,
    call: &'a CallParts,
    waiting: &mut Stack<Suspended<'a>>,
) -> Result<At<'a>, AllocError>
    requires callee { IsSome (slice_get program.now.procs call.now.callee) }
    ensures { IfOk result (λ after. Begins program.now call.now (frame_of activation.entry store) (all_waiting waiting.old)
        (turn_of (all_waiting waiting.new) (Ok after))) }
{
    let roots = handed(alloc, activation.vars, call.args.as_slice())?;
    let cells = reached(
        alloc,
        program.types(),
        activation.vars,
        &store,
        roots.as_slice(),
    )?;
    begin_on(
        alloc,
        program,
        activation,
        store,
        cells.as_slice(),
        call,
        waiting,
    )
}

/// A call: results that aren't among the arguments are set to null or false, its cut is arrived at, and the callee begins.
pub(crate) fn take_call<'a>(
    alloc: Global,
    program: &'a Typed,
    activation: Activation<'a>,
    store: Store,
    place: Pos,
    call: &'a CallParts,
    waiting: &mut Stack<Suspended<'a>>,
) -> Result<Result<At<'a>, Halted>, AllocError>
    requires program { ProgramFits program.now }
    requires ready { IsReady program.now (entry_of activation) store }
    requires call { CallFits program.now.types program.now.procs activation.vars.now call.now }
    ensures goes { IfOk result (λ end. GoesAs program.now activation.entry store (Stmt-F.Call place call.now) (all_waiting waiting.old)
        (turn_of (all_waiting waiting.new) end)) }
    ensures stops { IfOk result (HaltsAs program.now activation.entry store (Stmt-F.Call place call.now)) }
    ensures kept { IfOk result (λ end. IfErr end (λ halted. all_waiting waiting.new ≡ all_waiting waiting.old)) }
{
    claims_with_actuals_put_in_fit();
    let caller = Caller {
        program,
        number: activation.number,
        vars: activation.vars,
        proc: activation.proc,
    };
    let cut = call_cut(alloc, &caller, place.line, call)?;
    let arrived = set_and_arrive(alloc, caller, Pick::Awaited(call), &cut, store)?;
    match arrived {
        Ok(after) => Ok(Ok(begin(alloc, program, activation, after, call, waiting)?)),
        Err(fault) => Ok(Err(fault)),
    }
}
