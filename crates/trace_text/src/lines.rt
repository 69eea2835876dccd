//! The lines of a trace.

ghost use Rattle.std.specs.Prelude.{◌≡◌, ◌++◌, OnOk, codes};
ghost use Rattle.std.specs.Fmt.{decimal};
ghost use Rattle.store_text.specs.StoreText.{value_text, variant_text};
ghost use Rattle.store_trace.specs.declared.event.Event.TheVariants as event;
ghost use Rattle.trace_text.specs.Nesting.{after, returned};
ghost use Rattle.trace_text.specs.TraceLines.{vars_of, name_of, path_text, truth_text, line_with, return_line, line_of, trace_lines};

use crate::nesting::Nesting;
use crate::places::{push_path, push_proc, push_truth, push_value, push_variant};
use pale_typed::Typed;
use std::alloc::{AllocError, Global};
use store_core::{CellId, TypeTable, Value, VariantId};
use store_logic::Path;
use store_trace::Event;
use store_words::push_number;

/// `line L `
fn push_head(alloc: Global, line: u32, text: &mut Vec<u8>) -> Result<(), AllocError>
    ensures { OnOk result (text.new.items ≡ text.old.items ++ codes "line " ++ decimal line ++ codes " ") }
{
    text.extend_from_slice(b"line ")?;
    push_number(alloc, text, u64::from(line))?;
    text.extend_from_slice(b" ")
}

/// `line L PLACE = VALUE`, in the variables of this procedure.
fn push_assign(
    alloc: Global,
    program: &Typed,
    proc: u32,
    line: u32,
    place: &Path,
    value: &Value,
    text: &mut Vec<u8>,
) -> Result<(), AllocError>
    ensures { OnOk result (text.new.items ≡ text.old.items ++ line_with line (path_text program.now.types (vars_of program.now proc) place.now
        ++ codes " = " ++ value_text value.now)) }
{
    push_head(alloc, line, text)?;
    push_path(program, proc, place, text)?;
    text.extend_from_slice(b" = ")?;
    push_value(alloc, value, text)?;
    text.extend_from_slice(b"\n")
}

/// `line L new N T`
fn push_new(
    alloc: Global,
    types: &TypeTable,
    line: u32,
    cell: CellId,
    variant: VariantId,
    text: &mut Vec<u8>,
) -> Result<(), AllocError>
    ensures { OnOk result (text.new.items ≡ text.old.items ++ line_with line (codes "new " ++ decimal cell.0 ++ codes " " ++ variant_text types.now variant)) }
{
    push_head(alloc, line, text)?;
    text.extend_from_slice(b"new ")?;
    push_number(alloc, text, u64::from(cell.0))?;
    text.extend_from_slice(b" ")?;
    push_variant(types, variant, text)?;
    text.extend_from_slice(b"\n")
}

/// `line L free N`
fn push_free(alloc: Global, line: u32, cell: CellId, text: &mut Vec<u8>) -> Result<(), AllocError>
    ensures { OnOk result (text.new.items ≡ text.old.items ++ line_with line (codes "free " ++ decimal cell.0)) }
{
    push_head(alloc, line, text)?;
    text.extend_from_slice(b"free ")?;
    push_number(alloc, text, u64::from(cell.0))?;
    text.extend_from_slice(b"\n")
}

/// `line L true` or `line L false`
fn push_told(alloc: Global, line: u32, truth: bool, text: &mut Vec<u8>) -> Result<(), AllocError>
    ensures { OnOk result (text.new.items ≡ text.old.items ++ line_with line (truth_text truth)) }
{
    push_head(alloc, line, text)?;
    push_truth(truth, text)?;
    text.extend_from_slice(b"\n")
}

/// `line L cut`
fn push_cut(alloc: Global, line: u32, text: &mut Vec<u8>) -> Result<(), AllocError>
    ensures { OnOk result (text.new.items ≡ text.old.items ++ line_with line (codes "cut")) }
{
    push_head(alloc, line, text)?;
    text.extend_from_slice(b"cut\n")
}

/// `line L call PROC`, and then the callee runs.
fn push_call(
    alloc: Global,
    program: &Typed,
    line: u32,
    callee: u32,
    nesting: &mut Nesting,
    text: &mut Vec<u8>,
) -> Result<(), AllocError>
    ensures text { OnOk result (text.new.items ≡ text.old.items ++ line_with line (codes "call " ++ name_of program.now callee)) }
    ensures nesting { OnOk result (nesting.new ≡ after nesting.old (event.Call line callee)) }
{
    push_head(alloc, line, text)?;
    text.extend_from_slice(b"call ")?;
    push_proc(program, callee, text)?;
    text.extend_from_slice(b"\n")?;
    nesting.enter(line, callee)
}

/// `line L return PROC`, and then the caller runs.
fn push_return(
    alloc: Global,
    program: &Typed,
    nesting: &mut Nesting,
    text: &mut Vec<u8>,
) -> Result<(), AllocError>
    ensures text { OnOk result (text.new.items ≡ text.old.items ++ return_line program.now nesting.old.proc nesting.old.calls) }
    ensures nesting { OnOk result (nesting.new ≡ returned nesting.old nesting.old.calls) }
{
    let Some(call) = nesting.calls.pop() else {
        return Ok(());
    };
    push_head(alloc, call.line, text)?;
    text.extend_from_slice(b"return ")?;
    push_proc(program, nesting.proc, text)?;
    text.extend_from_slice(b"\n")?;
    nesting.proc = call.caller;
    Ok(())
}

/// The line of an event, after which the nesting is that behind it.
fn push_event(
    alloc: Global,
    program: &Typed,
    event: &Event,
    nesting: &mut Nesting,
    text: &mut Vec<u8>,
) -> Result<(), AllocError>
    ensures text { OnOk result (text.new.items ≡ text.old.items ++ line_of program.now nesting.old event.now) }
    ensures nesting { OnOk result (nesting.new ≡ after nesting.old event.now) }
{
    match event {
        Event::Assign(line, place, value) => {
            push_assign(alloc, program, nesting.proc, *line, place, value, text)
        }
        Event::New(line, cell, variant) => {
            push_new(alloc, program.types(), *line, *cell, *variant, text)
        }
        Event::Free(line, cell) => push_free(alloc, *line, *cell, text),
        Event::Truth(line, truth) => push_told(alloc, *line, *truth, text),
        Event::Cut(line) => push_cut(alloc, *line, text),
        Event::Call(line, callee) => push_call(alloc, program, *line, *callee, nesting, text),
        Event::Return => push_return(alloc, program, nesting, text),
    }
}

/// Writes the lines of what was shown of a run, or of a triple's code, that starts in the procedure of this number.
///
/// # Errors
///
/// Want of memory.
pub fn push_events(
    alloc: Global,
    program: &Typed,
    proc: u32,
    events: &[Event],
    text: &mut Vec<u8>,
) -> Result<(), AllocError>
    ensures { OnOk result (text.new.items ≡ text.old.items ++ trace_lines program.now proc events.now) }
{
    let mut nesting = Nesting::new(alloc, proc);
    for event in events {
        push_event(alloc, program, event, &mut nesting, text)?;
    }
    Ok(())
}
