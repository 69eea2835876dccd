//! The line that is written of a replay.

ghost use Rattle.std.specs.Prelude.{◌≡◌, IfOk};
ghost use Rattle.pale_starts.specs.Lines.{store_refused_line};
ghost use Rattle.pale_replay.specs.Lines.{line_of};
ghost use Rattle.pale_replay.specs.Lines as lines;

use crate::answer::{Answer, Replay};
use pale_starts::{fail_line, fault_line, refused_line, start_false_line};
use std::alloc::{AllocError, Global};
use store_core::{ByteList, TypeTable, VarTable};
use store_text::StoreKind;
use store_words::push_number;

/// `end line M`
///
/// # Errors
///
/// Want of memory.
pub fn end_line(alloc: Global, line: u32) -> Result<Vec<u8>, AllocError>
    ensures { IfOk result (λ text. text.items ≡ lines.end_line line) }
{
    let mut text = Vec::new(alloc);
    text.extend_from_slice(b"end line ")?;
    push_number(alloc, &mut text, u64::from(line))?;
    text.extend_from_slice(b"\n")?;
    Ok(text)
}

fn line_of(
    alloc: Global,
    types: &TypeTable,
    vars: &VarTable,
    answer: Answer,
) -> Result<Vec<u8>, AllocError>
    ensures { IfOk result (λ text. text.items ≡ line_of types.now vars.now answer) }
{
    match answer {
        Answer::StoreRefused(line, kind) => refused_line(alloc, line, kind),
        Answer::NotWellFormed(fault) => fault_line(alloc, types, vars, fault),
        Answer::StartFalse => start_false_line(alloc),
        Answer::Fails(cause, line) => fail_line(alloc, cause, line),
        Answer::Ends(line) => end_line(alloc, line),
    }
}

/// An answer that names types and variables, with its line.
pub(crate) fn told(
    alloc: Global,
    types: &TypeTable,
    vars: &VarTable,
    answer: Answer,
) -> Result<Replay, AllocError>
    ensures { IfOk result (λ r. (r.answer ≡ answer) × (r.line ≡ line_of types.now vars.now answer)) }
{
    let line = line_of(alloc, types, vars, answer)?;
    Ok(Replay {
        answer,
        line: ByteList::from_vec(line),
    })
}

/// The answer for a part that is refused, with its line.
pub(crate) fn store_refused(alloc: Global, line: u64, kind: StoreKind) -> Result<Replay, AllocError>
    ensures { IfOk result (λ r. (r.answer ≡ Answer.StoreRefused line kind) × (r.line ≡ store_refused_line line kind)) }
{
    let text = refused_line(alloc, line, kind)?;
    Ok(Replay {
        answer: Answer::StoreRefused(line, kind),
        line: ByteList::from_vec(text),
    })
}
