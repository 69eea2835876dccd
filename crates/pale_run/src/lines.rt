//! The text that is written of a run.

ghost use Rattle.std.specs.Prelude.{◌≡◌, ◌++◌, codes, IfOk};
ghost use Rattle.store_core.specs.Stores.{Fits};
ghost use Rattle.store_text.specs.StoreText.{store_text_of};
ghost use Rattle.pale_starts.specs.Lines.{store_refused_line};
ghost use Rattle.pale_run.specs.Lines.{ran_text, text_of, ExitFits, StoreFits};

use crate::answer::{Answer, Run};
use pale_starts::{fail_line, fault_line, refused_line, start_false_line};
use std::alloc::{AllocError, Global};
use store_core::{ByteList, Store, TypeTable, VarTable};
use store_text::{StoreKind, store_text};

/// `exit`, and the store.
fn exit_text(
    alloc: Global,
    types: &TypeTable,
    vars: &VarTable,
    store: &Store,
) -> Result<Vec<u8>, AllocError>
    requires { Fits types.now vars.now store.now }
    ensures { IfOk result (λ text. text.items ≡ codes "exit\n" ++ store_text_of types.now vars.now store.now) }
{
    let mut text = Vec::from_slice(alloc, b"exit\n")?;
    let lines = store_text(alloc, types, vars, store)?;
    text.extend_from_slice(lines.as_slice())?;
    Ok(text)
}

/// `running`, `fail CAUSE line M`, or `exit` and the store.
fn ran_text(
    alloc: Global,
    types: &TypeTable,
    vars: &VarTable,
    answer: &whole_exec::Answer,
) -> Result<Vec<u8>, AllocError>
    requires { ExitFits types.now vars.now answer.now }
    ensures { IfOk result (λ text. text.items ≡ ran_text types.now vars.now answer.now) }
{
    match answer {
        whole_exec::Answer::Running => Vec::from_slice(alloc, b"running\n"),
        whole_exec::Answer::Fail(cause, line) => fail_line(alloc, *cause, *line),
        whole_exec::Answer::Exit(store) => exit_text(alloc, types, vars, store),
    }
}

fn text_of(
    alloc: Global,
    types: &TypeTable,
    vars: &VarTable,
    answer: &Answer,
) -> Result<Vec<u8>, AllocError>
    requires { StoreFits types.now vars.now answer.now }
    ensures { IfOk result (λ text. text.items ≡ text_of types.now vars.now answer.now) }
{
    match answer {
        Answer::StoreRefused(line, kind) => refused_line(alloc, *line, *kind),
        Answer::NotWellFormed(fault) => fault_line(alloc, types, vars, *fault),
        Answer::StartFalse => start_false_line(alloc),
        Answer::Ran(answer) => ran_text(alloc, types, vars, answer),
    }
}

/// An answer that names types and variables, with its text.
pub(crate) fn told(
    alloc: Global,
    types: &TypeTable,
    vars: &VarTable,
    answer: Answer,
) -> Result<Run, AllocError>
    requires { StoreFits types.now vars.now answer }
    ensures { IfOk result (λ r. (r.answer ≡ answer) × (r.text ≡ text_of types.now vars.now answer)) }
{
    let text = text_of(alloc, types, vars, &answer)?;
    Ok(Run {
        answer,
        text: ByteList::from_vec(text),
    })
}

/// The answer for a part that is refused, with its line.
pub(crate) fn store_refused(alloc: Global, line: u64, kind: StoreKind) -> Result<Run, AllocError>
    ensures { IfOk result (λ r. (r.answer ≡ Answer.StoreRefused line kind) × (r.text ≡ store_refused_line line kind)) }
{
    let text = refused_line(alloc, line, kind)?;
    Ok(Run {
        answer: Answer::StoreRefused(line, kind),
        text: ByteList::from_vec(text),
    })
}
