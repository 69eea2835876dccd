//! A text replayed.

ghost use Rattle.std.specs.Prelude.{◌<◌, ◌∷◌, length, IfOk, IfErr, All, List, ℕ};
ghost use Rattle.store_text.specs.Lines.{lines_of};
ghost use Rattle.hoare_split.specs.Fitting.{FitsProgram, IsShort};
ghost use Rattle.pale_starts.specs.Stops.{IsPartStop};
ghost use Rattle.pale_replay.specs.Replaying.{SaysOf, NamesTriple, IsReplayOf};

use crate::answer::{Answer, Replay};
use crate::lines::{store_refused, told};
use crate::stores::execute;
use pale_parts::{cut_text, split_line, triple_in};
use pale_starts::{Begun, begin};
use pale_text::TextStop;
use std::alloc::{AllocError, Global};
use store_exec::Triple;
use store_text::StoreKind;
use whole_program::{WholeProgram, read_program};

/// What is said of a store text in a triple of the program. The text begins at line 2 of its part.
fn replay_text(
    alloc: Global,
    whole: &WholeProgram,
    triple: &Triple,
    text: &[u8],
) -> Result<Replay, AllocError>
    requires short { length text.now < u32.MAX }
    requires fits { FitsProgram whole.now.typed triple.now }
    requires news { IsShort triple.now }
    ensures { IfOk result (λ r. (first : List ℕ) → (e : _) → NamesTriple whole.now.typed whole.now.triples first triple.now e →
        SaysOf whole.now.typed whole.now.triples (first ∷ lines_of text.now) r.answer r.line) }
{
    let types = whole.typed.types();
    let Some(vars) = whole.typed.vars(triple.proc) else {
        unreachable!()
    };
    match begin(alloc, types, vars, &triple.start, text)? {
        Begun::Refused(fault) => store_refused(alloc, u64::from(fault.line) + 1, fault.kind),
        Begun::NotWellFormed(fault) => told(alloc, types, vars, Answer::NotWellFormed(fault)),
        Begun::StartFalse => told(alloc, types, vars, Answer::StartFalse),
        Begun::Meets(store) => {
            let answer = execute(alloc, types, vars, triple, store)?;
            told(alloc, types, vars, answer)
        }
    }
}

/// What is said of the part after `---`.
fn replay_part(alloc: Global, whole: &WholeProgram, part: &[u8]) -> Result<Replay, AllocError>
    requires short { length part.now < u32.MAX }
    requires fits { All (FitsProgram whole.now.typed) whole.now.triples }
    requires news { All IsShort whole.now.triples }
    ensures { IfOk result (λ r. SaysOf whole.now.typed whole.now.triples (lines_of part.now) r.answer r.line) }
{
    if part.is_empty() {
        return store_refused(alloc, 1, StoreKind::Missing);
    }
    let (line, text) = split_line(part);
    let Some(number) = triple_in(line) else {
        return store_refused(alloc, 1, StoreKind::Syntax);
    };
    match whole.triples.get(number as usize - 1) {
        Some(triple) => replay_text(alloc, whole, triple, text),
        None => store_refused(alloc, 1, StoreKind::UnknownName),
    }
}

/// What is said of a program, a line `---`, a line `triple K` and a store text. The text has fewer bytes than the greatest `u32`.
///
/// # Errors
///
/// `Refused` is the first refusal of the program's part, before the line `---`; the other part is looked at after it.
pub fn replay(alloc: Global, text: &[u8]) -> Result<Replay, TextStop>
    requires { length text.now < u32.MAX }
    ensures replay { IfOk result (λ r. IsReplayOf text.now r.answer r.line) }
    ensures stop { IfErr result (IsPartStop text.now) }
{
    let (program, part) = cut_text(text);
    let whole = read_program(alloc, program)?;
    match part {
        Some(part) => Ok(replay_part(alloc, &whole, part)?),
        None => Ok(store_refused(alloc, 0, StoreKind::Missing)?),
    }
}
