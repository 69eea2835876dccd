//! A text traced.

ghost use Rattle.std.specs.Prelude.{◌<◌, ◌∷◌, length, IfOk, IfErr, All, List, ℕ};
ghost use Rattle.store_text.specs.Lines.{lines_of};
ghost use Rattle.pale_typed.specs.Fitting.{ProgramFits};
ghost use Rattle.hoare_split.specs.Fitting.{FitsProgram, IsShort};
ghost use Rattle.pale_parts.specs.Parts.{IsTripleLine};
ghost use Rattle.pale_starts.specs.Stops.{IsPartStop};
ghost use Rattle.pale_trace.specs.Tracing.{SaysOf, IsTraceOf};

use crate::ending::Trace;
use crate::lines::store_refused;
use crate::running::trace_in_run;
use crate::stores::trace_in_triple;
use pale_parts::{cut_text, split_line, triple_in};
use pale_run::named_run;
use pale_text::TextStop;
use std::alloc::{AllocError, Global};
use store_text::StoreKind;
use whole_program::{WholeProgram, read_program};

/// What is said behind a line `triple K`.
fn trace_numbered(
    alloc: Global,
    whole: &WholeProgram,
    number: u32,
    text: &[u8],
) -> Result<Trace, AllocError>
    requires short { length text.now < u32.MAX }
    requires some { 0 < number }
    requires fits { All (FitsProgram whole.now.typed) whole.now.triples }
    requires news { All IsShort whole.now.triples }
    ensures { IfOk result (λ r. (first : List ℕ) → IsTripleLine first number →
        SaysOf whole.now.typed whole.now.triples (first ∷ lines_of text.now) r.ending r.text) }
{
    match whole.triples.get(number as usize - 1) {
        Some(triple) => trace_in_triple(alloc, whole, triple, text),
        None => store_refused(alloc, 1, StoreKind::UnknownName),
    }
}

/// What is said behind a line of another form.
fn trace_named(
    alloc: Global,
    whole: &WholeProgram,
    line: &[u8],
    text: &[u8],
) -> Result<Trace, AllocError>
    requires short { length text.now < u32.MAX }
    requires program { ProgramFits whole.now.typed }
    requires other { (number : ℕ) → IsTripleLine line.now number → ⊥ }
    ensures { IfOk result (λ r. SaysOf whole.now.typed whole.now.triples (line.now ∷ lines_of text.now) r.ending r.text) }
{
    match named_run(&whole.typed, line)? {
        Ok(named) => trace_in_run(alloc, &whole.typed, named, text),
        Err(kind) => store_refused(alloc, 1, kind),
    }
}

/// What is said of the part after `---`.
fn trace_part(alloc: Global, whole: &WholeProgram, part: &[u8]) -> Result<Trace, AllocError>
    requires short { length part.now < u32.MAX }
    requires program { ProgramFits whole.now.typed }
    requires fits { All (FitsProgram whole.now.typed) whole.now.triples }
    requires news { All IsShort whole.now.triples }
    ensures { IfOk result (λ r. SaysOf whole.now.typed whole.now.triples (lines_of part.now) r.ending r.text) }
{
    if part.is_empty() {
        return store_refused(alloc, 1, StoreKind::Missing);
    }
    let (line, text) = split_line(part);
    match triple_in(line) {
        Some(number) => trace_numbered(alloc, whole, number, text),
        None => trace_named(alloc, whole, line, text),
    }
}

/// What is said of a program, a line `---`, a line `triple K` or `run PROC STEPS`, and a store text. The text has fewer bytes than the
/// greatest `u32`.
///
/// # Errors
///
/// `Refused` is the first refusal of the program's part, before the line `---`; the other part is looked at after it.
pub fn trace(alloc: Global, text: &[u8]) -> Result<Trace, TextStop>
    requires { length text.now < u32.MAX }
    ensures trace { IfOk result (λ r. IsTraceOf text.now r.ending r.text) }
    ensures stop { IfErr result (IsPartStop text.now) }
{
    let (program, part) = cut_text(text);
    let whole = read_program(alloc, program)?;
    match part {
        Some(part) => Ok(trace_part(alloc, &whole, part)?),
        None => Ok(store_refused(alloc, 0, StoreKind::Missing)?),
    }
}
