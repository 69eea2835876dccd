//! A text read as a program and its triples.

ghost use Rattle.std.specs.Prelude.{◌<◌, length, IfOk, IfErr, All};
ghost use Rattle.pale_typed.specs.Fitting.{ProgramFits};
ghost use Rattle.hoare_split.specs.Fitting.{FitsProgram, IsShort};
ghost use Rattle.whole_program.specs.ProgramTexts.{IsReadAs, IsStopOf};

use hoare_triples::{TripleList, split};
use pale_parse::parse;
use pale_text::{TextStop, lex};
use pale_typed::Typed;
use pale_types::check_types;
use std::alloc::Global;

/// A program without a fault, and its triples in order.
#[derive(Drop)]
pub struct WholeProgram {
    pub typed: Typed,
    pub triples: TripleList,
}

/// The program of a text, and its triples, which fit it, each with at most 128 atoms and at most 64 `new`.
///
/// # Errors
///
/// `Refused` is the first refusal of `lex`, `parse`, `check_types` and `split`, in this order.
pub fn read_program(alloc: Global, text: &[u8]) -> Result<WholeProgram, TextStop>
    requires { length text.now < u32.MAX }
    ensures program { IfOk result (λ whole. IsReadAs text.now whole.typed whole.triples) }
    ensures typed { IfOk result (λ whole. ProgramFits whole.typed) }
    ensures fits { IfOk result (λ whole. All (FitsProgram whole.typed) whole.triples) }
    ensures short { IfOk result (λ whole. All IsShort whole.triples) }
    ensures stop { IfErr result (IsStopOf text.now) }
{
    let list = lex(alloc, text)?;
    let program = parse(alloc, &list)?;
    let typed = check_types(alloc, &program)?;
    let triples = split(alloc, &typed)?;
    Ok(WholeProgram { typed, triples })
}
