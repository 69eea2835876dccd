//! The triples of a program.

ghost use Rattle.std.specs.Prelude.{◌≡◌, ◌+◌, None, IfOk, IfErr, OnOk, All};
ghost use Rattle.pale_tables.specs.Faults.{IsStop};
ghost use Rattle.pale_typed.specs.Fitting.{ProgramFits};
ghost use Rattle.hoare_split.specs.Fitting.{FitsProgram, IsShort};
ghost use Rattle.hoare_split.specs.Triples.{split_fault, triples_of};

use crate::points::{TripleList, split_procedure};
use hoare_split::{caller_at, first_fault, triples_of_programs_that_fit_fit};
use pale_text::TextStop;
use pale_typed::Typed;
use std::alloc::{AllocError, Global};

/// The number of the procedure after this one. Want of memory past the last number.
fn number_after(number: u32) -> Result<u32, AllocError>
    ensures { IfOk result (λ next. next ≡ number + 1) }
{
    number.checked_add(1).ok_or(AllocError)
}

/// The triples of a typed program, those of its procedures in order, in each those of its cut points in order of the text. Those of a
/// program that fits fit it.
///
/// # Errors
///
/// `Refused` is the first fault, triples in order: `long-part` where a triple's code has more than 128 atoms, and then `many-new`
/// where it has more than 64 `new`, at the keyword of the cut point where the triple starts. `NoMemory` is also the answer where
/// procedures are more than their numbers count.
pub fn split(alloc: Global, t: &Typed) -> Result<TripleList, TextStop>
    ensures met { OnOk result (split_fault t.now ≡ None) }
    ensures triples { IfOk result (λ triples. triples ≡ triples_of t.now) }
    ensures fits { ProgramFits t.now → IfOk result (All (FitsProgram t.now)) }
    ensures short { IfOk result (All IsShort) }
    ensures stop { IfErr result (IsStop (split_fault t.now)) }
{
    triples_of_programs_that_fit_fit();
    let mut triples = TripleList::new(alloc);
    let mut number = 0;
    while let Some(caller) = caller_at(t, number) {
        if let Some(refusal) = first_fault(&caller) {
            return Err(TextStop::Refused(refusal));
        }
        split_procedure(alloc, &caller, &mut triples)?;
        number = number_after(number)?;
    }
    Ok(triples)
}
