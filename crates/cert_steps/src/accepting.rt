//! The line of accepting states.

ghost use Rattle.std.specs.Prelude.{◌≡◌, ◌↔◌, ◌==◌, ◌<◌, ◌≤◌, ℕ, false, length, slice_get, slice_index, unwrap_or, EachIndex, IfOk, OnOk, IsTrue, MatchOption};
ghost use Rattle.std.specs.List.{list_any};
ghost use Rattle.std.specs.List.Sorted.{IsStrictlyIncreasing};
ghost use Rattle.cert_steps.specs.Places.{AreAccepting};
ghost use Rattle.cert_steps.specs.Reading.{ReadsAccepting};

use crate::fault::{FaultKind, Stop, wrong_form};
use crate::firsts::first_accepting;
use cert_text::Line;
use plain_data::Items;
use std::alloc::{AllocError, Global};

/// Whether numbers rise. Takes no memory.
pub fn is_rising(numbers: &[u32]) -> bool
    ensures { IsTrue result ↔ IsStrictlyIncreasing numbers.now }
{
    for place in 1..numbers.len() {
        if numbers[place - 1] >= numbers[place] {
            return false;
        }
    }
    true
}

/// Whether numbers are below a number. Takes no memory.
pub fn are_below(numbers: &[u32], end: u32) -> bool
    ensures { IsTrue result ↔ EachIndex numbers.now (λ k. slice_index numbers.now k < end) }
{
    numbers.iter().all(|number| *number < end)
}

/// So many states of space 0 are kept apart.
const MOST_STATES: u32 = 67_108_864;

/// What is wrong with accepting states of a space with so many states.
fn accepting_fault(states: u32, accepting: &[u32]) -> Option<FaultKind>
    ensures { MatchOption result (AreAccepting states accepting.now) (λ kind. ¬ AreAccepting states accepting.now) }
{
    if !are_below(accepting, states) {
        return Some(FaultKind::Unknown);
    }
    if !is_rising(accepting) {
        return Some(FaultKind::Table);
    }
    None
}

/// Makes a list of answers longer, by answers that say no.
fn extend(answers: &mut Items<bool>, count: usize) -> Result<(), AllocError>
    ensures same { OnOk result ((q : ℕ) → unwrap_or (slice_get answers.new q) false ≡ unwrap_or (slice_get answers.old q) false) }
    ensures long { OnOk result (count ≤ length answers.new) }
{
    for _place in answers.len()..count {
        answers.push(false)?;
    }
    Ok(())
}

/// For each state whether it is listed, up to the last one that is.
///
/// # Errors
///
/// Want of memory, also where a listed state is past the last one that is kept apart: a line of few bytes could otherwise ask for
/// gigabytes.
fn answers_of(alloc: Global, listed: &[u32]) -> Result<Items<bool>, AllocError>
    ensures { IfOk result (λ answers. (q : ℕ) → unwrap_or (slice_get answers q) false ≡ list_any (λ r. r == q) listed.now) }
{
    let mut answers = Items::new(alloc);
    for state in listed {
        if *state >= MOST_STATES {
            return Err(AllocError);
        }
        extend(&mut answers, *state as usize + 1)?;
        answers.set(*state as usize, true);
    }
    Ok(answers)
}

/// For each of so many states whether it accepts, and what follows the line that says so.
pub(crate) fn read_accepting<'a>(
    alloc: Global,
    states: u32,
    lines: &'a [Line],
) -> Result<(Items<bool>, &'a [Line]), Stop>
    ensures { IfOk result (λ cut. ReadsAccepting states lines.now cut.0 cut.1.now) }
{
    let Some((accepting, rest)) = first_accepting(lines) else {
        return Err(wrong_form(lines));
    };
    if let Some(kind) = accepting_fault(states, accepting.as_slice()) {
        return Err(Stop::Fault(lines.len(), kind));
    }
    let answers = answers_of(alloc, accepting.as_slice())?;
    Ok((answers, rest))
}
