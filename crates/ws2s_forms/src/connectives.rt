//! Truth values and connectives.

ghost use Rattle.std.specs.Prelude.{◌≡◌, IfOk};
ghost use Rattle.ws2s_forms.specs.Forms as forms;

use std::alloc::{AllocError, Global};
use ws2s_core::{Formula, Track};

/// Never satisfied; binds the track.
///
/// # Errors
///
/// Want of memory.
pub fn false_at(alloc: Global, next: u32) -> Result<Formula, AllocError>
    ensures { IfOk result (λ formula. formula ≡ forms.false_at next) }
{
    let single = Formula::Single(Track(next));
    let other = Formula::not(alloc, Formula::Single(Track(next)))?;
    let both = Formula::and(alloc, single, other)?;
    Formula::ex2(alloc, Track(next), both)
}

/// Always satisfied; binds the track.
///
/// # Errors
///
/// Want of memory.
pub fn true_at(alloc: Global, next: u32) -> Result<Formula, AllocError>
    ensures { IfOk result (λ formula. formula ≡ forms.true_at next) }
{
    let never = false_at(alloc, next)?;
    Formula::not(alloc, never)
}

/// The right one holds where the left one does.
///
/// # Errors
///
/// Want of memory.
pub fn imp(alloc: Global, left: Formula, right: Formula) -> Result<Formula, AllocError>
    ensures { IfOk result (λ formula. formula ≡ forms.imp left right) }
{
    let fails = Formula::not(alloc, right)?;
    let both = Formula::and(alloc, left, fails)?;
    Formula::not(alloc, both)
}

/// One of the two holds.
///
/// # Errors
///
/// Want of memory.
pub fn or(alloc: Global, left: Formula, right: Formula) -> Result<Formula, AllocError>
    ensures { IfOk result (λ formula. formula ≡ forms.or left right) }
{
    let not_left = Formula::not(alloc, left)?;
    let not_right = Formula::not(alloc, right)?;
    let both = Formula::and(alloc, not_left, not_right)?;
    Formula::not(alloc, both)
}

/// Both hold or neither.
///
/// # Errors
///
/// Want of memory.
pub fn iff(alloc: Global, left: Formula, right: Formula) -> Result<Formula, AllocError>
    ensures { IfOk result (λ formula. formula ≡ forms.iff left right) }
{
    let left_again = left.copy(alloc)?;
    let right_again = right.copy(alloc)?;
    let there = imp(alloc, left, right)?;
    let back = imp(alloc, right_again, left_again)?;
    Formula::and(alloc, there, back)
}
