//! Empty and equal sets, flags, and the positions of slots and children.

ghost use Rattle.std.specs.Prelude.{◌≡◌, IfOk};
ghost use Rattle.ws2s_forms.specs.Forms as forms;

use crate::quantifiers::{bound, ex1};
use crate::tracks::{later, target};
use std::alloc::{AllocError, Global};
use ws2s_core::{Formula, Track};

/// No position is in the set.
///
/// # Errors
///
/// Want of memory.
pub fn empty_at(alloc: Global, next: u32, whole: Track) -> Result<Formula, AllocError>
    ensures { IfOk result (λ formula. formula ≡ forms.empty_at next whole.0) }
{
    let some = ex1(alloc, next, Formula::Sub(Track(next), whole))?;
    Formula::not(alloc, some)
}

/// The two sets are the same.
///
/// # Errors
///
/// Want of memory.
pub fn equal(alloc: Global, left: Track, right: Track) -> Result<Formula, AllocError>
    ensures { IfOk result (λ formula. formula ≡ forms.equal left.0 right.0) }
{
    Formula::and(alloc, Formula::Sub(left, right), Formula::Sub(right, left))
}

/// The root is in the set.
///
/// # Errors
///
/// Want of memory.
pub fn flag(alloc: Global, next: u32, whole: Track) -> Result<Formula, AllocError>
    ensures { IfOk result (λ formula. formula ≡ forms.flag next whole.0) }
{
    let within = Formula::Sub(Track(next), whole);
    bound(alloc, next, Formula::Root(Track(next)), within)
}

/// So many steps by 1 and then one by 0 lead from the one position to the other.
///
/// # Errors
///
/// Want of memory, also where there are not as many tracks.
pub fn go(
    alloc: Global,
    next: u32,
    steps: u32,
    from: Track,
    to: Track,
) -> Result<Formula, AllocError>
    ensures { IfOk result (λ formula. formula ≡ forms.go next steps from.0 to.0) }
{
    let last = target(next, steps, from.0)?;
    let mut formula = Formula::Succ0(Track(last), to);
    let mut left = steps;
    while left > 0 {
        left -= 1;
        let own = later(next, left)?;
        let parent = target(next, left, from.0)?;
        let step = Formula::Succ1(Track(parent), Track(own));
        formula = bound(alloc, own, step, formula)?;
    }
    Ok(formula)
}

/// The one position is the child with that number of the other.
///
/// # Errors
///
/// Want of memory, also where there are not as many tracks.
pub fn child(
    alloc: Global,
    next: u32,
    number: u32,
    from: Track,
    to: Track,
) -> Result<Formula, AllocError>
    ensures { IfOk result (λ formula. formula ≡ forms.child next number from.0 to.0) }
{
    go(alloc, next, number, from, to)
}

/// The position is that of the slot with this number.
///
/// # Errors
///
/// Want of memory, also where there are not as many tracks.
pub fn slot(alloc: Global, next: u32, number: u32, to: Track) -> Result<Formula, AllocError>
    ensures { IfOk result (λ formula. formula ≡ forms.slot next number to.0) }
{
    let inner = later(next, 1)?;
    let below = go(alloc, inner, number, Track(next), to)?;
    bound(alloc, next, Formula::Root(Track(next)), below)
}
