//! Quantifiers over positions and sets.

ghost use Rattle.std.specs.Prelude.{◌≡◌, IfOk};
ghost use Rattle.ws2s_core.specs.declared.formula.Formula.TheVariants.{And, Ex2};
ghost use Rattle.ws2s_forms.specs.Forms as forms;

use std::alloc::{AllocError, Global};
use ws2s_core::{Formula, Track};

/// Some set on the track has both.
///
/// # Errors
///
/// Want of memory.
pub fn bound(alloc: Global, own: u32, left: Formula, right: Formula) -> Result<Formula, AllocError>
    ensures { IfOk result (λ formula. formula ≡ Ex2 (forms.track own) (And left right)) }
{
    let both = Formula::and(alloc, left, right)?;
    Formula::ex2(alloc, Track(own), both)
}

/// For some position on the track.
///
/// # Errors
///
/// Want of memory.
pub fn ex1(alloc: Global, next: u32, inner: Formula) -> Result<Formula, AllocError>
    ensures { IfOk result (λ formula. formula ≡ forms.ex1 next inner) }
{
    bound(alloc, next, Formula::Single(Track(next)), inner)
}

/// For each position on the track.
///
/// # Errors
///
/// Want of memory.
pub fn all1(alloc: Global, next: u32, inner: Formula) -> Result<Formula, AllocError>
    ensures { IfOk result (λ formula. formula ≡ forms.all1 next inner) }
{
    let fails = Formula::not(alloc, inner)?;
    let some = ex1(alloc, next, fails)?;
    Formula::not(alloc, some)
}

/// For each finite set on the track.
///
/// # Errors
///
/// Want of memory.
pub fn all2(alloc: Global, next: u32, inner: Formula) -> Result<Formula, AllocError>
    ensures { IfOk result (λ formula. formula ≡ forms.all2 next inner) }
{
    let fails = Formula::not(alloc, inner)?;
    let some = Formula::ex2(alloc, Track(next), fails)?;
    Formula::not(alloc, some)
}
