//! Values and guards as formulas.

ghost use Rattle.std.specs.Prelude.{◌≡◌, [], ◌∷◌, IfOk};
ghost use Rattle.ws2s_core.specs.declared.formula.Formula.TheVariants.{Not};
ghost use Rattle.ws2s_forms.specs.Forms as forms;
ghost use Rattle.graph_view.specs.Syms as formulas;

use graph_view::Sym;
use std::alloc::{AllocError, Global};
use ws2s_core::{Formula, Track};
use ws2s_forms::{empty_at, equal, ex1, false_at, flag, true_at};

/// The cell on track `a` is the value.
///
/// # Errors
///
/// Want of memory.
pub fn is_in(alloc: Global, next: u32, a: u32, value: Sym) -> Result<Formula, AllocError>
    ensures { IfOk result (λ formula. formula ≡ formulas.is_in next a value) }
{
    match value {
        Sym::Null => false_at(alloc, next),
        Sym::At(x) => Ok(Formula::Sub(Track(a), x)),
    }
}

/// The value is null.
///
/// # Errors
///
/// Want of memory.
pub fn is_null(alloc: Global, next: u32, value: Sym) -> Result<Formula, AllocError>
    ensures { IfOk result (λ formula. formula ≡ formulas.is_null next value) }
{
    match value {
        Sym::Null => true_at(alloc, next),
        Sym::At(x) => empty_at(alloc, next, x),
    }
}

/// Both values are one.
///
/// # Errors
///
/// Want of memory.
pub fn is_same(alloc: Global, next: u32, left: Sym, right: Sym) -> Result<Formula, AllocError>
    ensures { IfOk result (λ formula. formula ≡ formulas.is_same next left right) }
{
    match (left, right) {
        (Sym::Null, Sym::Null) => true_at(alloc, next),
        (Sym::Null, Sym::At(x)) | (Sym::At(x), Sym::Null) => empty_at(alloc, next, x),
        (Sym::At(x), Sym::At(y)) => equal(alloc, x, y),
    }
}

/// The truth value.
///
/// # Errors
///
/// Want of memory.
pub fn truth(alloc: Global, next: u32, value: Sym) -> Result<Formula, AllocError>
    ensures { IfOk result (λ formula. formula ≡ formulas.truth next value) }
{
    match value {
        Sym::Null => false_at(alloc, next),
        Sym::At(h) => flag(alloc, next, h),
    }
}

/// The guard of an event.
///
/// # Errors
///
/// Want of memory.
pub fn guard(alloc: Global, next: u32, track: Option<Track>) -> Result<Formula, AllocError>
    ensures { IfOk result (λ formula. formula ≡ formulas.guard next track) }
{
    match track {
        None => true_at(alloc, next),
        Some(h) => flag(alloc, next, h),
    }
}

/// The event is taken, and its cell is on track `a`.
pub(crate) fn is_changed(
    alloc: Global,
    next: u32,
    a: u32,
    taken: Option<Track>,
    cell: Sym,
) -> Result<Formula, AllocError>
    ensures { IfOk result (λ formula. formula ≡ formulas.is_changed next a taken cell) }
{
    let taken = guard(alloc, next, taken)?;
    let here = is_in(alloc, next, a, cell)?;
    Formula::and(alloc, taken, here)
}

/// The event isn't taken, or its cell is another than that on track `a`.
pub(crate) fn is_unchanged(
    alloc: Global,
    next: u32,
    a: u32,
    taken: Option<Track>,
    cell: Sym,
) -> Result<Formula, AllocError>
    ensures { IfOk result (λ formula. formula ≡ Not (formulas.is_changed next a taken cell)) }
{
    let changed = is_changed(alloc, next, a, taken, cell)?;
    Formula::not(alloc, changed)
}

/// All three, joined from the left.
///
/// # Errors
///
/// Want of memory.
pub fn all_three(
    alloc: Global,
    next: u32,
    one: Formula,
    two: Formula,
    three: Formula,
) -> Result<Formula, AllocError>
    ensures { IfOk result (λ formula. formula ≡ forms.and_list next (one ∷ two ∷ three ∷ [])) }
{
    let both = Formula::and(alloc, one, two)?;
    Formula::and(alloc, both, three)
}

/// For some positions on both tracks.
///
/// # Errors
///
/// Want of memory.
pub fn some_pair(alloc: Global, a: u32, b: u32, inner: Formula) -> Result<Formula, AllocError>
    ensures { IfOk result (λ formula. formula ≡ forms.ex1 a (forms.ex1 b inner)) }
{
    let some = ex1(alloc, b, inner)?;
    ex1(alloc, a, some)
}
