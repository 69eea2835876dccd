//! Tracks that are bound one after the other.

ghost use Rattle.std.specs.Prelude.{◌≡◌, ◌+◌, IfOk};
ghost use Rattle.ws2s_forms.specs.Targets as targets;

use std::alloc::AllocError;

/// The track that so many bound ones follow.
///
/// # Errors
///
/// There is no such track, as in no formula that memory holds.
pub fn later(next: u32, bound: u32) -> Result<u32, AllocError>
    ensures { IfOk result (λ track. track ≡ next + bound) }
{
    match next.checked_add(bound) {
        Some(track) => Ok(track),
        None => Err(AllocError),
    }
}

/// The track of a step's position, where so many steps are left: the one that is asked for, or one that is bound.
///
/// # Errors
///
/// There is no such track.
pub fn target(next: u32, left: u32, own: u32) -> Result<u32, AllocError>
    ensures { IfOk result (λ track. track ≡ targets.target next left own) }
{
    if left == 0 {
        Ok(own)
    } else {
        later(next, left - 1)
    }
}
