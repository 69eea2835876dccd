//! The free tracks of a conjunction's sides.

ghost use Rattle.std.specs.Prelude.{◌≡◌, IfOk, filter, not, nat_eq};
ghost use Rattle.std.specs.HashSet.{contains};
ghost use Rattle.ws2s_core.specs.Tracks.{is_free};
ghost use Rattle.ws2s_narrow.specs.Pending.{Tells};

use std::alloc::{AllocError, Global};
use std::collections::HashSet;
use ws2s_pass::Part;

/// A part that has been read, with the number of its atoms.
#[derive(Drop)]
pub struct Read {
    pub(crate) part: Part,
    pub(crate) atoms: usize,
}

/// The free tracks of the side of a conjunction that has fewer atoms: those that are free on the other side too, and the
/// others.
#[derive(Drop)]
pub struct Sharing {
    pub(crate) both: Vec<u32>,
    pub(crate) alone: Vec<u32>,
    /// Whether the side is the left one.
    pub(crate) is_left: bool,
}

/// What the sides share. The time is linear in the number of free tracks of the side that has fewer atoms.
pub(crate) fn shares_of(alloc: Global, left: &Read, right: &Read) -> Result<Sharing, AllocError>
    ensures { IfOk result (λ shares. Tells shares (λ t. is_free t left.now.part.formula) (λ t. is_free t right.now.part.formula)) }
{
    let tracks = &left.part.free;
    let others = &right.part.free;
    if left.atoms < right.atoms {
        return Ok(Sharing {
            both: in_both(alloc, tracks, others)?,
            alone: in_first(alloc, tracks, others)?,
            is_left: true,
        });
    }
    Ok(Sharing {
        both: in_both(alloc, others, tracks)?,
        alone: in_first(alloc, others, tracks)?,
        is_left: false,
    })
}

fn in_both(alloc: Global, few: &HashSet<u32>, many: &HashSet<u32>) -> Result<Vec<u32>, AllocError>
    ensures { IfOk result (λ tracks. tracks.items ≡ filter (λ t. contains nat_eq many.now t) few.now.keys) }
{
    few.iter()
        .copied()
        .filter(|t| many.contains(t))
        .collect(alloc)
}

fn in_first(alloc: Global, few: &HashSet<u32>, many: &HashSet<u32>) -> Result<Vec<u32>, AllocError>
    ensures { IfOk result (λ tracks. tracks.items ≡ filter (λ t. not (contains nat_eq many.now t)) few.now.keys) }
{
    few.iter()
        .copied()
        .filter(|t| !many.contains(t))
        .collect(alloc)
}
