//! Sets of tracks' numbers.

ghost use Rattle.std.specs.Prelude.{◌≡◌, ℕ, false, ◌||◌, ◌==◌, if◌then◌else◌, IfOk, OnOk, nat_eq};
ghost use Rattle.std.specs.HashSet.{contains};

use std::alloc::{AllocError, Global};
use std::collections::HashSet;
use ws2s_core::Track;

/// The numbers of two tracks.
pub(crate) fn of_two(alloc: Global, x: Track, y: Track) -> Result<HashSet<u32>, AllocError>
    ensures { IfOk result (λ tracks. (t : ℕ) → contains nat_eq tracks t ≡ (x.0 == t) || (y.0 == t)) }
{
    let mut tracks = HashSet::new(alloc);
    insert(&mut tracks, y)?;
    insert(&mut tracks, x)?;
    Ok(tracks)
}

/// Puts in the number of a track.
pub(crate) fn insert(tracks: &mut HashSet<u32>, x: Track) -> Result<(), AllocError>
    ensures { OnOk result ((t : ℕ) → contains nat_eq tracks.new t ≡ (x.0 == t) || contains nat_eq tracks.old t) }
{
    match tracks.insert(x.0) {
        Ok(_) => Ok(()),
        Err(_) => Err(AllocError),
    }
}

/// The numbers of the other set come to those of the first.
pub(crate) fn add_all(both: &mut HashSet<u32>, others: &HashSet<u32>) -> Result<(), AllocError>
    ensures { OnOk result ((t : ℕ) → contains nat_eq both.new t ≡ contains nat_eq both.old t || contains nat_eq others.now t) }
{
    both.extend(others.iter().copied())
}

/// The same numbers.
pub(crate) fn copy_of(alloc: Global, tracks: &HashSet<u32>) -> Result<HashSet<u32>, AllocError>
    ensures { IfOk result (λ copy. (t : ℕ) → contains nat_eq copy t ≡ contains nat_eq tracks.now t) }
{
    let mut copy = HashSet::new(alloc);
    add_all(&mut copy, tracks)?;
    Ok(copy)
}

/// The numbers of both sets.
pub(crate) fn union(
    alloc: Global,
    left: &HashSet<u32>,
    right: &HashSet<u32>,
) -> Result<HashSet<u32>, AllocError>
    ensures { IfOk result (λ all. (t : ℕ) → contains nat_eq all t ≡ contains nat_eq left.now t || contains nat_eq right.now t) }
{
    let mut all = copy_of(alloc, left)?;
    add_all(&mut all, right)?;
    Ok(all)
}

/// The numbers of the set but that of the track.
pub(crate) fn without(
    alloc: Global,
    tracks: &HashSet<u32>,
    t: Track,
) -> Result<HashSet<u32>, AllocError>
    ensures { IfOk result (λ others. (u : ℕ) → contains nat_eq others u ≡ (if t.0 == u then false else contains nat_eq tracks.now u)) }
{
    let mut others = copy_of(alloc, tracks)?;
    let _ = others.remove(&t.0);
    Ok(others)
}
