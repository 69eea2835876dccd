//! Sets of states.

ghost use Rattle.std.specs.Prelude.{◌≡◌, IfOk};
ghost use Rattle.bdd_walk.specs.Sets.{set_of};

use std::alloc::{AllocError, Global};

/// The set of the states of a list: each once, in rising order. Want of memory is the one error.
pub fn set_of(alloc: Global, states: &[u32]) -> Result<Vec<u32>, AllocError>
    ensures { IfOk result (λ set. set.items ≡ set_of states.now) }
{
    let mut set = Vec::from_slice(alloc, states)?;
    set.sort_unstable();
    set.dedup();
    Ok(set)
}
