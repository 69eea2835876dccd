//! Marks and numbers that are kept from one cut to the next, so that a cut takes no time for what it doesn't touch.

ghost use Rattle.std.specs.Prelude.{◌≡◌, ◌≤◌, ℕ, length, IfOk};
ghost use Rattle.gta_refine.specs.Refined.{part_at};
ghost use Rattle.gta_refine.specs.Scratch.{IsReady};

use gta_classes::SpaceClasses;
use gta_reach::Form;
use std::alloc::{AllocError, Global};

/// Marks and numbers, none of them set between two cuts.
#[derive(Debug, Drop)]
pub(crate) struct Scratch {
    /// A number for each state of a space.
    pub ids: Vec<u32>,
    /// Marks of child states.
    pub seen: Vec<bool>,
    /// Marks of nodes.
    pub found: Vec<bool>,
}

/// As many as a space has states at most.
fn most_states(spaces: &[SpaceClasses]) -> usize
    ensures { (s : ℕ) → length (part_at spaces.now s).reached ≤ result }
{
    let mut most = 1;
    for part in spaces {
        if most < part.reached.len() {
            most = part.reached.len();
        }
    }
    most
}

/// As many as a space has nodes, or rows, or columns at most.
fn most_listed(form: &Form) -> usize {
    let mut most = 1;
    for space in form.spaces.as_slice() {
        raise(&mut most, space.listing.nodes.len());
        raise(&mut most, space.rows.len());
        raise(&mut most, space.columns.len());
    }
    most
}

/// Makes a number at least as large as another one.
#[inline]
fn raise(most: &mut usize, many: usize) {
    if *most < many {
        *most = many;
    }
}

/// Nothing is set.
pub(crate) fn scratch_of(
    alloc: Global,
    form: &Form,
    spaces: &[SpaceClasses],
) -> Result<Scratch, AllocError>
    ensures { IfOk result (IsReady spaces.now) }
{
    let most = most_listed(form);
    Ok(Scratch {
        ids: vec![in alloc; 0; most_states(spaces)]?,
        seen: vec![in alloc; false; most]?,
        found: vec![in alloc; false; most]?,
    })
}
