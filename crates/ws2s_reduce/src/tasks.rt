//! Tasks, put in front of those that are left.

ghost use Rattle.std.specs.Prelude.{◌≡◌, ◌+◌, ◌∷◌, ◌++◌, OnOk, length};
ghost use Rattle.ws2s_reduce.specs.Building.{to_build, to_forget, to_apply, steps_of, chain_steps, tracks_from};

use crate::task::{Op, Place, Task};
use std::alloc::AllocError;
use ws2s_forms::later;
use ws2s_syntax::{Connective, Quantifier, TextFormula};

/// The formula is reduced.
pub fn push_build<'t>(
    tasks: &mut Vec<Task<'t>>,
    formula: &'t TextFormula,
    place: Place,
) -> Result<(), AllocError>
    ensures { OnOk result (steps_of tasks.new.items ≡ to_build formula.now place ∷ steps_of tasks.old.items) }
{
    tasks.push(Task::Build(formula, place))?;
    Ok(())
}

/// The formula is reduced, and then the operation is made.
pub fn push_then<'t>(
    tasks: &mut Vec<Task<'t>>,
    formula: &'t TextFormula,
    place: Place,
    op: Op,
) -> Result<(), AllocError>
    ensures { OnOk result (steps_of tasks.new.items
        ≡ to_build formula.now place ∷ to_apply op ∷ steps_of tasks.old.items) }
{
    tasks.push(Task::Apply(op))?;
    tasks.push(Task::Build(formula, place))?;
    Ok(())
}

/// A first part is reduced, and then each other one is reduced and joined to what is before it.
pub fn push_chain<'t>(
    tasks: &mut Vec<Task<'t>>,
    connective: Connective,
    first: &'t TextFormula,
    others: &'t [TextFormula],
    place: Place,
) -> Result<(), AllocError>
    ensures { OnOk result (steps_of tasks.new.items
        ≡ to_build first.now place ∷ (chain_steps connective place others.now ++ steps_of tasks.old.items)) }
{
    let mut left = others.len();
    while left > 0 {
        left -= 1;
        push_then(tasks, &others[left], place, Op::Join(connective))?;
    }
    push_build(tasks, first, place)
}

/// So many tracks, from this one on, are those of the next names.
fn push_tracks(tracks: &mut Vec<u32>, first: u32, names: u32) -> Result<(), AllocError>
    ensures { OnOk result (tracks.new.items ≡ tracks.old.items ++ tracks_from first names) }
{
    for name in 0..names {
        let track = later(first, name)?;
        tracks.push(track)?;
    }
    Ok(())
}

/// The formula is reduced with so many names more, which are then forgotten and bound around it.
pub fn push_quantified<'t>(
    tasks: &mut Vec<Task<'t>>,
    tracks: &mut Vec<u32>,
    quantifier: Quantifier,
    names: u32,
    inner: &'t TextFormula,
    place: Place,
) -> Result<(), AllocError>
    ensures steps { OnOk result (steps_of tasks.new.items
        ≡ to_build inner.now (record { rank = place.rank; start = place.start; next = place.next + names })
        ∷ to_forget (length tracks.old.items) ∷ to_apply (Op.Wrap quantifier place.next names) ∷ steps_of tasks.old.items) }
    ensures tracks { OnOk result (tracks.new.items ≡ tracks.old.items ++ tracks_from place.next names) }
{
    let kept = tracks.len();
    push_tracks(tracks, place.next, names)?;
    let next = later(place.next, names)?;
    let inside = Place {
        rank: place.rank,
        start: place.start,
        next,
    };
    tasks.push(Task::Apply(Op::Wrap(quantifier, place.next, names)))?;
    tasks.push(Task::Forget(kept))?;
    push_build(tasks, inner, inside)
}
