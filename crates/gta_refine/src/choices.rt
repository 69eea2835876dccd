//! Child states that stand for all values of a child. They are chosen once, since refinement changes classes alone.

ghost use Rattle.std.specs.Prelude.{◌≡◌, ◌<◌, Some, length, slice_get, IfOk};
ghost use Rattle.gta_reach.specs.declared.sides.Side.TheVariants.{Left, Right};
ghost use Rattle.gta_reach.specs.Form.{IsForm};
ghost use Rattle.gta_refine.specs.Refined.{ArePartition};
ghost use Rattle.gta_refine.specs.Choices.{AreChoices, AreAllChosen};

use crate::rounds::choose_at;
use gta_classes::SpaceClasses;
use gta_reach::{Form, Side};
use std::alloc::{AllocError, Global};

/// Values of both children of a space: one for each class of values that have the same roots.
#[derive(Debug, Drop)]
pub(crate) struct Choices {
    pub left: Vec<u32>,
    pub right: Vec<u32>,
}

/// The choices in a space.
fn choices_at(
    alloc: Global,
    form: &Form,
    s: usize,
    spaces: &[SpaceClasses],
) -> Result<Choices, AllocError>
    requires form { IsForm form.now }
    requires space { s < length form.now.spaces }
    requires partition { ArePartition form.now spaces.now }
    ensures left { IfOk result (λ choices. AreChoices form.now s Left choices.left.items) }
    ensures right { IfOk result (λ choices. AreChoices form.now s Right choices.right.items) }
{
    let left = choose_at(alloc, form, s, Side::Left, spaces)?;
    let right = choose_at(alloc, form, s, Side::Right, spaces)?;
    Ok(Choices { left, right })
}

/// The choices in each space.
pub(crate) fn all_choices(
    alloc: Global,
    form: &Form,
    spaces: &[SpaceClasses],
) -> Result<Vec<Choices>, AllocError>
    requires form { IsForm form.now }
    requires partition { ArePartition form.now spaces.now }
    ensures { IfOk result (λ all. AreAllChosen form.now all.items) }
{
    let mut all = Vec::with_capacity(alloc, form.spaces.len())?;
    for s in 0..form.spaces.len() {
        let choices = choices_at(alloc, form, s, spaces)?;
        all.push(choices)?;
    }
    Ok(all)
}

/// The choices in a space.
#[inline]
pub(crate) fn choices_of(all: &[Choices], s: usize) -> &Choices
    requires { s < length all.now }
    ensures { slice_get all.now s ≡ Some result.now }
{
    &all[s]
}
