//! The reached states: the initial ones, and what steps of reached ones give.

ghost use Rattle.std.specs.Prelude.{◌≡◌, ◌+◌, ◌<◌, ◌≤◌, ◌^◌, ℕ, true, false, length, [], slice_index_or, slice_set, replicate, IfOk};
ghost use Rattle.gta_reach.specs.Form.{IsForm};
ghost use Rattle.gta_reach.specs.Reached.{AreGenerated, AreReached, IsClosedIn};
ghost use Rattle.gta_reach.specs.Unset.{one_if, unset_in};

use crate::explore::explore;
use crate::form::Form;
use crate::sweep::sweep;
use gta_classes::{choose, mark};
use plain_data::Items;
use std::alloc::{AllocError, Global};

/// Marks of so many states, of which one is set.
fn only(alloc: Global, many: u32, state: u32) -> Result<Items<bool>, AllocError>
    ensures { IfOk result (λ marks. marks ≡ slice_set (replicate many false) state true) }
{
    let mut marks = vec![in alloc; false; many as usize]?;
    mark(&mut marks, state);
    Ok(Items::from_vec(marks))
}

/// The initial states.
fn initial_states(alloc: Global, form: &Form) -> Result<Vec<Items<bool>>, AllocError>
    requires { IsForm form.now }
    ensures { IfOk result (λ reached. AreGenerated form.now reached.items) }
{
    let mut reached = Vec::new(alloc);
    for space in form.spaces.as_slice() {
        reached.push(only(alloc, space.states, space.initial)?)?;
    }
    Ok(reached)
}

/// The marks of a space.
#[inline]
fn marks_of(reached: &[Items<bool>], s: u32) -> &[bool]
    requires { s < length reached.now }
    ensures { result.now ≡ slice_index_or reached.now s [] }
{
    reached[s as usize].as_slice()
}

/// Adds what steps of the reached states give in a space, and says whether there is more.
fn reach_in(
    alloc: Global,
    form: &Form,
    s: usize,
    reached: &mut Vec<Items<bool>>,
) -> Result<bool, AllocError>
    requires form { IsForm form.now }
    requires space { s < length form.now.spaces }
    requires generated { AreGenerated form.now reached.old.items }
    ensures generated { IfOk result (λ more. AreGenerated form.now reached.new.items) }
    ensures unchanged { IfOk result (λ more. more ≡ false → reached.new.items ≡ reached.old.items) }
    ensures closed { IfOk result (λ more. more ≡ false → IsClosedIn form.now reached.new.items s) }
    ensures fewer { IfOk result (λ more. unset_in reached.new.items + one_if more ≤ unset_in reached.old.items) }
{
    let space = &form.spaces.as_slice()[s];
    let lefts = choose(
        alloc,
        space.rows.as_slice(),
        marks_of(reached, space.children.0),
    )?;
    let rights = choose(
        alloc,
        space.columns.as_slice(),
        marks_of(reached, space.children.1),
    )?;
    let is_more = sweep(alloc, space, &lefts, &rights, &mut reached[s])?;
    Ok(is_more)
}

/// Adds what steps of the reached states give in each space, and says whether there is more.
fn reach_more(
    alloc: Global,
    form: &Form,
    reached: &mut Vec<Items<bool>>,
) -> Result<bool, AllocError>
    requires form { IsForm form.now }
    requires generated { AreGenerated form.now reached.old.items }
    ensures generated { IfOk result (λ more. AreGenerated form.now reached.new.items) }
    ensures closed { IfOk result (λ more. more ≡ false → (s : ℕ) → s < length form.now.spaces
        → IsClosedIn form.now reached.new.items s) }
    ensures fewer { IfOk result (λ more. unset_in reached.new.items + one_if more ≤ unset_in reached.old.items) }
{
    let mut is_more = false;
    for s in 0..form.spaces.len() {
        if reach_in(alloc, form, s, reached)? {
            is_more = true;
        }
    }
    Ok(is_more)
}

/// Marks exactly the reached states of each space.
pub fn reach(alloc: Global, form: &Form) -> Result<Vec<Items<bool>>, AllocError>
    requires { IsForm form.now }
    ensures { IfOk result (λ reached. AreReached form.now reached.items) }
{
    let mut reached = explore(alloc, form, initial_states(alloc, form)?)?;
    loop {
        if !reach_more(alloc, form, &mut reached)? {
            return Ok(reached);
        }
    }
}
