//! Each new class cuts the classes of child states at once, so that what it tells apart isn't left to a round over all
//! states. (Hopcroft 1971: the smaller part has the new class, and the new class alone cuts others.)

ghost use Rattle.std.specs.Prelude.{◌≡◌, ◌<◌, ◌≤◌, ℕ, Contains, Some, true, length, slice_get, IfOk, IfSome};
ghost use Rattle.gta_reach.specs.Form.{IsForm};
ghost use Rattle.gta_classes.specs.Classes.{AreClasses};
ghost use Rattle.gta_refine.specs.Refined.{part_at, is_reached_in, ArePartition, room_in};
ghost use Rattle.gta_classes.specs.Cuts.{Covers};
ghost use Rattle.gta_refine.specs.Cuts.{IsCutAt, AllCover};
ghost use Rattle.gta_refine.specs.Looked.{AreFiner};
ghost use Rattle.gta_refine.specs.Scratch.{IsReady};
ghost use Rattle.gta_refine.specs.Uses.{AreUses};

use crate::givers::givers;
use crate::scratch::{Scratch, scratch_of};
use crate::uses::{SpaceUses, likes_of};
use gta_classes::{NumberList, SpaceClasses, cut};
use gta_reach::{Form, Side, child};
use std::alloc::{AllocError, Global};

/// Who uses what in a space.
#[inline]
fn uses_at(uses: &[SpaceUses], s: usize) -> &SpaceUses
    requires { s < length uses.now }
    ensures { slice_get uses.now s ≡ Some result.now }
{
    &uses[s]
}

/// For each class of a space the states that it has.
fn lists_of(alloc: Global, part: &SpaceClasses) -> Result<Vec<NumberList>, AllocError>
    requires { AreClasses part.now.reached part.now.classes part.now.representatives }
    ensures { IfOk result (λ lists. Covers part.now lists.items) }
{
    let lists = likes_of(alloc, part.classes.as_slice(), part.reached.as_slice())?;
    Ok(lists.into_vec())
}

/// For each class of each space the states that it has.
fn all_lists(
    alloc: Global,
    form: &Form,
    spaces: &[SpaceClasses],
) -> Result<Vec<Vec<NumberList>>, AllocError>
    requires form { IsForm form.now }
    requires partition { ArePartition form.now spaces.now }
    ensures { IfOk result (λ lists. AllCover spaces.now lists.items) }
{
    let mut lists = Vec::new(alloc);
    for s in 0..form.spaces.len() {
        lists.push(lists_of(alloc, &spaces[s])?)?;
    }
    Ok(lists)
}

/// Cuts the classes of a space: listed states, and others.
fn cut_at(
    alloc: Global,
    listed: &[u32],
    c: usize,
    spaces: &mut Vec<SpaceClasses>,
    lists: &mut Vec<Vec<NumberList>>,
    scratch: &mut Scratch,
) -> Result<(), AllocError>
    requires ready { IsReady spaces.old.items scratch.old }
    requires inside { c < length spaces.old.items }
    requires classes { AreClasses (part_at spaces.old.items c).reached (part_at spaces.old.items c).classes
        (part_at spaces.old.items c).representatives }
    requires reached { (q : ℕ) → Contains listed.now q → is_reached_in spaces.old.items c q ≡ true }
    requires covers { AllCover spaces.old.items lists.old.items }
    ensures cut { IfOk result (λ done. IsCutAt spaces.old.items c listed.now spaces.new.items) }
    ensures covers { IfOk result (λ done. AllCover spaces.new.items lists.new.items) }
    ensures ready { IfOk result (λ done. IsReady spaces.new.items scratch.new) }
{
    let part = &mut spaces[c];
    let part_lists = &mut lists[c];
    cut(alloc, listed, part, part_lists, &mut scratch.ids)?;
    Ok(())
}

/// Cuts the classes of a child's states: those that give a state of a class, and others.
fn cut_by(
    alloc: Global,
    form: &Form,
    uses: &[SpaceUses],
    s: usize,
    side: Side,
    class: u32,
    spaces: &mut Vec<SpaceClasses>,
    lists: &mut Vec<Vec<NumberList>>,
    scratch: &mut Scratch,
) -> Result<(), AllocError>
    requires ready { IsReady spaces.old.items scratch.old }
    requires form { IsForm form.now }
    requires space { s < length form.now.spaces }
    requires uses { AreUses form.now uses.now }
    requires partition { ArePartition form.now spaces.old.items }
    requires covers { AllCover spaces.old.items lists.old.items }
    ensures partition { IfOk result (λ done. ArePartition form.now spaces.new.items) }
    ensures finer { IfOk result (λ done. AreFiner spaces.old.items spaces.new.items) }
    ensures covers { IfOk result (λ done. AllCover spaces.new.items lists.new.items) }
    ensures room { IfOk result (λ done. room_in spaces.new.items ≤ room_in spaces.old.items) }
    ensures ready { IfOk result (λ done. IsReady spaces.new.items scratch.new) }
{
    let space = form.space(s);
    let uses = uses_at(uses, s);
    if uses.side(side).is_single {
        return Ok(());
    }
    let listed = givers(
        alloc, form, uses, s, side, class, spaces, &lists[s], scratch,
    )?;
    cut_at(
        alloc,
        &listed,
        child(space, side) as usize,
        spaces,
        lists,
        scratch,
    )?;
    Ok(())
}

/// Cuts the classes of both children's states: those that give a state of a class, and others.
fn cut_children(
    alloc: Global,
    form: &Form,
    uses: &[SpaceUses],
    s: usize,
    class: u32,
    spaces: &mut Vec<SpaceClasses>,
    lists: &mut Vec<Vec<NumberList>>,
    scratch: &mut Scratch,
) -> Result<(), AllocError>
    requires ready { IsReady spaces.old.items scratch.old }
    requires form { IsForm form.now }
    requires space { s < length form.now.spaces }
    requires uses { AreUses form.now uses.now }
    requires partition { ArePartition form.now spaces.old.items }
    requires covers { AllCover spaces.old.items lists.old.items }
    ensures partition { IfOk result (λ done. ArePartition form.now spaces.new.items) }
    ensures finer { IfOk result (λ done. AreFiner spaces.old.items spaces.new.items) }
    ensures covers { IfOk result (λ done. AllCover spaces.new.items lists.new.items) }
    ensures room { IfOk result (λ done. room_in spaces.new.items ≤ room_in spaces.old.items) }
    ensures ready { IfOk result (λ done. IsReady spaces.new.items scratch.new) }
{
    cut_by(
        alloc,
        form,
        uses,
        s,
        Side::Left,
        class,
        spaces,
        lists,
        scratch,
    )?;
    cut_by(
        alloc,
        form,
        uses,
        s,
        Side::Right,
        class,
        spaces,
        lists,
        scratch,
    )?;
    Ok(())
}

/// A space and a class of it that hasn't cut others yet.
#[derive(Clone, Copy, Debug)]
struct Next {
    s: usize,
    class: u32,
}

/// The next class that hasn't cut others yet, by how many of each space have.
fn next_class(done: &mut Vec<u32>, spaces: &[SpaceClasses]) -> Option<Next>
    ensures { IfSome result (λ next. next.s < length spaces.now) }
{
    for s in 0..spaces.len() {
        if s < done.len() {
            let class = done[s];
            if (class as usize) < spaces[s].representatives.len() && class < u32::MAX {
                done[s] = class + 1;
                return Some(Next { s, class });
            }
        }
    }
    None
}

/// Cuts by each class that hasn't cut others yet, and by each that comes by it.
pub(crate) fn cascade(
    alloc: Global,
    form: &Form,
    uses: &[SpaceUses],
    done: &mut Vec<u32>,
    spaces: &mut Vec<SpaceClasses>,
) -> Result<(), AllocError>
    requires form { IsForm form.now }
    requires uses { AreUses form.now uses.now }
    requires partition { ArePartition form.now spaces.old.items }
    ensures partition { IfOk result (λ done. ArePartition form.now spaces.new.items) }
    ensures finer { IfOk result (λ done. AreFiner spaces.old.items spaces.new.items) }
    ensures room { IfOk result (λ done. room_in spaces.new.items ≤ room_in spaces.old.items) }
{
    let mut lists = all_lists(alloc, form, spaces)?;
    let mut scratch = scratch_of(alloc, form, spaces)?;
    for _ in 0..u64::MAX {
        let Some(Next { s, class }) = next_class(done, spaces) else {
            return Ok(());
        };
        cut_children(
            alloc,
            form,
            uses,
            s,
            class,
            spaces,
            &mut lists,
            &mut scratch,
        )?;
    }
    Ok(())
}
