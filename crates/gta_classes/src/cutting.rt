//! Classes are cut in two: the states of a list, and others. The smaller part has the new class.

ghost use Rattle.std.specs.Prelude.{◌≡◌, ◌<◌, ◌≤◌, ℕ, ◌⊎◌, Contains, true, length, slice_index, vec_len, IfOk, IsTrue, ◌↔◌};
ghost use Rattle.gta_classes.specs.Chosen.{is_marked};
ghost use Rattle.gta_classes.specs.Classes.{AreClasses, IsSplit};
ghost use Rattle.gta_classes.specs.Lists.{Leads};
ghost use Rattle.gta_classes.specs.Cuts.{IsIndicator, IsIn, IsCut, IsDivided, HasOthers, Covers};
ghost use Rattle.gta_classes.specs.Marks.{AreZero};

use crate::lists::{add_at, numbers_at, set_at};
use crate::part::{NumberList, SpaceClasses};
use crate::splitting::class_of;
use plain_data::Items;
use std::alloc::{AllocError, Global};
use std::collections::HashMap;

/// Whether a state is reached and of a class.
#[inline]
fn is_in(part: &SpaceClasses, state: u32, class: u32) -> bool
    requires { length part.now.classes ≡ length part.now.reached }
    ensures { IsTrue result ↔ IsIn part.now class state }
{
    let place = state as usize;
    place < part.reached.len()
        && part.reached.as_slice()[place]
        && part.classes.as_slice()[place] == class
}

/// 1 at each listed state, and 0 at each other one.
fn indicate(listed: &[u32], ids: &mut Vec<u32>)
    requires small { (q : ℕ) → Contains listed.now q → q < length ids.old.items }
    requires zero { AreZero ids.old.items }
    ensures indicator { IsIndicator listed.now ids.new.items }
    ensures many { length ids.new.items ≡ length ids.old.items }
{
    for state in listed {
        set_at(ids, *state, 1);
    }
}

/// 0 at each state again.
fn reset(listed: &[u32], ids: &mut Vec<u32>)
    requires small { (q : ℕ) → Contains listed.now q → q < length ids.old.items }
    requires indicator { IsIndicator listed.now ids.old.items }
    ensures zero { AreZero ids.new.items }
    ensures many { length ids.new.items ≡ length ids.old.items }
{
    for state in listed {
        set_at(ids, *state, 0);
    }
}

/// How many listed states each class has.
fn counts(
    alloc: Global,
    listed: &[u32],
    part: &SpaceClasses,
) -> Result<HashMap<u32, u32>, AllocError> {
    let mut counts = HashMap::new(alloc);
    for state in listed {
        if let Some(class) = part.classes.get(*state as usize) {
            let count = counts.get(class).copied().unwrap_or(0_u32);
            counts.insert(*class, count.saturating_add(1))?;
        }
    }
    Ok(counts)
}

/// Makes a state the representative of a class, where it is of the class.
fn represent(part: &mut SpaceClasses, class: u32, state: u32)
    requires { AreClasses part.old.reached part.old.classes part.old.representatives }
    ensures classes { AreClasses part.new.reached part.new.classes part.new.representatives }
    ensures reached { part.new.reached ≡ part.old.reached }
    ensures kept { part.new.classes ≡ part.old.classes }
    ensures many { length part.new.representatives ≡ length part.old.representatives }
{
    if (class as usize) < part.representatives.len() && is_in(part, state, class) {
        part.representatives.set(class as usize, state);
    }
}

/// Moves members of a class from the end of its list to another one, down to one that isn't listed, which is the result.
/// Those that left the class are dropped.
fn move_members(
    part: &SpaceClasses,
    class: u32,
    ids: &[u32],
    members: &mut NumberList,
    moved: &mut NumberList,
) -> Result<Option<u32>, AllocError>
    requires { length part.now.classes ≡ length part.now.reached }
    ensures { IfOk result (λ found. IsDivided part.now class members.old members.new moved.new) }
{
    for _ in 0..members.len() {
        let Some(state) = members.pop() else {
            return Ok(None);
        };
        if is_in(part, state, class) {
            moved.push(state)?;
            if ids.get(state as usize).copied() == Some(0) {
                return Ok(Some(state));
            }
        }
    }
    Ok(None)
}

/// A state of a class that isn't listed. Members that left the class and are met on the way leave its list, so that none is
/// gone over for long.
fn unlisted(
    alloc: Global,
    part: &SpaceClasses,
    class: u32,
    ids: &[u32],
    members: &mut NumberList,
) -> Result<Option<u32>, AllocError>
    requires { length part.now.classes ≡ length part.now.reached }
    ensures { IfOk result (λ found. (q : ℕ) → IsIn part.now class q → Contains members.old q → Contains members.new q) }
{
    let mut moved = Items::new(alloc);
    let found = move_members(part, class, ids, members, &mut moved)?;
    members.append(moved)?;
    Ok(found)
}

/// Has a class represented by a state that isn't listed, if it has one.
fn represent_unlisted(
    alloc: Global,
    class: u32,
    ids: &[u32],
    lists: &mut Vec<NumberList>,
    part: &mut SpaceClasses,
) -> Result<(), AllocError>
    requires classes { AreClasses part.old.reached part.old.classes part.old.representatives }
    requires covers { Covers part.old lists.old.items }
    ensures classes { IfOk result (λ done. AreClasses part.new.reached part.new.classes part.new.representatives) }
    ensures reached { IfOk result (λ done. part.new.reached ≡ part.old.reached) }
    ensures kept { IfOk result (λ done. part.new.classes ≡ part.old.classes) }
    ensures many { IfOk result (λ done. length part.new.representatives ≡ length part.old.representatives) }
    ensures covers { IfOk result (λ done. Covers part.old lists.new.items) }
{
    if class as usize >= lists.len() {
        return Ok(());
    }
    let Some(other) = unlisted(alloc, part, class, ids, &mut lists[class as usize])? else {
        return Ok(());
    };
    represent(part, class, other);
    Ok(())
}

/// Has a listed state's class represented by a state of its larger part: the listed states of the class, or its others.
fn choose_larger(
    alloc: Global,
    state: u32,
    ids: &[u32],
    counts: &HashMap<u32, u32>,
    lists: &mut Vec<NumberList>,
    part: &mut SpaceClasses,
) -> Result<(), AllocError>
    requires classes { AreClasses part.old.reached part.old.classes part.old.representatives }
    requires covers { Covers part.old lists.old.items }
    ensures classes { IfOk result (λ done. AreClasses part.new.reached part.new.classes part.new.representatives) }
    ensures reached { IfOk result (λ done. part.new.reached ≡ part.old.reached) }
    ensures kept { IfOk result (λ done. part.new.classes ≡ part.old.classes) }
    ensures many { IfOk result (λ done. length part.new.representatives ≡ length part.old.representatives) }
    ensures covers { IfOk result (λ done. Covers part.old lists.new.items) }
{
    let Some(class) = part.classes.get(state as usize).copied() else {
        return Ok(());
    };
    let Some(first) = part.representatives.get(class as usize).copied() else {
        return Ok(());
    };
    let is_first_listed = ids.get(first as usize).copied() == Some(1);
    let count = counts.get(&class).copied().unwrap_or(0) as usize;
    let is_more = count > numbers_at(lists, class).len() / 2;
    if is_more && !is_first_listed {
        represent(part, class, state);
        return Ok(());
    }
    if is_more || first != state {
        return Ok(());
    }
    represent_unlisted(alloc, class, ids, lists, part)?;
    Ok(())
}

/// Has each class represented by a state of its larger part.
fn choose_representatives(
    alloc: Global,
    listed: &[u32],
    ids: &[u32],
    lists: &mut Vec<NumberList>,
    part: &mut SpaceClasses,
) -> Result<(), AllocError>
    requires classes { AreClasses part.old.reached part.old.classes part.old.representatives }
    requires covers { Covers part.old lists.old.items }
    ensures classes { IfOk result (λ done. AreClasses part.new.reached part.new.classes part.new.representatives) }
    ensures reached { IfOk result (λ done. part.new.reached ≡ part.old.reached) }
    ensures kept { IfOk result (λ done. part.new.classes ≡ part.old.classes) }
    ensures many { IfOk result (λ done. length part.new.representatives ≡ length part.old.representatives) }
    ensures covers { IfOk result (λ done. Covers part.new lists.new.items) }
{
    let counts = counts(alloc, listed, part)?;
    for state in listed {
        choose_larger(alloc, *state, ids, &counts, lists, part)?;
    }
    Ok(())
}

/// Adds the states of a class.
pub fn add_members(
    members: &[u32],
    part: &SpaceClasses,
    class: u32,
    all: &mut Vec<u32>,
) -> Result<(), AllocError>
    requires { length part.now.classes ≡ length part.now.reached }
    ensures kept { IfOk result (λ done. (q : ℕ) → Contains all.old.items q → Contains all.new.items q) }
    ensures added { IfOk result (λ done. (q : ℕ) → Contains members.now q → IsIn part.now class q → Contains all.new.items q) }
    ensures sound { IfOk result (λ done. (q : ℕ) → Contains all.new.items q → Contains all.old.items q ⊎ IsIn part.now class q) }
{
    for state in members {
        if is_in(part, *state, class) {
            all.push(*state)?;
        }
    }
    Ok(())
}

/// The listed states, and all of each class that a listed state represents.
fn with_others(
    alloc: Global,
    listed: &[u32],
    lists: &[NumberList],
    part: &SpaceClasses,
) -> Result<Vec<u32>, AllocError>
    requires classes { AreClasses part.now.reached part.now.classes part.now.representatives }
    requires covers { Covers part.now lists.now }
    requires reached { (q : ℕ) → Contains listed.now q → is_marked part.now.reached q ≡ true }
    ensures { IfOk result (λ order. HasOthers part.now listed.now order.items) }
{
    let mut order = Vec::from_slice(alloc, listed)?;
    for state in listed {
        let class = part.classes.as_slice()[*state as usize];
        if part.representatives.as_slice()[class as usize] == *state {
            add_members(numbers_at(lists, class), part, class, &mut order)?;
        }
    }
    Ok(order)
}

/// Splits classes by numbers of their states, where only the states in the list have other numbers than the
/// representatives.
fn split_listed(
    alloc: Global,
    order: &[u32],
    ids: &[u32],
    part: &mut SpaceClasses,
) -> Result<(), AllocError>
    requires classes { AreClasses part.old.reached part.old.classes part.old.representatives }
    requires many { length part.old.reached ≤ length ids.now }
    requires reached { (q : ℕ) → Contains order.now q → is_marked part.old.reached q ≡ true }
    requires others { (q : ℕ) → is_marked part.old.reached q ≡ true → (Contains order.now q → ⊥)
        → slice_index ids.now q ≡ slice_index ids.now (slice_index part.old.representatives (slice_index part.old.classes q)) }
    ensures reached { IfOk result (λ done. part.new.reached ≡ part.old.reached) }
    ensures classes { IfOk result (λ done. AreClasses part.old.reached part.new.classes part.new.representatives) }
    ensures split { IfOk result (λ done. IsSplit part.old.reached ids.now part.old.classes part.new.classes) }
    ensures more { IfOk result (λ done. length part.old.representatives ≤ length part.new.representatives) }
    ensures stays { IfOk result (λ done. (q : ℕ) → is_marked part.old.reached q ≡ true
        → slice_index part.new.classes q < length part.old.representatives → slice_index part.new.classes q ≡ slice_index part.old.classes q) }
    ensures moved { IfOk result (λ done. (q : ℕ) → is_marked part.old.reached q ≡ true
        → (slice_index part.new.classes q < length part.old.representatives → ⊥) → Contains order.now q) }
{
    let before = part.representatives.len();
    let mut made = HashMap::new(alloc);
    for state in order {
        let class = part.classes.as_slice()[*state as usize];
        if (class as usize) < before {
            let class = class_of(&mut made, &mut part.representatives, ids, *state, class)?;
            part.classes.set(*state as usize, class);
        }
    }
    Ok(())
}

/// Adds empty lists until there are so many.
fn grow(alloc: Global, many: usize, lists: &mut Vec<NumberList>) -> Result<(), AllocError>
    ensures kept { IfOk result (λ done. (place number : ℕ) → Leads lists.old.items place number → Leads lists.new.items place number) }
    ensures many { IfOk result (λ done. many ≤ vec_len lists.new) }
{
    for _place in lists.len()..many {
        lists.push(Items::new(alloc))?;
    }
    Ok(())
}

/// Lists the states of the classes that came.
fn list_new(
    order: &[u32],
    before: usize,
    part: &SpaceClasses,
    lists: &mut Vec<NumberList>,
) -> Result<(), AllocError>
    requires classes { AreClasses part.now.reached part.now.classes part.now.representatives }
    requires many { length part.now.representatives ≤ vec_len lists.old }
    requires reached { (q : ℕ) → Contains order.now q → is_marked part.now.reached q ≡ true }
    requires olds { (q : ℕ) → is_marked part.now.reached q ≡ true → slice_index part.now.classes q < before
        → Leads lists.old.items (slice_index part.now.classes q) q }
    requires news { (q : ℕ) → is_marked part.now.reached q ≡ true → (slice_index part.now.classes q < before → ⊥) → Contains order.now q }
    ensures { IfOk result (λ done. Covers part.now lists.new.items) }
{
    for state in order {
        let class = part.classes.as_slice()[*state as usize];
        if (class as usize) >= before {
            add_at(lists, class, *state)?;
        }
    }
    Ok(())
}

/// Cuts each class of a space in two: its listed states, and its others.
pub fn cut(
    alloc: Global,
    listed: &[u32],
    part: &mut SpaceClasses,
    lists: &mut Vec<NumberList>,
    ids: &mut Vec<u32>,
) -> Result<(), AllocError>
    requires long { length part.old.reached ≤ length ids.old.items }
    requires zero { AreZero ids.old.items }
    requires classes { AreClasses part.old.reached part.old.classes part.old.representatives }
    requires reached { (q : ℕ) → Contains listed.now q → is_marked part.old.reached q ≡ true }
    requires covers { Covers part.old lists.old.items }
    ensures reached { IfOk result (λ done. part.new.reached ≡ part.old.reached) }
    ensures classes { IfOk result (λ done. AreClasses part.old.reached part.new.classes part.new.representatives) }
    ensures cut { IfOk result (λ done. IsCut part.old.reached listed.now part.old.classes part.new.classes) }
    ensures more { IfOk result (λ done. length part.old.representatives ≤ length part.new.representatives) }
    ensures covers { IfOk result (λ done. Covers part.new lists.new.items) }
    ensures zero { IfOk result (λ done. AreZero ids.new.items) }
    ensures long { IfOk result (λ done. length ids.new.items ≡ length ids.old.items) }
{
    indicate(listed, ids);
    choose_representatives(alloc, listed, ids, lists, part)?;
    let order = with_others(alloc, listed, lists, part)?;
    let before = part.representatives.len();
    split_listed(alloc, &order, ids, part)?;
    reset(listed, ids);
    grow(alloc, part.representatives.len(), lists)?;
    list_new(&order, before, part, lists)?;
    Ok(())
}
