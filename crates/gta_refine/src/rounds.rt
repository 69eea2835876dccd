//! Refinement: classes are split until steps give states of one class from states of one class.

ghost use Rattle.std.specs.Prelude.{◌≡◌, ◌<◌, ◌≤◌, ◌^◌, ◌↔◌, ℕ, List, true, false, length, map, slice_index, IfOk, IsTrue};
ghost use Rattle.gta_reach.specs.Form.{IsForm};
ghost use Rattle.gta_reach.specs.declared.sides.Side.{Side};
ghost use Rattle.gta_classes.specs.declared.part.SpaceClasses.{SpaceClasses};
ghost use Rattle.gta_classes.specs.Chosen.{is_marked, IsAmong, AreChosen};
ghost use Rattle.gta_reach.specs.Sides.{kinds_in, opposite, child_of, HasRootAt};
ghost use Rattle.gta_classes.specs.Classes.{AreClasses, IsSplit};
ghost use Rattle.gta_refine.specs.Refined.{part_at, bit_of, room_in, TakesRoom};
ghost use Rattle.gta_refine.specs.Refined.{AreSingle, ArePartition, IsStableAt, IsRefined};
ghost use Rattle.gta_refine.specs.Choices.{AreAllChosen};
ghost use Rattle.gta_refine.specs.Looked.{AreChosenAt, AreNumbersAt, AreRows, WereRows, AreSpread};
ghost use Rattle.gta_refine.specs.Looked.{IsSplitAt, AreFiner, IsStableFrom, AreStable, AreLooked};
ghost use Rattle.gta_reach.specs.declared.sides.Side.TheVariants.{Left, Right};

use crate::cascade::cascade;
use crate::choices::{Choices, all_choices, choices_of};
use crate::numbers::{first_shelf, number_roots};
use crate::rows::number_rows;
use crate::uses::uses_of;
use bdd_nodes::{NodeRef, RefList, Shelf};
use gta_classes::{SpaceClasses, SpaceClassesList, choose, split};
use gta_reach::{Form, FormSpace, Side, child, kinds_of, reach};
use plain_data::Items;
use std::alloc::{AllocError, Global};

/// The number of each state, by that of its kind.
pub(crate) fn spread(alloc: Global, kinds: &[u32], ids: &[u32]) -> Result<Vec<u32>, AllocError>
    ensures { IfOk result (λ spread. spread.items ≡ map (slice_index ids.now) kinds.now) }
{
    let mut spread = Vec::with_capacity(alloc, kinds.len())?;
    for kind in kinds {
        spread.push(ids.get(*kind as usize).copied().unwrap_or(0))?;
    }
    Ok(spread)
}

/// 1 for each accepting state, and 0 for each other one.
fn bits(alloc: Global, accepting: &[bool]) -> Result<Vec<u32>, AllocError>
    ensures { IfOk result (λ bits. bits.items ≡ map bit_of accepting.now) }
{
    let mut bits = Vec::with_capacity(alloc, accepting.len())?;
    for is_accepting in accepting {
        bits.push(u32::from(*is_accepting))?;
    }
    Ok(bits)
}

/// One class for the reached states of a space.
fn one_class(alloc: Global, reached: Items<bool>, initial: u32) -> Result<SpaceClasses, AllocError>
    requires { is_marked reached initial ≡ true }
    ensures classes { IfOk result (λ part. AreClasses part.reached part.classes part.representatives) }
    ensures reached { IfOk result (λ part. part.reached ≡ reached) }
    ensures one { IfOk result (λ part. length part.representatives ≡ 1) }
{
    let classes = vec![in alloc; 0; reached.len()]?;
    let representatives = vec![in alloc; initial; 1]?;
    Ok(SpaceClasses {
        reached,
        classes: Items::from_vec(classes),
        representatives: Items::from_vec(representatives),
    })
}

/// One class in each space.
fn one_class_each(alloc: Global, form: &Form) -> Result<Vec<SpaceClasses>, AllocError>
    requires { IsForm form.now }
    ensures { IfOk result (λ spaces. AreSingle form.now spaces.items) }
{
    let reached = reach(alloc, form)?;
    let mut spaces = Vec::new(alloc);
    for s in 0..form.spaces.len() {
        let marks = Items::from_slice(alloc, reached[s].as_slice())?;
        spaces.push(one_class(alloc, marks, form.spaces.as_slice()[s].initial)?)?;
    }
    Ok(spaces)
}

/// Splits the classes of a space by the numbers of the states, and says whether there are more classes now.
pub(crate) fn split_part(
    alloc: Global,
    ids: &[u32],
    part: &mut SpaceClasses,
) -> Result<bool, AllocError>
    requires classes { AreClasses part.old.reached part.old.classes part.old.representatives }
    requires many { length part.old.reached ≤ length ids.now }
    requires few { length part.old.reached ≤ 2 ^ 31 }
    ensures reached { IfOk result (λ more. part.new.reached ≡ part.old.reached) }
    ensures classes { IfOk result (λ more. AreClasses part.old.reached part.new.classes part.new.representatives) }
    ensures split { IfOk result (λ more. IsSplit part.old.reached ids.now part.old.classes part.new.classes) }
    ensures unchanged { IfOk result (λ more. more ≡ false
        → (part.new.classes ≡ part.old.classes) × (part.new.representatives ≡ part.old.representatives)) }
    ensures more { IfOk result (λ more. more ≡ true → length part.old.representatives < length part.new.representatives) }
{
    split(
        alloc,
        part.reached.as_slice(),
        ids,
        &mut part.classes,
        &mut part.representatives,
    )
}

/// The classes of accepting states and of others in space 0, and one class in each other space.
fn classes_at_first(alloc: Global, form: &Form) -> Result<Vec<SpaceClasses>, AllocError>
    requires { IsForm form.now }
    ensures { IfOk result (λ spaces. ArePartition form.now spaces.items) }
{
    let mut spaces = one_class_each(alloc, form)?;
    let bits = bits(alloc, form.accepting.as_slice())?;
    split_part(alloc, &bits, &mut spaces[0])?;
    Ok(spaces)
}

/// The part of a space.
#[inline]
pub(crate) fn part_of(spaces: &[SpaceClasses], s: usize) -> &SpaceClasses
    requires { s < length spaces.now }
    ensures { result.now ≡ part_at spaces.now s }
{
    &spaces[s]
}

/// Some reached states of a child.
pub(crate) fn choose_of(
    alloc: Global,
    space: &FormSpace,
    side: Side,
    spaces: &[SpaceClasses],
) -> Result<Vec<u32>, AllocError>
    requires inside { child_of space.now side < length spaces.now }
    requires many { length (part_at spaces.now (child_of space.now side)).reached ≤ length (kinds_in space.now side) }
    requires few { length (part_at spaces.now (child_of space.now side)).reached ≤ 2 ^ 31 }
    ensures { IfOk result (λ chosen. AreChosen (kinds_in space.now side)
        (part_at spaces.now (child_of space.now side)).reached chosen.items) }
{
    let reached = part_of(spaces, child(space, side) as usize)
        .reached
        .as_slice();
    choose(alloc, kinds_of(space, side), reached)
}

/// The other child.
#[inline]
pub(crate) fn other(side: Side) -> Side
    ensures { result ≡ opposite side }
{
    match side {
        Side::Left => Side::Right,
        Side::Right => Side::Left,
    }
}

/// Some reached states of a child of a space: one for each class of its states that have the same roots.
pub(crate) fn choose_at(
    alloc: Global,
    form: &Form,
    s: usize,
    side: Side,
    spaces: &[SpaceClasses],
) -> Result<Vec<u32>, AllocError>
    requires form { IsForm form.now }
    requires space { s < length form.now.spaces }
    requires partition { ArePartition form.now spaces.now }
    ensures { IfOk result (λ chosen. AreChosenAt form.now spaces.now s side chosen.items) }
{
    let space = form.space(s);
    let chosen = choose_of(alloc, space, side, spaces)?;
    Ok(chosen)
}

/// A number for each root of a space: equal ones exactly where the roots give the same classes.
fn numbers_at(
    alloc: Global,
    form: &Form,
    s: usize,
    spaces: &[SpaceClasses],
    shelf: &mut Shelf,
) -> Result<RefList, AllocError>
    requires form { IsForm form.now }
    requires space { s < length form.now.spaces }
    requires partition { ArePartition form.now spaces.now }
    ensures { IfOk result (AreNumbersAt form.now spaces.now s) }
{
    let space = form.space(s);
    let classes = part_of(spaces, s).classes.as_slice();
    let numbers = number_roots(alloc, shelf, &space.listing, classes)?;
    Ok(numbers)
}

/// A number for each state of a child: equal ones exactly where states have equal rows.
fn ids_of(
    alloc: Global,
    space: &FormSpace,
    side: Side,
    numbers: &[NodeRef],
    own: &[u32],
    beside: &[u32],
) -> Result<Vec<u32>, AllocError>
    requires roots { (state other : ℕ) → IsAmong own.now state → IsAmong beside.now other → HasRootAt space.now side state other }
    requires kinds { (state : ℕ) → IsAmong own.now state → state < length (kinds_in space.now side) }
    requires many { length numbers.now ≡ length space.now.listing.roots }
    ensures { IfOk result (λ ids. AreSpread space.now side numbers.now own.now beside.now ids.items) }
{
    let ids = number_rows(alloc, space, side, numbers, own, beside)?;
    let spread = spread(alloc, kinds_of(space, side), &ids)?;
    Ok(spread)
}

/// Splits the classes of one of the spaces by the numbers of its states, and says whether there are more classes now.
fn split_at(
    alloc: Global,
    ids: &[u32],
    c: usize,
    spaces: &mut Vec<SpaceClasses>,
) -> Result<bool, AllocError>
    requires inside { c < length spaces.old.items }
    requires classes { AreClasses (part_at spaces.old.items c).reached (part_at spaces.old.items c).classes
        (part_at spaces.old.items c).representatives }
    requires many { length (part_at spaces.old.items c).reached ≤ length ids.now }
    requires few { length (part_at spaces.old.items c).reached ≤ 2 ^ 31 }
    ensures { IfOk result (IsSplitAt spaces.old.items c ids.now spaces.new.items) }
{
    let part = &mut spaces[c];
    let is_more = split_part(alloc, ids, part)?;
    Ok(is_more)
}

/// Splits the classes of a child's states by their rows of numbers, and says whether there are more classes now. Where all
/// have one row, there is nothing to split.
fn split_child(
    alloc: Global,
    form: &Form,
    s: usize,
    side: Side,
    numbers: &[NodeRef],
    own: &[u32],
    beside: &[u32],
    spaces: &mut Vec<SpaceClasses>,
) -> Result<bool, AllocError>
    requires form { IsForm form.now }
    requires space { s < length form.now.spaces }
    requires partition { ArePartition form.now spaces.old.items }
    requires rows { WereRows form.now spaces.old.items s side numbers.now own.now beside.now }
    ensures partition { IfOk result (λ more. ArePartition form.now spaces.new.items) }
    ensures finer { IfOk result (λ more. AreFiner spaces.old.items spaces.new.items) }
    ensures unchanged { IfOk result (λ more. more ≡ false → spaces.new.items ≡ spaces.old.items) }
    ensures stable { (before : List SpaceClasses) → AreRows form.now before s side numbers.now own.now beside.now
        → AreFiner before spaces.old.items → IfOk result (λ more. IsStableFrom form.now before spaces.new.items s side) }
    ensures room { IfOk result (λ more. TakesRoom more (room_in spaces.old.items) (room_in spaces.new.items)) }
{
    if own.len() < 2 {
        return Ok(false);
    }
    let space = form.space(s);
    let ids = ids_of(alloc, space, side, numbers, own, beside)?;
    let is_more = split_at(alloc, &ids, child(space, side) as usize, spaces)?;
    Ok(is_more)
}

/// Splits the classes of both children's states by numbers of the roots, which are the same for the two, and says whether
/// there are more classes now.
fn split_sides(
    alloc: Global,
    form: &Form,
    s: usize,
    left: &[u32],
    right: &[u32],
    spaces: &mut Vec<SpaceClasses>,
    shelf: &mut Shelf,
) -> Result<bool, AllocError>
    requires form { IsForm form.now }
    requires space { s < length form.now.spaces }
    requires partition { ArePartition form.now spaces.old.items }
    requires left { AreChosenAt form.now spaces.old.items s Left left.now }
    requires right { AreChosenAt form.now spaces.old.items s Right right.now }
    ensures partition { IfOk result (λ more. ArePartition form.now spaces.new.items) }
    ensures finer { IfOk result (λ more. AreFiner spaces.old.items spaces.new.items) }
    ensures unchanged { IfOk result (λ more. more ≡ false → spaces.new.items ≡ spaces.old.items) }
    ensures stable { IfOk result (λ more. (side : Side) → IsStableFrom form.now spaces.old.items spaces.new.items s side) }
    ensures room { IfOk result (λ more. TakesRoom more (room_in spaces.old.items) (room_in spaces.new.items)) }
{
    let number_list = numbers_at(alloc, form, s, spaces, shelf)?;
    let numbers = number_list.as_slice();
    let is_more_left = split_child(alloc, form, s, Side::Left, numbers, left, right, spaces)?;
    let is_more_right = split_child(alloc, form, s, Side::Right, numbers, right, left, spaces)?;
    Ok(is_more_left || is_more_right)
}

/// Whether the states of both children have one row each, at most.
fn are_single(left: &[u32], right: &[u32]) -> bool
    ensures { IsTrue result ↔ ((length left.now < 2) × (length right.now < 2)) }
{
    left.len() < 2 && right.len() < 2
}

/// Splits the classes of both children's states by what steps give in the space, and says whether there are more classes
/// now.
fn split_children(
    alloc: Global,
    form: &Form,
    choices: &[Choices],
    s: usize,
    spaces: &mut Vec<SpaceClasses>,
    shelf: &mut Shelf,
) -> Result<bool, AllocError>
    requires form { IsForm form.now }
    requires space { s < length form.now.spaces }
    requires choices { AreAllChosen form.now choices.now }
    requires partition { ArePartition form.now spaces.old.items }
    ensures partition { IfOk result (λ more. ArePartition form.now spaces.new.items) }
    ensures finer { IfOk result (λ more. AreFiner spaces.old.items spaces.new.items) }
    ensures unchanged { IfOk result (λ more. more ≡ false → spaces.new.items ≡ spaces.old.items) }
    ensures stable { IfOk result (λ more. (side : Side) → IsStableFrom form.now spaces.old.items spaces.new.items s side) }
    ensures room { IfOk result (λ more. TakesRoom more (room_in spaces.old.items) (room_in spaces.new.items)) }
{
    let chosen = choices_of(choices, s);
    let left = chosen.left.as_slice();
    let right = chosen.right.as_slice();
    if are_single(left, right) {
        return Ok(false);
    }
    let is_more = split_sides(alloc, form, s, left, right, spaces, shelf)?;
    Ok(is_more)
}

/// Splits the classes of both children's states where the space has more classes than when that was last done, and says
/// whether there are more classes now. For each space it is kept how many classes it had then.
fn look_at(
    alloc: Global,
    form: &Form,
    choices: &[Choices],
    s: usize,
    looked: &mut Vec<usize>,
    spaces: &mut Vec<SpaceClasses>,
    shelf: &mut Shelf,
) -> Result<bool, AllocError>
    requires form { IsForm form.now }
    requires space { s < length form.now.spaces }
    requires choices { AreAllChosen form.now choices.now }
    requires partition { ArePartition form.now spaces.old.items }
    requires looked { AreLooked form.now spaces.old.items looked.old.items }
    ensures partition { IfOk result (λ more. ArePartition form.now spaces.new.items) }
    ensures looked { IfOk result (λ more. AreLooked form.now spaces.new.items looked.new.items) }
    ensures unchanged { IfOk result (λ more. more ≡ false → spaces.new.items ≡ spaces.old.items) }
    ensures stable { IfOk result (λ more. more ≡ false → (side : Side) → IsStableAt form.now spaces.new.items s side) }
    ensures room { IfOk result (λ more. TakesRoom more (room_in spaces.old.items) (room_in spaces.new.items)) }
{
    let many = part_of(spaces, s).representatives.len();
    if looked[s] == many {
        return Ok(false);
    }
    let is_more = split_children(alloc, form, choices, s, spaces, shelf)?;
    looked[s] = many;
    Ok(is_more)
}

/// Splits classes by each space that has more of them than when it was last looked at, and says whether there are more
/// classes now.
fn refine_more(
    alloc: Global,
    form: &Form,
    choices: &[Choices],
    looked: &mut Vec<usize>,
    spaces: &mut Vec<SpaceClasses>,
    shelf: &mut Shelf,
) -> Result<bool, AllocError>
    requires form { IsForm form.now }
    requires choices { AreAllChosen form.now choices.now }
    requires partition { ArePartition form.now spaces.old.items }
    requires looked { AreLooked form.now spaces.old.items looked.old.items }
    ensures partition { IfOk result (λ more. ArePartition form.now spaces.new.items) }
    ensures looked { IfOk result (λ more. AreLooked form.now spaces.new.items looked.new.items) }
    ensures stable { IfOk result (λ more. more ≡ false → AreStable form.now spaces.new.items) }
    ensures room { IfOk result (λ more. TakesRoom more (room_in spaces.old.items) (room_in spaces.new.items)) }
{
    let mut is_more = false;
    for s in 0..form.spaces.len() {
        if look_at(alloc, form, choices, s, looked, spaces, shelf)? {
            is_more = true;
        }
    }
    Ok(is_more)
}

/// How many rounds come before each new class cuts others at once: most automata need no more.
const FEW_ROUNDS: u32 = 8;

/// Splits classes in a few rounds, and says whether there may be more classes.
fn refine_some(
    alloc: Global,
    form: &Form,
    choices: &[Choices],
    looked: &mut Vec<usize>,
    spaces: &mut Vec<SpaceClasses>,
    shelf: &mut Shelf,
) -> Result<bool, AllocError>
    requires form { IsForm form.now }
    requires choices { AreAllChosen form.now choices.now }
    requires partition { ArePartition form.now spaces.old.items }
    requires looked { AreLooked form.now spaces.old.items looked.old.items }
    ensures partition { IfOk result (λ more. ArePartition form.now spaces.new.items) }
    ensures looked { IfOk result (λ more. AreLooked form.now spaces.new.items looked.new.items) }
    ensures stable { IfOk result (λ more. more ≡ false → AreStable form.now spaces.new.items) }
{
    for _ in 0..FEW_ROUNDS {
        if !refine_more(alloc, form, choices, looked, spaces, shelf)? {
            return Ok(false);
        }
    }
    Ok(true)
}

/// Splits classes until steps give states of one class from states of one class.
fn refine_fully(
    alloc: Global,
    form: &Form,
    choices: &[Choices],
    looked: &mut Vec<usize>,
    spaces: &mut Vec<SpaceClasses>,
    shelf: &mut Shelf,
) -> Result<(), AllocError>
    requires form { IsForm form.now }
    requires choices { AreAllChosen form.now choices.now }
    requires partition { ArePartition form.now spaces.old.items }
    requires looked { AreLooked form.now spaces.old.items looked.old.items }
    ensures partition { IfOk result (λ done. ArePartition form.now spaces.new.items) }
    ensures stable { IfOk result (λ done. AreStable form.now spaces.new.items) }
{
    if !refine_some(alloc, form, choices, looked, spaces, shelf)? {
        return Ok(());
    }
    let uses = uses_of(alloc, form, spaces)?;
    let mut done = vec![in alloc; 0; spaces.len()]?;
    'rounds: loop {
        cascade(alloc, form, &uses, &mut done, spaces)?;
        let is_more = refine_more(alloc, form, choices, looked, spaces, shelf)?;
        if !is_more {
            break 'rounds;
        }
    }
    Ok(())
}

/// The classes of the reached states that can't be told apart, in each space.
///
/// # Errors
///
/// Want of memory.
pub fn refine(alloc: Global, form: &Form) -> Result<SpaceClassesList, AllocError>
    requires { IsForm form.now }
    ensures { IfOk result (IsRefined form.now) }
{
    let mut spaces = classes_at_first(alloc, form)?;
    let choices = all_choices(alloc, form, &spaces)?;
    let mut looked = vec![in alloc; 1; spaces.len()]?;
    let mut shelf = first_shelf(alloc)?;
    refine_fully(alloc, form, &choices, &mut looked, &mut spaces, &mut shelf)?;
    Ok(Items::from_vec(spaces))
}
