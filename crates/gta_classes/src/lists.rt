//! Lists of numbers at places, as an index of what leads where.

ghost use Rattle.std.specs.Prelude.{◌≡◌, ◌<◌, ◌↔◌, ℕ, Contains, IfOk, flat_map, length, slice_set, vec_len};
ghost use Rattle.gta_classes.specs.Lists.{list_at, Leads, IsAdded};
ghost use Rattle.gta_classes.specs.Marks.{IsClear};

use crate::chosen::{is_marked, mark, unmark_all};
use crate::part::NumberList;
use plain_data::Items;
use std::alloc::{AllocError, Global};

/// The last number.
const MOST: usize = 0xffff_ffff;

/// A list of numbers for each place.
pub type NumberLists = Items<NumberList>;

/// A place as a number. Past the last number: want of memory.
#[inline]
pub fn number_of(place: usize) -> Result<u32, AllocError>
    ensures { IfOk result (λ number. number ≡ place) }
{
    if place > MOST {
        return Err(AllocError);
    }
    Ok(place as u32)
}

/// So many empty lists.
pub fn empty_lists(alloc: Global, many: usize) -> Result<Vec<NumberList>, AllocError>
    ensures many { IfOk result (λ lists. vec_len lists ≡ many) }
    ensures empty { IfOk result (λ lists. (place number : ℕ) → Leads lists.items place number → ⊥) }
{
    let mut lists = Vec::new(alloc);
    for _place in 0..many {
        lists.push(Items::new(alloc))?;
    }
    Ok(lists)
}

/// Adds a number to the list at a place; past the last place nothing is added.
pub fn add_at(lists: &mut Vec<NumberList>, place: u32, number: u32) -> Result<(), AllocError>
    ensures { IfOk result (λ done. IsAdded lists.old.items place number lists.new.items) }
{
    if (place as usize) < lists.len() {
        lists[place as usize].push(number)?;
    }
    Ok(())
}

/// The list at a place; past the last place none.
#[inline]
pub fn list_of(lists: &[NumberList], place: usize) -> &[u32]
    ensures { result.now ≡ list_at lists.now place }
{
    match lists.get(place) {
        Some(list) => list.as_slice(),
        None => &[],
    }
}

/// The list at a number; past the last place none.
#[inline]
pub fn numbers_at(lists: &[NumberList], place: u32) -> &[u32]
    ensures { result.now ≡ list_at lists.now place }
{
    list_of(lists, place as usize)
}

/// The lists at some places, one after the other.
pub fn gather(alloc: Global, lists: &[NumberList], places: &[u32]) -> Result<Vec<u32>, AllocError>
    ensures { IfOk result (λ all. all.items ≡ flat_map (list_at lists.now) places.now) }
{
    let mut all = Vec::new(alloc);
    for place in places {
        all.extend_from_slice(numbers_at(lists, *place))?;
    }
    Ok(all)
}

/// The same numbers, once where the marks reach. The marks are clear again.
pub fn distinct(
    alloc: Global,
    numbers: &[u32],
    seen: &mut Vec<bool>,
) -> Result<Vec<u32>, AllocError>
    requires { IsClear seen.old.items }
    ensures once { IfOk result (λ once. (number : ℕ) → Contains once.items number ↔ Contains numbers.now number) }
    ensures clear { IfOk result (λ once. IsClear seen.new.items) }
{
    let mut once = Vec::new(alloc);
    for number in numbers {
        if !is_marked(seen, *number) {
            mark(seen, *number);
            once.push(*number)?;
        }
    }
    unmark_all(seen, &once);
    Ok(once)
}

/// Puts a number at a place.
#[inline]
pub fn set_at(numbers: &mut Vec<u32>, place: u32, number: u32)
    requires { place < length numbers.old.items }
    ensures { numbers.new.items ≡ slice_set numbers.old.items place number }
{
    numbers[place as usize] = number;
}
