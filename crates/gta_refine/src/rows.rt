//! Which child states have equal rows.

ghost use Rattle.std.specs.Prelude.{◌≡◌, ◌≢◌, ◌<◌, ℕ, true, false, length, slice_index, IfOk, IfSome, IfNone};
ghost use Rattle.gta_classes.specs.Chosen.{IsAmong};
ghost use Rattle.gta_reach.specs.Sides.{kinds_in, cell_at, HasRootAt};
ghost use Rattle.gta_refine.specs.Rows.{row_of, AreIds};
ghost use Rattle.gta_refine.specs.Numbered.{number_at};
ghost use Rattle.gta_refine.specs.Firsts.{hash_from, bucket_of, AreFirsts, HasFirst, GrowBy};

use crate::firsts::{Firsts, add_number, bucket_by};
use bdd_nodes::NodeRef;
use gta_classes::set_at;
use gta_reach::{FormSpace, Side, above, cell_of, kinds_of};
use std::alloc::{AllocError, Global};

/// The number of the root of a state with one beside it.
#[inline]
fn number_of(space: &FormSpace, side: Side, numbers: &[NodeRef], own: u32, beside: u32) -> NodeRef
    requires root { HasRootAt space.now side own beside }
    requires many { length numbers.now ≡ length space.now.listing.roots }
    ensures { result ≡ number_at numbers.now (cell_at space.now side own beside) }
{
    numbers[cell_of(space, side, own, beside)]
}

/// The hash of the row of a state: of the numbers of its roots with those beside it.
fn hash_of(space: &FormSpace, side: Side, numbers: &[NodeRef], own: u32, beside: &[u32]) -> u64
    requires roots { (other : ℕ) → IsAmong beside.now other → HasRootAt space.now side own other }
    requires many { length numbers.now ≡ length space.now.listing.roots }
    ensures { result ≡ hash_from 0 (row_of space.now side numbers.now beside.now own) }
{
    let mut hash = 0;
    for other in beside {
        let number = number_of(space, side, numbers, own, *other);
        let next = add_number(hash, number);
        hash = next;
    }
    hash
}

/// Which of so many buckets the row of a state is sought in.
fn bucket_for(
    space: &FormSpace,
    side: Side,
    numbers: &[NodeRef],
    own: u32,
    beside: &[u32],
    buckets: usize,
) -> usize
    requires some { 0 < buckets }
    requires roots { (other : ℕ) → IsAmong beside.now other → HasRootAt space.now side own other }
    requires many { length numbers.now ≡ length space.now.listing.roots }
    ensures value { result ≡ bucket_of (row_of space.now side numbers.now beside.now own) buckets }
    ensures within { result < buckets }
{
    let hash = hash_of(space, side, numbers, own, beside);
    bucket_by(hash, buckets)
}

/// Whether two states have equal rows.
fn have_same_row(
    space: &FormSpace,
    side: Side,
    numbers: &[NodeRef],
    one: u32,
    two: u32,
    beside: &[u32],
) -> bool
    requires first { (other : ℕ) → IsAmong beside.now other → HasRootAt space.now side one other }
    requires second { (other : ℕ) → IsAmong beside.now other → HasRootAt space.now side two other }
    requires many { length numbers.now ≡ length space.now.listing.roots }
    ensures same { result ≡ true →
        row_of space.now side numbers.now beside.now one ≡ row_of space.now side numbers.now beside.now two }
    ensures apart { result ≡ false →
        row_of space.now side numbers.now beside.now one ≢ row_of space.now side numbers.now beside.now two }
{
    for other in beside {
        let first = number_of(space, side, numbers, one, *other);
        let second = number_of(space, side, numbers, two, *other);
        let is_same = first.word() == second.word();
        if !is_same {
            return false;
        }
    }
    true
}

/// The place of the state with the row of a state, if there is one.
fn find(
    firsts: &Firsts,
    space: &FormSpace,
    side: Side,
    numbers: &[NodeRef],
    state: u32,
    beside: &[u32],
    bucket: usize,
) -> Option<usize>
    requires its { bucket ≡ bucket_of (row_of space.now side numbers.now beside.now state) (length firsts.now.buckets.items) }
    requires inside { bucket < length firsts.now.buckets.items }
    requires firsts { AreFirsts (row_of space.now side numbers.now beside.now) (length firsts.now.buckets.items)
        firsts.now.states.items firsts.now.buckets.items firsts.now.chain.items }
    requires roots { (i other : ℕ) → i < length firsts.now.states.items → IsAmong beside.now other
        → HasRootAt space.now side (slice_index firsts.now.states.items i) other }
    requires own { (other : ℕ) → IsAmong beside.now other → HasRootAt space.now side state other }
    requires many { length numbers.now ≡ length space.now.listing.roots }
    ensures within { IfSome result (λ place. place < length firsts.now.states.items) }
    ensures found { IfSome result (λ place. row_of space.now side numbers.now beside.now (slice_index firsts.now.states.items place)
        ≡ row_of space.now side numbers.now beside.now state) }
    ensures absent { IfNone result ((i : ℕ) → i < length firsts.now.states.items
        → row_of space.now side numbers.now beside.now (slice_index firsts.now.states.items i)
        ≢ row_of space.now side numbers.now beside.now state) }
{
    let mut link = firsts.buckets[bucket];
    while link != 0 {
        let place = link - 1;
        let other = firsts.states[place];
        let is_same = have_same_row(space, side, numbers, other, state, beside);
        if is_same {
            return Some(place);
        }
        let next = firsts.chain[place];
        link = next;
    }
    None
}

/// The first state with the row of a state, which may be that one.
fn first_with(
    firsts: &mut Firsts,
    space: &FormSpace,
    side: Side,
    numbers: &[NodeRef],
    state: u32,
    beside: &[u32],
) -> Result<u32, AllocError>
    requires some { 0 < length firsts.old.buckets.items }
    requires firsts { AreFirsts (row_of space.now side numbers.now beside.now) (length firsts.old.buckets.items)
        firsts.old.states.items firsts.old.buckets.items firsts.old.chain.items }
    requires roots { (i other : ℕ) → i < length firsts.old.states.items → IsAmong beside.now other
        → HasRootAt space.now side (slice_index firsts.old.states.items i) other }
    requires own { (other : ℕ) → IsAmong beside.now other → HasRootAt space.now side state other }
    requires many { length numbers.now ≡ length space.now.listing.roots }
    ensures first { IfOk result (λ first. HasFirst (row_of space.now side numbers.now beside.now) firsts.new.states.items state first) }
    ensures grow { IfOk result (λ first. GrowBy state firsts.old.states.items firsts.new.states.items) }
    ensures firsts { IfOk result (λ first. AreFirsts (row_of space.now side numbers.now beside.now) (length firsts.old.buckets.items)
        firsts.new.states.items firsts.new.buckets.items firsts.new.chain.items) }
{
    let bucket = bucket_for(space, side, numbers, state, beside, firsts.buckets.len());
    if let Some(place) = find(firsts, space, side, numbers, state, beside, bucket) {
        let first = firsts.states[place];
        return Ok(first);
    }
    firsts.put(state, bucket)?;
    Ok(state)
}

/// A number for each class of a child's states: equal ones exactly where the states have equal rows.
pub(crate) fn number_rows(
    alloc: Global,
    space: &FormSpace,
    side: Side,
    numbers: &[NodeRef],
    own: &[u32],
    beside: &[u32],
) -> Result<Vec<u32>, AllocError>
    requires roots { (state other : ℕ) → IsAmong own.now state → IsAmong beside.now other → HasRootAt space.now side state other }
    requires kinds { (state : ℕ) → IsAmong own.now state → state < length (kinds_in space.now side) }
    requires many { length numbers.now ≡ length space.now.listing.roots }
    ensures { IfOk result (λ ids. AreIds space.now side numbers.now own.now beside.now ids.items) }
{
    let kinds = kinds_of(space, side);
    let mut ids = vec![in alloc; 0; above(kinds)]?;
    let mut firsts = Firsts::new(alloc, own.len())?;
    for state in own {
        let first = first_with(&mut firsts, space, side, numbers, *state, beside)?;
        set_at(&mut ids, kinds[*state as usize], first);
    }
    Ok(ids)
}
