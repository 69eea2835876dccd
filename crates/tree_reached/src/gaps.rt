//! Which sets of two steps no position is in.

ghost use Rattle.std.specs.Prelude.{◌≡◌, ◌++◌, IfOk, OnOk};
ghost use Rattle.tree_reached.specs.ByField as formulas;

use crate::ways::{Way, last_number};
use std::alloc::{AllocError, Global};
use store_core::{FieldId, Owner};
use tree_encode::Layout;

/// Some cells may have both fields, by which of their type's variants have each.
fn owners_alike(one: Option<Owner>, other: Option<Owner>) -> bool
    ensures { result ≡ formulas.owners_alike one other }
{
    match (one, other) {
        (Some(Owner::Variant(v)), Some(Owner::Variant(w))) => v.index == w.index,
        _ => true,
    }
}

/// Some position may be one where a way of each of the two holders begins: both at the root, or at a cell that has both fields.
fn holders_alike(l: &Layout<'_>, one: Option<FieldId>, other: Option<FieldId>) -> bool
    ensures { result ≡ formulas.holders_alike l.now.types one other }
{
    match (one, other) {
        (None, None) => true,
        (Some(f), Some(g)) => {
            f.ty.0 == g.ty.0 && owners_alike(l.types().owner(f), l.types().owner(g))
        }
        _ => false,
    }
}

/// The later way has so many more steps by 1, and may begin where the other one does.
fn comes_later(l: &Layout<'_>, way: Way, gap: u32, later: Way) -> bool
    ensures { result ≡ formulas.comes_later l.now.types way gap later }
{
    u64::from(way.number) + u64::from(gap) == u64::from(later.number)
        && holders_alike(l, way.holder, later.holder)
}

/// One of the ways has so many more steps by 1 than this one, and may begin where it does.
fn is_before(l: &Layout<'_>, way: Way, gap: u32, ways: &[Way]) -> bool
    ensures { result ≡ formulas.is_before l.now.types ways.now gap way }
{
    ways.iter().any(|later| comes_later(l, way, gap, *later))
}

/// Two of the ways that may begin at one position have so many steps by 1 between them.
fn is_between(l: &Layout<'_>, gap: u32, ways: &[Way]) -> bool
    ensures { result ≡ formulas.is_between l.now.types ways.now gap }
{
    ways.iter().any(|way| is_before(l, *way, gap, ways))
}

/// Adds the number if it is a gap.
fn push_gap(gaps: &mut Vec<u32>, l: &Layout<'_>, gap: u32, ways: &[Way]) -> Result<(), AllocError>
    ensures { OnOk result (gaps.new.items ≡ gaps.old.items ++ formulas.gap_at l.now.types ways.now gap) }
{
    if !is_between(l, gap, ways) {
        gaps.push(gap)?;
    }
    Ok(())
}

/// The gaps: how many steps by 1 no two ways that may begin at one position have between them, below the greatest number of steps.
pub(crate) fn gaps(alloc: Global, l: &Layout<'_>, ways: &[Way]) -> Result<Vec<u32>, AllocError>
    ensures { IfOk result (λ gaps. gaps.items ≡ formulas.gaps l.now.types ways.now) }
{
    let mut gaps = Vec::new(alloc);
    for gap in 0..last_number(ways) {
        push_gap(&mut gaps, l, gap, ways)?;
    }
    Ok(gaps)
}
