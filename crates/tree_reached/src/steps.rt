//! The formula that each live cell of a type is led to, step by step.

ghost use Rattle.std.specs.Prelude.{◌≡◌, ◌≤◌, ◌+◌, ◌++◌, flat_map, None, IfOk, OnOk};
ghost use Rattle.tree_reached.specs.ByField as formulas;
ghost use Rattle.tree_reached.specs.Going as going;

use crate::cells::{has, is_live};
use crate::gaps::gaps;
use crate::ways::{Way, last_number};
use std::alloc::{AllocError, Global};
use store_core::{FieldId, TypeId};
use tree_encode::Layout;
use ws2s_core::{Formula, Track};
use ws2s_forms::{all1, bound, ex1, imp, later, or_list};

/// A position is where the way begins.
fn begins(
    alloc: Global,
    l: &Layout<'_>,
    next: u32,
    r: u32,
    holder: Option<FieldId>,
) -> Result<Formula, AllocError>
    ensures { IfOk result (λ formula. formula ≡ formulas.begins next l.now.types r holder) }
{
    match holder {
        Some(f) => has(alloc, l, next, f, r),
        None => Ok(Formula::Root(Track(r))),
    }
}

/// A position is where a way with that many steps by 1 begins.
fn push_begins(
    alloc: Global,
    parts: &mut Vec<Formula>,
    l: &Layout<'_>,
    next: u32,
    r: u32,
    number: u32,
    ways: &[Way],
) -> Result<(), AllocError>
    ensures { OnOk result (parts.new.items ≡ parts.old.items ++ flat_map (formulas.begins_after next l.now.types r number) ways.now) }
{
    for way in ways {
        if way.number == number {
            parts.push(begins(alloc, l, next, r, way.holder)?)?;
        }
    }
    Ok(())
}

/// A position is in the set of this step, if there is one.
fn push_further(parts: &mut Vec<Formula>, r: u32, further: Option<u32>) -> Result<(), AllocError>
    ensures { OnOk result (parts.new.items ≡ parts.old.items ++ formulas.is_further further r) }
{
    if let Some(set) = further {
        parts.push(Formula::Sub(Track(r), Track(set)))?;
    }
    Ok(())
}

/// A position is in the set of this step, if there is one, or where a way with that many steps by 1 begins.
fn comes(
    alloc: Global,
    l: &Layout<'_>,
    next: u32,
    r: u32,
    number: u32,
    ways: &[Way],
    further: Option<u32>,
) -> Result<Formula, AllocError>
    ensures { IfOk result (λ formula. formula ≡ formulas.comes next l.now.types ways.now number further r) }
{
    let mut parts = Vec::new(alloc);
    push_further(&mut parts, r, further)?;
    push_begins(alloc, &mut parts, l, next, r, number, ways)?;
    or_list(alloc, next, parts)
}

/// A position is below another by the next step: by 1, or before all steps by 1 it is so by 0.
fn is_below(from: Option<u32>, r: u32, a: u32) -> Formula
    ensures { result ≡ formulas.is_below from r a }
{
    match from {
        Some(_) => Formula::Succ1(Track(r), Track(a)),
        None => Formula::Succ0(Track(r), Track(a)),
    }
}

/// A position is below one that is in the set of this step, or where a way begins.
fn is_led(
    alloc: Global,
    l: &Layout<'_>,
    next: u32,
    a: u32,
    number: u32,
    ways: &[Way],
    from: Option<u32>,
    further: Option<u32>,
) -> Result<Formula, AllocError>
    ensures { IfOk result (λ formula. formula ≡ formulas.is_led next l.now.types ways.now number from further a) }
{
    let inner = later(next, 1)?;
    let above = comes(alloc, l, inner, next, number, ways, further)?;
    ex1(
        alloc,
        next,
        Formula::and(alloc, is_below(from, next, a), above)?,
    )
}

/// A position is in the set of the step before, or before all steps by 1 it is a live cell of the type.
fn is_looked_at(
    alloc: Global,
    l: &Layout<'_>,
    next: u32,
    ty: TypeId,
    from: Option<u32>,
    a: u32,
) -> Result<Formula, AllocError>
    ensures { IfOk result (λ formula. formula ≡ formulas.is_looked_at next l.now.types ty from a) }
{
    match from {
        Some(set) => Ok(Formula::Sub(Track(a), Track(set))),
        None => is_live(alloc, l, next, ty, a),
    }
}

/// One step: what is looked at is below positions of the set of this step, or where ways begin.
fn are_led(
    alloc: Global,
    l: &Layout<'_>,
    next: u32,
    ty: TypeId,
    number: u32,
    ways: &[Way],
    from: Option<u32>,
    further: Option<u32>,
) -> Result<Formula, AllocError>
    ensures { IfOk result (λ formula. formula ≡ formulas.are_led next l.now.types ways.now ty number from further) }
{
    let inner = later(next, 1)?;
    let looked_at = is_looked_at(alloc, l, inner, ty, from, next)?;
    let led = is_led(alloc, l, inner, next, number, ways, from, further)?;
    all1(alloc, next, imp(alloc, looked_at, led)?)
}

/// The track of the set of the step before the one with this number, which is the next one at the first set.
fn set_before(next: u32, number: u32) -> Result<Option<u32>, AllocError>
    ensures { IfOk result (λ set. set ≡ going.set_before next number) }
{
    if number == 0 {
        return Ok(None);
    }
    Ok(Some(later(next, number - 1)?))
}

/// The last step, behind which there is no set.
fn last_step(
    alloc: Global,
    l: &Layout<'_>,
    next: u32,
    ty: TypeId,
    number: u32,
    ways: &[Way],
) -> Result<Formula, AllocError>
    ensures { IfOk result (λ formula. formula
        ≡ formulas.are_led (next + number) l.now.types ways.now ty number (going.set_before next number) None) }
{
    let inner = later(next, number)?;
    let from = set_before(next, number)?;
    are_led(alloc, l, inner, ty, number, ways, from, None)
}

/// Which sets of earlier steps a position is in that are looked at as many steps before as one of the gaps says.
fn push_earlier(
    parts: &mut Vec<Formula>,
    own: u32,
    r: u32,
    number: u32,
    gaps: &[u32],
) -> Result<(), AllocError>
    requires { number ≤ own }
    ensures { OnOk result (parts.new.items ≡ parts.old.items ++ flat_map (formulas.is_earlier own r number) gaps.now) }
{
    for gap in gaps {
        if *gap <= number {
            parts.push(Formula::Sub(Track(r), Track(own - *gap)))?;
        }
    }
    Ok(())
}

/// No position is in the set of this step and in one of those parts' sets, if there are any.
fn apart_from(
    alloc: Global,
    own: u32,
    parts: Vec<Formula>,
    led: Formula,
) -> Result<Formula, AllocError>
    ensures { IfOk result (λ formula. formula ≡ formulas.apart_from own parts.items led) }
{
    if parts.is_empty() {
        return Ok(led);
    }
    let r = later(own, 1)?;
    let inner = later(r, 1)?;
    let earlier = or_list(alloc, inner, parts)?;
    let both = Formula::and(alloc, Formula::Sub(Track(r), Track(own)), earlier)?;
    let none = Formula::not(alloc, ex1(alloc, r, both)?)?;
    Formula::and(alloc, led, none)
}

/// One step, whose set has no position of the sets of earlier steps that the gaps name.
fn led_apart(
    alloc: Global,
    own: u32,
    number: u32,
    gaps: &[u32],
    led: Formula,
) -> Result<Formula, AllocError>
    requires { number ≤ own }
    ensures { IfOk result (λ formula. formula ≡ formulas.led_apart own number gaps.now led) }
{
    let r = later(own, 1)?;
    let mut parts = Vec::new(alloc);
    push_earlier(&mut parts, own, r, number, gaps)?;
    apart_from(alloc, own, parts, led)
}

/// The step with this number, which binds its set.
fn step(
    alloc: Global,
    l: &Layout<'_>,
    next: u32,
    ty: TypeId,
    number: u32,
    ways: &[Way],
    gaps: &[u32],
    rest: Formula,
) -> Result<Formula, AllocError>
    ensures { IfOk result (λ formula. formula ≡ going.with_step next l.now.types ways.now gaps.now ty number rest) }
{
    let own = later(next, number)?;
    let inner = later(own, 1)?;
    let from = set_before(next, number)?;
    let led = are_led(alloc, l, inner, ty, number, ways, from, Some(own))?;
    let apart = led_apart(alloc, own, number, gaps, led)?;
    bound(alloc, own, rest, apart)
}

/// All steps, the sets of which are on tracks from the next one on.
fn are_led_by(
    alloc: Global,
    l: &Layout<'_>,
    next: u32,
    ty: TypeId,
    ways: &[Way],
    gaps: &[u32],
) -> Result<Formula, AllocError>
    ensures { IfOk result (λ formula. formula
        ≡ formulas.are_led_by next l.now.types ways.now gaps.now ty 0 (formulas.last_number ways.now) None) }
{
    let last = last_number(ways);
    let mut formula = last_step(alloc, l, next, ty, last, ways)?;
    let mut left = last;
    while left > 0 {
        left -= 1;
        formula = step(alloc, l, next, ty, left, ways, gaps, formula)?;
    }
    Ok(formula)
}

/// No live cell of a type is below a position by 1.
fn none_by_one(alloc: Global, l: &Layout<'_>, next: u32, ty: TypeId) -> Result<Formula, AllocError>
    ensures { IfOk result (λ formula. formula ≡ formulas.none_by_one next l.now.types ty) }
{
    let inner = later(next, 1)?;
    let live = is_live(alloc, l, inner, ty, next)?;
    let below = Formula::ex2(
        alloc,
        Track(inner),
        Formula::Succ1(Track(inner), Track(next)),
    )?;
    let some = ex1(alloc, next, Formula::and(alloc, live, below)?)?;
    Formula::not(alloc, some)
}

/// Each live cell of a type is led to by one of the ways, told step by step; tracks from the next one on are bound.
pub(crate) fn are_led_to(
    alloc: Global,
    l: &Layout<'_>,
    next: u32,
    ty: TypeId,
    ways: &[Way],
) -> Result<Formula, AllocError>
    ensures { IfOk result (λ formula. formula ≡ formulas.are_led_to next l.now.types ways.now ty) }
{
    let none = none_by_one(alloc, l, next, ty)?;
    let gaps = gaps(alloc, l, ways)?;
    let led = are_led_by(alloc, l, next, ty, ways, gaps.as_slice())?;
    Formula::and(alloc, none, led)
}
