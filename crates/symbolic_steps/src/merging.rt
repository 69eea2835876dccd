//! What stands for the variables after both ways of an `if`.

ghost use Rattle.std.specs.Prelude.{◌≡◌, ℕ, min, IfOk};
ghost use Rattle.ws2s_core.specs.declared.formula.Formula.TheVariants.{And};
ghost use Rattle.graph_view.specs.declared.view.Sym.TheVariants.{At};
ghost use Rattle.graph_view.specs.Syms as syms;
ghost use Rattle.site_list.specs.States as states;
ghost use Rattle.site_list.specs.Codes as codes;
ghost use Rattle.symbolic_steps.specs.Shown.{merged_value, shown};

use crate::walker::{Walker, define, next_track};
use graph_cells::is_same;
use graph_view::{Sym, SymList};
use std::alloc::{AllocError, Global};
use tree_encode::Layout;
use ws2s_core::{Formula, Track};
use ws2s_forms::{flag, or};

/// The formula holds, and the track has the value.
fn has_where(
    alloc: Global,
    next: u32,
    holds: Formula,
    own: Track,
    value: Sym,
) -> Result<Formula, AllocError>
    ensures { IfOk result (λ formula. formula ≡ And holds (syms.is_same next (At own) value)) }
{
    let same = is_same(alloc, next, Sym::At(own), value)?;
    Formula::and(alloc, holds, same)
}

/// The track has the one value on the first way, whose track is `way`, and else the other.
fn is_merged(
    alloc: Global,
    next: u32,
    way: Track,
    one: Sym,
    other: Sym,
    own: Track,
) -> Result<Formula, AllocError>
    ensures { IfOk result (λ formula. formula ≡ codes.is_merged way.0 one other own.0 next) }
{
    let on = flag(alloc, next, way)?;
    let off = Formula::not(alloc, on.copy(alloc)?)?;
    let first = has_where(alloc, next, on, own, one)?;
    let second = has_where(alloc, next, off, own, other)?;
    or(alloc, first, second)
}

/// Both are the same.
fn is_sym(one: Sym, other: Sym) -> bool
    ensures { result ≡ codes.is_sym one other }
{
    match (one, other) {
        (Sym::Null, Sym::Null) => true,
        (Sym::At(x), Sym::At(y)) => x.0 == y.0,
        (Sym::Null, Sym::At(_)) | (Sym::At(_), Sym::Null) => false,
    }
}

/// What stands for a variable after both ways: what does on both, or a track that is made for it.
fn merged_value(
    alloc: Global,
    l: &Layout<'_>,
    w: &mut Walker,
    way: Track,
    one: Sym,
    other: Sym,
) -> Result<Sym, AllocError>
    ensures { IfOk result (λ value. (next wanted : ℕ) (s : states.State) → w.old ≡ shown next wanted s →
        (value ≡ (merged_value l.now.types l.now.vars way.0 one other s).0)
        × (w.new ≡ shown next wanted ((merged_value l.now.types l.now.vars way.0 one other s).1))) }
{
    if is_sym(one, other) {
        return Ok(one);
    }
    let own = next_track(l, w)?;
    let definition = is_merged(alloc, w.view.next, way, one, other, own)?;
    define(w, definition)?;
    Ok(Sym::At(own))
}

/// The lesser of two lengths.
fn lesser(one: usize, other: usize) -> usize
    ensures { result ≡ min one other }
{
    if one < other { one } else { other }
}

/// What stands for the variables after both ways, from what stands for them on each.
///
/// # Errors
///
/// Want of memory, also where there are not as many tracks.
pub fn merged(
    alloc: Global,
    l: &Layout<'_>,
    w: &mut Walker,
    way: Track,
    first: &[Sym],
    other: &[Sym],
) -> Result<SymList, AllocError>
    ensures { IfOk result (λ values. (next wanted : ℕ) (s : states.State) → w.old ≡ shown next wanted s →
        (values ≡ (codes.merged l.now.types l.now.vars way.0 first.now other.now s).0)
        × (w.new ≡ shown next wanted ((codes.merged l.now.types l.now.vars way.0 first.now other.now s).1))) }
{
    let mut values = SymList::new(alloc);
    for place in 0..lesser(first.len(), other.len()) {
        let value = merged_value(alloc, l, w, way, first[place], other[place])?;
        values.push(value)?;
    }
    Ok(values)
}
