//! What is said of variables.

ghost use Rattle.std.specs.Prelude.{◌≡◌, ◌++◌, IfOk, OnOk};
ghost use Rattle.tree_formula.specs.WellEncoded as formulas;
ghost use Rattle.tree_formula.specs.WellEncoded.{var_part, var_parts};

use crate::cells::{is_live, live_track, track_or_first};
use std::alloc::{AllocError, Global};
use store_core::{TypeId, VarId, VarKind};
use tree_encode::Layout;
use ws2s_core::{Formula, Track};
use ws2s_forms::{all1, empty_at, iff, imp, later, or, slot};

/// A set has live cells of a type alone.
fn is_within(
    alloc: Global,
    l: &Layout<'_>,
    next: u32,
    ty: TypeId,
    x: Track,
) -> Result<Formula, AllocError>
    ensures { IfOk result (λ formula. formula ≡ formulas.is_within next l.now.types ty x) }
{
    if let Some(v) = l.types().unnamed(ty) {
        return Ok(Formula::Sub(x, live_track(l, v)));
    }
    let inner = later(next, 1)?;
    let live = is_live(alloc, l, inner, ty, next)?;
    all1(alloc, next, imp(alloc, Formula::Sub(Track(next), x), live)?)
}

/// A variable is the empty set or the root.
fn is_truth(alloc: Global, next: u32, x: Track) -> Result<Formula, AllocError>
    ensures { IfOk result (λ formula. formula ≡ formulas.is_truth next x) }
{
    let empty = empty_at(alloc, next, x)?;
    or(alloc, empty, Formula::Root(x))
}

/// A variable is the live cell of a type in a slot, where one is there.
fn is_in_slot(
    alloc: Global,
    l: &Layout<'_>,
    next: u32,
    number: u32,
    ty: TypeId,
    x: Track,
) -> Result<Formula, AllocError>
    ensures { IfOk result (λ formula. formula ≡ formulas.is_in_slot next l.now.types number ty x) }
{
    let inner = later(next, 1)?;
    let there = slot(alloc, inner, number, Track(next))?;
    let live = is_live(alloc, l, inner, ty, next)?;
    let both = Formula::and(alloc, there, live)?;
    all1(alloc, next, iff(alloc, Formula::Sub(Track(next), x), both)?)
}

/// A variable is no or one live cell of a type.
fn is_pointer(
    alloc: Global,
    l: &Layout<'_>,
    next: u32,
    ty: TypeId,
    x: Track,
) -> Result<Formula, AllocError>
    ensures { IfOk result (λ formula. formula ≡ formulas.is_pointer next l.now.types ty x) }
{
    let within = is_within(alloc, l, next, ty, x)?;
    let empty = empty_at(alloc, next, x)?;
    let few = or(alloc, empty, Formula::Single(x))?;
    Formula::and(alloc, within, few)
}

/// What is said of a variable of a kind.
fn var_part(
    alloc: Global,
    l: &Layout<'_>,
    next: u32,
    number: u32,
    x: Track,
    kind: VarKind,
) -> Result<Formula, AllocError>
    ensures { IfOk result (λ formula. formula ≡ var_part next l.now.types number x kind) }
{
    match kind {
        VarKind::Bool | VarKind::LogicBool => is_truth(alloc, next, x),
        VarKind::Data(ty) => is_in_slot(alloc, l, next, number, ty, x),
        VarKind::Pointer(ty) => is_pointer(alloc, l, next, ty, x),
        VarKind::LogicSet(ty) => is_within(alloc, l, next, ty, x),
    }
}

/// What is said of a variable.
pub(crate) fn push_var(
    alloc: Global,
    parts: &mut Vec<Formula>,
    l: &Layout<'_>,
    next: u32,
    v: VarId,
) -> Result<(), AllocError>
    ensures { OnOk result (parts.new.items ≡ parts.old.items ++ var_parts next l.now.types l.now.vars v) }
{
    if let Some(kind) = l.vars().kind(v) {
        let number = l.slot(v).unwrap_or(0);
        let x = track_or_first(l.var_track(v));
        parts.push(var_part(alloc, l, next, number, x, *kind)?)?;
    }
    Ok(())
}
