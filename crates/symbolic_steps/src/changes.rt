//! Assignments and `free`: where they can fail, and what they lead to.

ghost use Rattle.std.specs.Prelude.{◌≡◌, ◌++◌, ◌∷◌, [], ℕ, false, IfOk, OnOk};
ghost use Rattle.std.specs.Option.{option_map_or};
ghost use Rattle.store_core.specs.Tables.{var_at};
ghost use Rattle.tree_encode.specs.Counting.{is_data_var};
ghost use Rattle.graph_view.specs.Sights as sights;
ghost use Rattle.site_list.specs.Acts as acts;
ghost use Rattle.symbolic_steps.specs.Shown.{Leads, Gets, Makes};

use crate::conditions::condition;
use crate::places::{check_access, check_dead, check_null};
use crate::reading::{operand_value, read_along};
use crate::seeing::is_truth_of;
use crate::walker::{Walker, define, happens, next_track, reached, set_value, value_of};
use graph_view::{Event, Sym};
use std::alloc::{AllocError, Global};
use store_core::{FieldId, VarId, VarKind, VarTable, VariantId};
use store_logic::{Act, Path, Rhs};
use tree_encode::Layout;
use ws2s_core::Formula;
use ws2s_forms::{later, slot};

/// A variable holds the root of a tree.
fn is_data(vars: &VarTable, v: VarId) -> bool
    ensures { result ≡ option_map_or is_data_var (var_at vars.now v) false }
{
    matches!(vars.kind(v), Some(VarKind::Data(_)))
}

/// How many slots there are for data variables.
fn var_slots(vars: &VarTable) -> u32
    ensures { result ≡ sights.var_slots vars.now }
{
    let mut count = 0;
    for index in 0..vars.vars() {
        if is_data(vars, VarId(index)) {
            count += 1;
        }
    }
    count
}

/// A truth value on a track.
///
/// # Errors
///
/// Want of memory, also where there are not as many tracks.
pub fn made_truth(
    alloc: Global,
    l: &Layout<'_>,
    w: &mut Walker,
    holds: &Formula,
) -> Result<Sym, AllocError>
    ensures { IfOk result (λ value. Gets holds.now w.old w.new value (λ text s. acts.made_truth l.now.types l.now.vars (text, s))) }
{
    let own = next_track(l, w)?;
    let definition = is_truth_of(alloc, w.view.next, holds, own)?;
    define(w, definition)?;
    Ok(Sym::At(own))
}

/// The next new cell, in its slot.
fn made_cell(
    alloc: Global,
    l: &Layout<'_>,
    w: &mut Walker,
    variant: VariantId,
) -> Result<Sym, AllocError>
    ensures { IfOk result (λ value. Makes w.old w.new value (acts.made_cell l.now.types l.now.vars variant)) }
{
    let own = next_track(l, w)?;
    let before = var_slots(l.vars());
    let number = later(before, w.news)?;
    let definition = slot(alloc, w.view.next, number, own)?;
    let event = Event::New(w.guard, w.news, variant);
    happens(w, event)?;
    let more = later(w.news, 1)?;
    w.news = more;
    define(w, definition)?;
    Ok(Sym::At(own))
}

/// What is assigned.
fn evaluate(alloc: Global, l: &Layout<'_>, w: &mut Walker, value: &Rhs) -> Result<Sym, AllocError>
    ensures { IfOk result (λ found. (line : ℕ) → Makes w.old w.new found (acts.evaluated l.now.types l.now.vars line value.now)) }
{
    match value {
        Rhs::Cell(operand) => {
            let here = reached(alloc, w)?;
            Ok(operand_value(alloc, l, w, &here, operand)?)
        }
        Rhs::New(variant) => Ok(made_cell(alloc, l, w, *variant)?),
        Rhs::Truth(cond) => {
            let here = reached(alloc, w)?;
            let holds = condition(alloc, l, w, &here, cond)?;
            Ok(made_truth(alloc, l, w, &holds)?)
        }
    }
}

/// The field of the cell gets the value.
fn write(
    alloc: Global,
    l: &Layout<'_>,
    w: &mut Walker,
    cell: Sym,
    field: FieldId,
    value: Sym,
) -> Result<(), AllocError>
    ensures { OnOk result ((line : ℕ) → Leads w.old w.new (λ s. acts.write_field l.now.types l.now.vars line cell field (value, s))) }
{
    let here = reached(alloc, w)?;
    check_access(alloc, l, w, &here, field, cell)?;
    let event = Event::Write(w.guard, cell, field, value);
    happens(w, event)?;
    Ok(())
}

/// A variable gets what is assigned.
fn assign_var(
    alloc: Global,
    l: &Layout<'_>,
    w: &mut Walker,
    v: VarId,
    value: &Rhs,
) -> Result<(), AllocError>
    ensures { OnOk result ((line : ℕ) → Leads w.old w.new (acts.assigned l.now.types l.now.vars line v [] value.now)) }
{
    let found = evaluate(alloc, l, w, value)?;
    set_value(w, v, found);
    Ok(())
}

/// The last field of a place, behind fields that are read, gets what is assigned.
fn assign_field(
    alloc: Global,
    l: &Layout<'_>,
    w: &mut Walker,
    v: VarId,
    before: &[FieldId],
    field: FieldId,
    value: &Rhs,
) -> Result<(), AllocError>
    ensures { OnOk result ((line : ℕ) → Leads w.old w.new
        (acts.assigned l.now.types l.now.vars line v (before.now ++ field ∷ []) value.now)) }
{
    let here = reached(alloc, w)?;
    let first = value_of(w.view.vars.as_slice(), v);
    let cell = read_along(alloc, l, w, &here, before, first)?;
    let found = evaluate(alloc, l, w, value)?;
    write(alloc, l, w, cell, field, found)?;
    Ok(())
}

/// `p = e;`
///
/// # Errors
///
/// Want of memory, also where there are not as many tracks.
pub fn assign(
    alloc: Global,
    l: &Layout<'_>,
    w: &mut Walker,
    place: &Path,
    value: &Rhs,
) -> Result<(), AllocError>
    ensures { OnOk result ((line : ℕ) → Leads w.old w.new
        (acts.assigned l.now.types l.now.vars line place.now.var place.now.fields value.now)) }
{
    match place.fields.as_slice().split_last() {
        None => {
            assign_var(alloc, l, w, place.var, value)?;
            Ok(())
        }
        Some((last, before)) => {
            assign_field(alloc, l, w, place.var, before, *last, value)?;
            Ok(())
        }
    }
}

/// `free x;`
///
/// # Errors
///
/// Want of memory, also where there are not as many tracks.
pub fn free(alloc: Global, l: &Layout<'_>, w: &mut Walker, v: VarId) -> Result<(), AllocError>
    ensures { OnOk result ((line : ℕ) → Leads w.old w.new (acts.act_rule l.now.types l.now.vars line (Act.Free v))) }
{
    let cell = value_of(w.view.vars.as_slice(), v);
    let here = reached(alloc, w)?;
    check_null(alloc, w, &here, cell)?;
    check_dead(alloc, l, w, &here, cell)?;
    let event = Event::Free(w.guard, cell);
    happens(w, event)?;
    Ok(())
}
