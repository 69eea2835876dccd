//! Bool and data fields after heap events.

ghost use Rattle.std.specs.Prelude.{◌≡◌, [], ◌∷◌, None, reverse, IfOk};
ghost use Rattle.ws2s_core.specs.declared.formula.Formula.TheVariants.{And, Not};
ghost use Rattle.ws2s_forms.specs.Forms as forms;
ghost use Rattle.graph_view.specs.Syms as syms;
ghost use Rattle.graph_view.specs.Fields as formulas;
ghost use Rattle.graph_view.specs.Sights.{var_slots, at_first, sight_of};
ghost use Rattle.graph_cells.specs.Saying.{says};

use crate::live::{has, lives_in};
use crate::slots::track_or_first;
use crate::syms::{all_three, guard, is_in, is_unchanged, truth};
use graph_view::{Event, EventList, Sym, SymList, View};
use std::alloc::{AllocError, Global};
use store_core::{FieldId, TypeId};
use tree_encode::Layout;
use ws2s_core::{Formula, Track};
use ws2s_forms::{child, or};

/// What is said of a value that a field holds.
#[derive(Clone, Copy)]
pub enum Saying {
    /// It is the cell on the track.
    Cell(u32),
    /// It is true.
    True,
}

/// It is said of the value.
fn says(alloc: Global, next: u32, saying: Saying, value: Sym) -> Result<Formula, AllocError>
    ensures { IfOk result (λ formula. formula ≡ says next saying value) }
{
    match saying {
        Saying::Cell(b) => is_in(alloc, next, b, value),
        Saying::True => truth(alloc, next, value),
    }
}

/// The same field.
fn is_field(f: FieldId, g: FieldId) -> bool
    ensures { result ≡ formulas.is_field f g }
{
    f.ty.0 == g.ty.0 && f.index == g.index
}

/// The event is taken, its cell is on track `a`, and this is said of the value that it writes.
fn is_written(
    alloc: Global,
    next: u32,
    a: u32,
    taken: Option<Track>,
    cell: Sym,
    said: Formula,
) -> Result<Formula, AllocError>
    ensures { IfOk result (λ formula. formula
        ≡ forms.and_list next (syms.guard next taken ∷ syms.is_in next a cell ∷ said ∷ [])) }
{
    let guarded = guard(alloc, next, taken)?;
    let here = is_in(alloc, next, a, cell)?;
    all_three(alloc, next, guarded, here, said)
}

/// The event leaves the field of the cell on track `a`, of whose value this is said before it.
fn is_kept(
    alloc: Global,
    next: u32,
    a: u32,
    taken: Option<Track>,
    cell: Sym,
    earlier: Formula,
) -> Result<Formula, AllocError>
    ensures { IfOk result (λ formula. formula ≡ And (Not (syms.is_changed next a taken cell)) earlier) }
{
    let unchanged = is_unchanged(alloc, next, a, taken, cell)?;
    Formula::and(alloc, unchanged, earlier)
}

/// What one event makes of the formula of a field's value.
fn written(
    alloc: Global,
    next: u32,
    f: FieldId,
    a: u32,
    saying: Saying,
    event: Event,
    earlier: Formula,
) -> Result<Formula, AllocError>
    ensures { IfOk result (λ formula. formula ≡ formulas.written next f a (says next saying) event earlier) }
{
    let Event::Write(taken, cell, field, value) = event else {
        return Ok(earlier);
    };
    if !is_field(f, field) {
        return Ok(earlier);
    }
    let said = says(alloc, next, saying, value)?;
    let new = is_written(alloc, next, a, taken, cell, said)?;
    let old = is_kept(alloc, next, a, taken, cell, earlier)?;
    or(alloc, new, old)
}

/// What is said of a field's value after all events, where this is said of it before them.
///
/// # Errors
///
/// Want of memory, also where there are not as many tracks.
pub fn after(
    alloc: Global,
    view: &View,
    next: u32,
    f: FieldId,
    a: u32,
    saying: Saying,
    first: Formula,
) -> Result<Formula, AllocError>
    ensures { IfOk result (λ formula. formula ≡ formulas.after next f a (says next saying) first (reverse view.now.events)) }
{
    let mut formula = first;
    for event in view.events.as_slice() {
        formula = written(alloc, next, f, a, saying, *event, formula)?;
    }
    Ok(formula)
}

/// The view of the store before all events, all of its cells. Takes no memory.
pub fn first_view(alloc: Global) -> View
    ensures events { result.events ≡ [] }
    ensures region { result.region ≡ None }
{
    View {
        vars: SymList::new(alloc),
        events: EventList::new(alloc),
        region: None,
        next: 0,
    }
}

/// The bool field of the cell on track `a` is true.
///
/// # Errors
///
/// Want of memory, also where there are not as many tracks.
pub fn is_true(
    alloc: Global,
    l: &Layout<'_>,
    view: &View,
    next: u32,
    f: FieldId,
    a: u32,
) -> Result<Formula, AllocError>
    ensures { IfOk result (λ formula. formula ≡ formulas.is_true l.now.types (sight_of l.now.vars view.now) next f a) }
{
    let first = Formula::Sub(Track(a), track_or_first(l.bool_track(f)));
    after(alloc, view, next, f, a, Saying::True, first)
}

/// Before all events the data field of the cell on track `a` leads to the cell on track `b`.
fn first_child(
    alloc: Global,
    l: &Layout<'_>,
    next: u32,
    f: FieldId,
    target: TypeId,
    a: u32,
    b: u32,
) -> Result<Formula, AllocError>
    ensures { IfOk result (λ formula. formula ≡ formulas.first_child l.now.types (at_first (var_slots l.now.vars)) next f target a b) }
{
    let first = first_view(alloc);
    let owned = has(alloc, l, &first, next, f, a)?;
    let number = l.child(f).unwrap_or(0);
    let below = child(alloc, next, number, Track(a), Track(b))?;
    let live = lives_in(alloc, l, &first, next, target, b)?;
    all_three(alloc, next, owned, below, live)
}

/// The data field of the cell on track `a` names the cell on track `b`.
///
/// # Errors
///
/// Want of memory, also where there are not as many tracks.
pub fn data_names(
    alloc: Global,
    l: &Layout<'_>,
    view: &View,
    next: u32,
    f: FieldId,
    target: TypeId,
    a: u32,
    b: u32,
) -> Result<Formula, AllocError>
    ensures { IfOk result (λ formula. formula ≡ formulas.data_names l.now.types (sight_of l.now.vars view.now) next f target a b) }
{
    let first = first_child(alloc, l, next, f, target, a, b)?;
    after(alloc, view, next, f, a, Saying::Cell(b), first)
}
