//! The formulas of the places where a triple can fail.

ghost use Rattle.std.specs.Prelude.{◌≡◌, ◌++◌, [], ◌∷◌, map, reverse, None, IfOk, OnOk};
ghost use Rattle.ws2s_forms.specs.Forms as forms;
ghost use Rattle.tree_encode.specs.Tracks.{track_count, var_track};
ghost use Rattle.tree_formula.specs.WellEncoded.{track_or_first};
ghost use Rattle.site_list.specs.Triples as triples;
ghost use Rattle.symbolic_steps.specs.Shown.{shown};
ghost use Rattle.pred_transform.specs.Starts as starts;

use crate::binding::bind;
use crate::claims::{claims, escapes};
use crate::codes::code;
use crate::cuts::with_part;
use graph_view::{EventList, Sym, SymList, View};
use plain_data::Items;
use std::alloc::{AllocError, Global};
use store_core::VarId;
use store_exec::{Start, Triple};
use symbolic_steps::{Walker, next_track};
use tree_encode::Layout;
use tree_formula::well_encoded_from;
use ws2s_core::{Formula, Track};
use ws2s_forms::{and_list, empty_at};

/// A variable's own track.
fn own_track(l: &Layout<'_>, v: VarId) -> Track
    ensures { result ≡ track_or_first (var_track l.now.types l.now.vars v) }
{
    match l.var_track(v) {
        Some(track) => track,
        None => Track(0),
    }
}

/// Each variable on its own track.
fn own_values(alloc: Global, l: &Layout<'_>) -> Result<SymList, AllocError>
    ensures { IfOk result (λ values. values ≡ starts.own_values l.now.types l.now.vars) }
{
    let mut values = SymList::new(alloc);
    for index in 0..l.vars().vars() {
        values.push(Sym::At(own_track(l, VarId(index))))?;
    }
    Ok(values)
}

/// The store at the start.
fn first_view(alloc: Global, l: &Layout<'_>, next: u32) -> Result<View, AllocError>
    ensures { IfOk result (λ view. view ≡ record { vars = starts.own_values l.now.types l.now.vars; events = []; region = None; next = next }) }
{
    Ok(View {
        vars: own_values(alloc, l)?,
        events: EventList::new(alloc),
        region: None,
        next,
    })
}

/// A walk before all code.
fn at_start(alloc: Global, l: &Layout<'_>, next: u32, wanted: u32) -> Result<Walker, AllocError>
    ensures { IfOk result (λ w. w ≡ shown next wanted (triples.at_start l.now.types l.now.vars)) }
{
    Ok(Walker {
        guard: None,
        view: first_view(alloc, l, next)?,
        news: 0,
        defined: Items::new(alloc),
        passed: 0,
        wanted,
        found: None,
    })
}

/// A walk before all code, with a track for the returned part of a call.
fn started(
    alloc: Global,
    l: &Layout<'_>,
    start: &Start,
    next: u32,
    wanted: u32,
) -> Result<Walker, AllocError>
    ensures { IfOk result (λ w. w ≡ shown next wanted (triples.started l.now.types l.now.vars start.now)) }
{
    let mut w = at_start(alloc, l, next, wanted)?;
    match &start.returned {
        Some(roots) => {
            let _part = with_part(alloc, l, &mut w, roots.as_slice())?;
            Ok(w)
        }
        None => Ok(w),
    }
}

/// The walk over the code of a triple.
fn walk(
    alloc: Global,
    l: &Layout<'_>,
    t: &Triple,
    next: u32,
    wanted: u32,
) -> Result<Walker, AllocError>
    ensures { IfOk result (λ w. w ≡ shown next wanted (triples.walked l.now.types l.now.vars t.now)) }
{
    let mut w = started(alloc, l, &t.start, next, wanted)?;
    code(alloc, l, &mut w, t.cuts.as_slice(), &t.code)?;
    Ok(w)
}

/// After a call, no pointer is on the wrong side of the returned part.
fn push_pointers_stay(
    alloc: Global,
    l: &Layout<'_>,
    parts: &mut Vec<Formula>,
    view: &View,
    inside: &[VarId],
    part: Option<Track>,
) -> Result<(), AllocError>
    ensures { OnOk result (parts.new.items ≡ parts.old.items ++ starts.pointers_stay l.now.vars inside.now view.now part) }
{
    if let Some(own) = part {
        let astray = escapes(alloc, l, inside, view, own)?;
        parts.push(Formula::not(alloc, astray)?)?;
    }
    Ok(())
}

/// The track of the returned part, which is the first that is made.
fn returned_part(l: &Layout<'_>, start: &Start) -> Option<Track>
    ensures { result ≡ triples.returned_part l.now.types l.now.vars start.now }
{
    match &start.returned {
        Some(_) => Some(Track(l.tracks())),
        None => None,
    }
}

/// The claims of the start hold, and after a call no pointer is on the wrong side.
fn start_holds(
    alloc: Global,
    l: &Layout<'_>,
    start: &Start,
    next: u32,
) -> Result<Formula, AllocError>
    ensures { IfOk result (λ formula. formula ≡ triples.start_holds l.now.types l.now.vars start.now next) }
{
    let part = returned_part(l, start);
    let mut view = first_view(alloc, l, next)?;
    let mut parts = claims(alloc, l, &mut view, part, start.asserts.as_slice())?;
    push_pointers_stay(alloc, l, &mut parts, &view, start.inside.as_slice(), part)?;
    and_list(alloc, next, parts)
}

/// The listed variables are null or false.
fn push_nulls(
    alloc: Global,
    l: &Layout<'_>,
    parts: &mut Vec<Formula>,
    nulls: &[VarId],
    next: u32,
) -> Result<(), AllocError>
    ensures { OnOk result (parts.new.items
        ≡ parts.old.items ++ map (λ v. forms.empty_at next (track_or_first (var_track l.now.types l.now.vars v)).0) nulls.now) }
{
    for v in nulls {
        parts.push(empty_at(alloc, next, own_track(l, *v))?)?;
    }
    Ok(())
}

/// A formula with the tracks that were made bound.
fn push_bound(
    alloc: Global,
    l: &Layout<'_>,
    parts: &mut Vec<Formula>,
    defined: &[Formula],
    formula: Formula,
) -> Result<(), AllocError>
    ensures { OnOk result (parts.new.items
        ≡ parts.old.items ++ triples.bind (track_count l.now.types l.now.vars) (reverse defined.now) formula ∷ []) }
{
    parts.push(bind(alloc, l.tracks(), defined, formula)?)?;
    Ok(())
}

/// The formula of a place, whose own one is `place`.
fn site_formula(
    alloc: Global,
    l: &Layout<'_>,
    start: &Start,
    defined: &[Formula],
    next: u32,
    place: Formula,
) -> Result<Formula, AllocError>
    ensures { IfOk result (λ formula. formula ≡ starts.site_of_place l.now.types l.now.vars start.now defined.now next place) }
{
    let tree = well_encoded_from(alloc, l, next)?;
    let mut parts = vec![in alloc; tree]?;
    push_nulls(alloc, l, &mut parts, start.nulls.as_slice(), next)?;
    let holds = start_holds(alloc, l, start, next)?;
    push_bound(alloc, l, &mut parts, defined, holds)?;
    push_bound(alloc, l, &mut parts, defined, place)?;
    and_list(alloc, next, parts)
}

/// The first track that quantifiers bind: behind those of the layout and all that a walk over the code makes.
fn first_bound(alloc: Global, l: &Layout<'_>, t: &Triple, site: u32) -> Result<u32, AllocError>
    ensures { IfOk result (λ next. next ≡ triples.first_bound l.now.types l.now.vars (triples.walked l.now.types l.now.vars t.now)) }
{
    let first = walk(alloc, l, t, 0, site)?;
    let next = next_track(l, &first)?;
    Ok(next.0)
}

/// The formula of the site of a triple with this number, counted from 0: which trees are those of stores that meet the triple and
/// fail there. `None` exactly where no site has the number.
///
/// # Errors
///
/// Want of memory, also where there are not as many tracks, places or new cells as a `u32` counts.
pub fn triple_formula(
    alloc: Global,
    l: &Layout<'_>,
    t: &Triple,
    site: u32,
) -> Result<Option<Formula>, AllocError>
    ensures value { IfOk result (λ formula. formula ≡ triples.site_formula l.now.types l.now.vars t.now site) }
{
    let next = first_bound(alloc, l, t, site)?;
    let w = walk(alloc, l, t, next, site)?;
    let Walker {
        defined,
        found,
        guard: _guard,
        view: _view,
        news: _news,
        passed: _passed,
        wanted: _wanted,
    } = w;
    match found {
        Some(place) => Ok(Some(site_formula(alloc, l, &t.start, defined.as_slice(), next, place)?)),
        None => Ok(None),
    }
}
