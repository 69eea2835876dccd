//! Arriving at a cut: where it can fail, in order.

ghost use Rattle.std.specs.Prelude.{◌≡◌, ℕ, map, None, IfOk, OnOk};
ghost use Rattle.ws2s_core.specs.declared.formula.Formula.TheVariants.{Not};
ghost use Rattle.ws2s_forms.specs.Forms.{track};
ghost use Rattle.graph_view.specs.Cuts.{cut_formula};
ghost use Rattle.graph_view.specs.Sights.{sight_of};
ghost use Rattle.site_list.specs.States as states;
ghost use Rattle.site_list.specs.Parts as escaping;
ghost use Rattle.site_list.specs.Cuts as cuts;
ghost use Rattle.symbolic_steps.specs.Shown.{checked, shown, Leads};
ghost use Rattle.pred_transform.specs.Holding.{claims_hold};

use graph_type::{closes, cut_formula};
use graph_view::{CutCheck, Sym, SymList, View};
use start_formula::{claims, escapes};
use std::alloc::{AllocError, Global};
use store_core::VarId;
use store_exec::{Claim, Cut};
use symbolic_steps::{Walker, define, find, next_track, passes, reached, value_of};
use tree_encode::Layout;
use ws2s_core::{Formula, Track};
use ws2s_forms::{all2, and_list, imp, later};

/// What stands for each of the variables.
fn roots_of(alloc: Global, values: &[Sym], vars: &[VarId]) -> Result<SymList, AllocError>
    ensures { IfOk result (λ roots. roots ≡ map (states.value_of values.now) vars.now) }
{
    let mut roots = SymList::new(alloc);
    for v in vars {
        roots.push(value_of(values, *v))?;
    }
    Ok(roots)
}

/// The track has what data fields reach from the roots.
fn is_part(
    alloc: Global,
    l: &Layout<'_>,
    view: &View,
    next: u32,
    roots: &[Sym],
    own: Track,
) -> Result<Formula, AllocError>
    ensures { IfOk result (λ formula. formula ≡ escaping.is_part l.now.types (sight_of l.now.vars view.now) roots.now own.0 next) }
{
    let inner = later(next, 1)?;
    let holds = closes(alloc, l, view, next, roots, own.0)?;
    let other = closes(alloc, l, view, inner, roots, next)?;
    let within = imp(alloc, other, Formula::Sub(own, Track(next)))?;
    let least = all2(alloc, next, within)?;
    Formula::and(alloc, holds, least)
}

/// The part with these roots, on a track that is made for it.
pub(crate) fn with_part(
    alloc: Global,
    l: &Layout<'_>,
    w: &mut Walker,
    roots: &[VarId],
) -> Result<Track, AllocError>
    ensures { IfOk result (λ own. (next wanted : ℕ) (s : states.State) → w.old ≡ shown next wanted s →
        (own ≡ track (states.next_track l.now.types l.now.vars s)) × (w.new ≡ shown next wanted (cuts.with_part l.now.types l.now.vars roots.now s))) }
{
    let own = next_track(l, w)?;
    let values = roots_of(alloc, w.view.vars.as_slice(), roots)?;
    let definition = is_part(alloc, l, &w.view, w.view.next, values.as_slice(), own)?;
    define(w, definition)?;
    Ok(own)
}

/// One of the conditions on the store as it is.
fn check_store(
    alloc: Global,
    l: &Layout<'_>,
    w: &mut Walker,
    reached: &Formula,
    look: CutCheck,
) -> Result<(), AllocError>
    ensures { OnOk result (w.new
        ≡ checked reached.now (cut_formula l.now.types (sight_of l.now.vars w.old.view) l.now.vars w.old.view.vars look w.old.view.next) w.old) }
{
    if !passes(w)? {
        return Ok(());
    }
    let condition = cut_formula(alloc, l, &w.view, look)?;
    find(alloc, w, reached, condition)
}

/// The conditions on the store, in order.
fn check_stores(
    alloc: Global,
    l: &Layout<'_>,
    w: &mut Walker,
    reached: &Formula,
) -> Result<(), AllocError>
    ensures { OnOk result ((line next wanted : ℕ) (s : states.State) → reached.now ≡ states.guard s next → w.old ≡ shown next wanted s →
        w.new ≡ shown next wanted (cuts.check_stores l.now.types l.now.vars line s)) }
{
    check_store(alloc, l, w, reached, CutCheck::DanglingRef)?;
    check_store(alloc, l, w, reached, CutCheck::Shared)?;
    check_store(alloc, l, w, reached, CutCheck::Leak)?;
    check_store(alloc, l, w, reached, CutCheck::Field)?;
    Ok(())
}

/// At a call: some pointer variable names a cell on the wrong side of the part.
fn check_pointers(
    alloc: Global,
    l: &Layout<'_>,
    w: &mut Walker,
    reached: &Formula,
    inside: &[VarId],
    part: Track,
) -> Result<(), AllocError>
    ensures { OnOk result (w.new
        ≡ checked reached.now (escaping.escapes l.now.vars inside.now w.old.view.vars part.0 w.old.view.next) w.old) }
{
    if !passes(w)? {
        return Ok(());
    }
    let condition = escapes(alloc, l, inside, &w.view, part)?;
    find(alloc, w, reached, condition)
}

/// A claim is false.
fn check_claims(
    alloc: Global,
    l: &Layout<'_>,
    w: &mut Walker,
    reached: &Formula,
    asserts: &[Claim],
    part: Option<Track>,
) -> Result<(), AllocError>
    ensures { OnOk result (w.new
        ≡ checked reached.now (Not (claims_hold l.now.types (sight_of l.now.vars w.old.view) w.old.view.vars part asserts.now w.old.view.next)) w.old) }
{
    if !passes(w)? {
        return Ok(());
    }
    let parts = claims(alloc, l, &mut w.view, part, asserts)?;
    let holds = and_list(alloc, w.view.next, parts)?;
    find(alloc, w, reached, Formula::not(alloc, holds)?)
}

/// Arrives at a cut at a call.
fn arrive_at_call(
    alloc: Global,
    l: &Layout<'_>,
    w: &mut Walker,
    cut: &Cut,
    roots: &[VarId],
) -> Result<(), AllocError>
    ensures { OnOk result (Leads w.old w.new
        (λ s. cuts.arrived_at_call l.now.types l.now.vars cut.now (states.next_track l.now.types l.now.vars s)
        (cuts.with_part l.now.types l.now.vars roots.now s))) }
{
    let part = with_part(alloc, l, w, roots)?;
    let here = reached(alloc, w)?;
    check_stores(alloc, l, w, &here)?;
    check_pointers(alloc, l, w, &here, cut.inside.as_slice(), part)?;
    check_claims(alloc, l, w, &here, cut.asserts.as_slice(), Some(part))?;
    Ok(())
}

/// Arrives at a cut that isn't at a call.
fn arrive_alone(alloc: Global, l: &Layout<'_>, w: &mut Walker, cut: &Cut) -> Result<(), AllocError>
    ensures { OnOk result (Leads w.old w.new
        (λ s. cuts.check_claims l.now.types l.now.vars cut.now None (cuts.check_stores l.now.types l.now.vars cut.now.line s))) }
{
    let here = reached(alloc, w)?;
    check_stores(alloc, l, w, &here)?;
    check_claims(alloc, l, w, &here, cut.asserts.as_slice(), None)?;
    Ok(())
}

/// Arrives at a cut.
pub(crate) fn arrive(
    alloc: Global,
    l: &Layout<'_>,
    w: &mut Walker,
    cut: &Cut,
) -> Result<(), AllocError>
    ensures { OnOk result (Leads w.old w.new (cuts.arrived l.now.types l.now.vars cut.now)) }
{
    match &cut.handed {
        Some(roots) => {
            arrive_at_call(alloc, l, w, cut, roots.as_slice())?;
            Ok(())
        }
        None => {
            arrive_alone(alloc, l, w, cut)?;
            Ok(())
        }
    }
}
