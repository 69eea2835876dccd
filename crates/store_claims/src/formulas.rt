//! The formulas of claims.

ghost use Rattle.std.specs.Prelude.{◌≡◌, map, IfOk};
ghost use Rattle.tree_encode.specs.Tracks.{var_track};
ghost use Rattle.tree_formula.specs.WellEncoded.{track_or_first};
ghost use Rattle.graph_view.specs.Sights.{sight_of};
ghost use Rattle.graph_meaning.specs.Fields.Beginning.{first_view, own_tracks};
ghost use Rattle.site_list.specs.States as states;
ghost use Rattle.site_list.specs.Parts as parts;
ghost use Rattle.store_claims.specs.Formulas as formulas;

use claim_formula::assertion_formula;
use graph_type::closes;
use graph_view::{EventList, Sym, SymList, View};
use std::alloc::{AllocError, Global};
use store_core::VarId;
use store_exec::Claim;
use store_logic::{Assertion, Region};
use symbolic_steps::value_of;
use tree_encode::Layout;
use ws2s_core::{Formula, Track};
use ws2s_forms::{all2, imp, later};

/// A variable's own track.
fn own_track(l: &Layout<'_>, v: VarId) -> Track
    ensures { result ≡ track_or_first (var_track l.now.types l.now.vars v) }
{
    match l.var_track(v) {
        Some(track) => track,
        None => Track(0),
    }
}

/// Each variable on its own track.
fn own_values(alloc: Global, l: &Layout<'_>) -> Result<SymList, AllocError>
    ensures { IfOk result (λ values. values ≡ own_tracks l.now.types l.now.vars) }
{
    let mut values = SymList::new(alloc);
    for index in 0..l.vars().vars() {
        values.push(Sym::At(own_track(l, VarId(index))))?;
    }
    Ok(values)
}

/// The store as it is, with this first track that isn't in use.
fn view_from(alloc: Global, l: &Layout<'_>, next: u32) -> Result<View, AllocError>
    ensures { IfOk result (λ view. view ≡ first_view l.now.types l.now.vars next) }
{
    Ok(View {
        vars: own_values(alloc, l)?,
        events: EventList::new(alloc),
        region: None,
        next,
    })
}

/// What stands for each of the variables.
fn roots_of(alloc: Global, values: &[Sym], vars: &[VarId]) -> Result<SymList, AllocError>
    ensures { IfOk result (λ roots. roots ≡ map (states.value_of values.now) vars.now) }
{
    let mut roots = SymList::new(alloc);
    for v in vars {
        roots.push(value_of(values, *v))?;
    }
    Ok(roots)
}

/// The track has what data fields reach from the roots.
fn is_part(
    alloc: Global,
    l: &Layout<'_>,
    view: &View,
    next: u32,
    roots: &[Sym],
    own: Track,
) -> Result<Formula, AllocError>
    ensures { IfOk result (λ formula. formula ≡ parts.is_part l.now.types (sight_of l.now.vars view.now) roots.now own.0 next) }
{
    let inner = later(next, 1)?;
    let holds = closes(alloc, l, view, next, roots, own.0)?;
    let other = closes(alloc, l, view, inner, roots, next)?;
    let within = imp(alloc, other, Formula::Sub(own, Track(next)))?;
    let least = all2(alloc, next, within)?;
    Formula::and(alloc, holds, least)
}

/// The assertion on all cells.
fn on_all(alloc: Global, l: &Layout<'_>, assertion: &Assertion) -> Result<Formula, AllocError>
    ensures { IfOk result (λ formula. formula ≡ formulas.on_all l.now.types l.now.vars assertion.now) }
{
    let next = l.tracks();
    let view = view_from(alloc, l, next)?;
    assertion_formula(alloc, l, &view, next, assertion)
}

/// The assertion on the part of these data variables, or on the rest.
fn on_part(
    alloc: Global,
    l: &Layout<'_>,
    roots: &[VarId],
    inside: bool,
    assertion: &Assertion,
) -> Result<Formula, AllocError>
    ensures { IfOk result (λ formula. formula ≡ formulas.on_part l.now.types l.now.vars roots.now inside assertion.now) }
{
    let own = Track(l.tracks());
    let next = later(own.0, 1)?;
    let mut view = view_from(alloc, l, next)?;
    let values = roots_of(alloc, view.vars.as_slice(), roots)?;
    let part = is_part(alloc, l, &view, next, values.as_slice(), own)?;
    view.region = Some((own, inside));
    let holds = assertion_formula(alloc, l, &view, next, assertion)?;
    Formula::ex2(alloc, own, Formula::and(alloc, part, holds)?)
}

/// The formula of a claim: which trees are those of stores that meet it.
///
/// # Errors
///
/// Want of memory, also where there are not as many tracks.
pub(crate) fn formula_of(
    alloc: Global,
    l: &Layout<'_>,
    claim: &Claim,
) -> Result<Formula, AllocError>
    ensures { IfOk result (λ formula. formula ≡ formulas.formula_on l.now.types l.now.vars claim.now.region claim.now.assertion) }
{
    match &claim.region {
        Region::All => on_all(alloc, l, &claim.assertion),
        Region::Part(roots) => on_part(alloc, l, roots.as_slice(), true, &claim.assertion),
        Region::Rest(roots) => on_part(alloc, l, roots.as_slice(), false, &claim.assertion),
    }
}
