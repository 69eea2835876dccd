//! Forms of assertions without parts, as formulas.

ghost use Rattle.std.specs.Prelude.{◌≡◌, [], ◌∷◌, IfOk};
ghost use Rattle.ws2s_forms.specs.Forms as forms;
ghost use Rattle.graph_view.specs.Routes as routes;
ghost use Rattle.graph_view.specs.Sights.{sight_of};
ghost use Rattle.site_list.specs.Claims as formulas;
ghost use Rattle.claim_formula.specs.Joining.{variant_formula, same_formula, member_formula, subset_formula, walk_formula};

use crate::terms::{base_value, is_value};
use graph_cells::{is_in, is_live, lives};
use graph_routes::walk;
use graph_view::View;
use std::alloc::{AllocError, Global};
use store_core::{Route, VariantId};
use store_logic::{Base, Term};
use tree_encode::Layout;
use ws2s_core::Formula;
use ws2s_forms::{all1, and_list, ex1, iff, imp, later};

/// `t:v`.
pub(crate) fn variant_formula(
    alloc: Global,
    l: &Layout<'_>,
    view: &View,
    next: u32,
    term: &Term,
    variant: VariantId,
) -> Result<Formula, AllocError>
    ensures { IfOk result (λ formula. formula
        ≡ variant_formula l.now.types (sight_of l.now.vars view.now) view.now.vars term.now variant next) }
{
    let inner = later(next, 1)?;
    let value = is_value(alloc, l, view, next, inner, term, next)?;
    let live = lives(alloc, l, view, inner, variant, next)?;
    ex1(alloc, next, Formula::and(alloc, value, live)?)
}

/// `t = u`.
pub(crate) fn same_formula(
    alloc: Global,
    l: &Layout<'_>,
    view: &View,
    next: u32,
    one: &Term,
    other: &Term,
) -> Result<Formula, AllocError>
    ensures { IfOk result (λ formula. formula
        ≡ same_formula l.now.types (sight_of l.now.vars view.now) view.now.vars one.now other.now next) }
{
    let inner = later(next, 1)?;
    let left = is_value(alloc, l, view, next, inner, one, next)?;
    let right = is_value(alloc, l, view, next, inner, other, next)?;
    all1(alloc, next, iff(alloc, left, right)?)
}

/// `t in S`.
pub(crate) fn member_formula(
    alloc: Global,
    l: &Layout<'_>,
    view: &View,
    next: u32,
    term: &Term,
    set: Base,
) -> Result<Formula, AllocError>
    ensures { IfOk result (λ formula. formula
        ≡ member_formula l.now.types (sight_of l.now.vars view.now) view.now.vars term.now set next) }
{
    let inner = later(next, 1)?;
    let value = is_value(alloc, l, view, next, inner, term, next)?;
    let within = is_in(alloc, inner, next, base_value(view, next, set))?;
    ex1(alloc, next, Formula::and(alloc, value, within)?)
}

/// `S sub U`.
pub(crate) fn subset_formula(
    alloc: Global,
    l: &Layout<'_>,
    view: &View,
    next: u32,
    one: Base,
    other: Base,
) -> Result<Formula, AllocError>
    ensures { IfOk result (λ formula. formula
        ≡ subset_formula l.now.types (sight_of l.now.vars view.now) view.now.vars one other next) }
{
    let inner = later(next, 1)?;
    let live = is_live(alloc, l, view, inner, next)?;
    let within = is_in(alloc, inner, next, base_value(view, next, one))?;
    let both = Formula::and(alloc, live, within)?;
    let there = is_in(alloc, inner, next, base_value(view, next, other))?;
    all1(alloc, next, imp(alloc, both, there)?)
}

/// The values of two terms are the live cells on the tracks `own` and `second`, and the route leads from the first to the second; the
/// terms stand where `own` is the next track.
fn walk_between(
    alloc: Global,
    l: &Layout<'_>,
    view: &View,
    own: u32,
    second: u32,
    next: u32,
    from: &Term,
    route: &Route,
    to: &Term,
) -> Result<Formula, AllocError>
    ensures { IfOk result (λ formula. formula ≡ forms.and_list next
        (formulas.is_value l.now.types (sight_of l.now.vars view.now) view.now.vars own from.now next own
        ∷ formulas.is_value l.now.types (sight_of l.now.vars view.now) view.now.vars own to.now next second
        ∷ routes.walk l.now.types (sight_of l.now.vars view.now) route.now next own second ∷ [])) }
{
    let start = is_value(alloc, l, view, own, next, from, own)?;
    let end = is_value(alloc, l, view, own, next, to, second)?;
    let leads = walk(alloc, l, view, route, next, own, second)?;
    and_list(alloc, next, vec![in alloc; start, end, leads]?)
}

/// `t<R>u`.
pub(crate) fn walk_formula(
    alloc: Global,
    l: &Layout<'_>,
    view: &View,
    next: u32,
    from: &Term,
    route: &Route,
    to: &Term,
) -> Result<Formula, AllocError>
    ensures { IfOk result (λ formula. formula
        ≡ walk_formula l.now.types (sight_of l.now.vars view.now) view.now.vars from.now route.now to.now next) }
{
    let second = later(next, 1)?;
    let inner = later(second, 1)?;
    let leads = walk_between(alloc, l, view, next, second, inner, from, route, to)?;
    let some = ex1(alloc, second, leads)?;
    ex1(alloc, next, some)
}
