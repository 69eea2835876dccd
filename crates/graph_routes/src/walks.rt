//! Walks over data and pointer fields.

ghost use Rattle.std.specs.Prelude.{◌≡◌, map, reverse, IfOk, OnOk, IsSome, Some, ◌∷◌};
ghost use Rattle.graph_view.specs.Routes as formulas;
ghost use Rattle.graph_view.specs.Routes.{walk_rules};
ghost use Rattle.graph_view.specs.Fields.{is_reference};
ghost use Rattle.graph_view.specs.Sights.{sight_of};
ghost use Rattle.graph_routes.specs.Legs.{part_of, applied};

use crate::legs::{Leg, in_postfix};
use crate::naming::{edge, names, stay_at_leaf, stay_at_root};
use graph_cells::{
    Kinds, fields_named, join_live, rounds, stay_at_truth, stay_in_type, stay_in_variant,
};
use graph_view::View;
use std::alloc::{AllocError, Global};
use store_core::{FieldId, Route};
use tree_encode::Layout;
use ws2s_core::Formula;
use ws2s_forms::{ex1, or, or_list};

/// Each of the fields of the cell on track `a` names the cell on track `b`.
fn each_names(
    alloc: Global,
    l: &Layout<'_>,
    view: &View,
    next: u32,
    fields: &[FieldId],
    a: u32,
    b: u32,
) -> Result<Vec<Formula>, AllocError>
    ensures { IfOk result (λ parts. parts.items
        ≡ map (λ f. formulas.names l.now.types (sight_of l.now.vars view.now) next f a b) fields.now) }
{
    let mut parts = Vec::new(alloc);
    for f in fields {
        parts.push(names(alloc, l, view, next, *f, a, b)?)?;
    }
    Ok(parts)
}

/// Some cell field of the name leads from the cell on track `a` to that on track `b`.
fn down(
    alloc: Global,
    l: &Layout<'_>,
    view: &View,
    name: &[u8],
    next: u32,
    a: u32,
    b: u32,
) -> Result<Formula, AllocError>
    ensures { IfOk result (λ formula. formula ≡ formulas.down l.now.types (sight_of l.now.vars view.now)
        (formulas.names l.now.types (sight_of l.now.vars view.now)) is_reference name.now next a b) }
{
    let fields = fields_named(alloc, l.types(), name, Kinds::References)?;
    let parts = each_names(alloc, l, view, next, fields.as_slice(), a, b)?;
    join_live(alloc, l, view, next, a, b, or_list(alloc, next, parts)?)
}

/// The formula of a part of a walk, which takes those of its own parts.
fn walk_of(
    alloc: Global,
    l: &Layout<'_>,
    view: &View,
    made: &mut Vec<Formula>,
    leg: Leg<'_>,
) -> Result<Formula, AllocError>
    requires { IsSome (applied (walk_rules l.now.types (sight_of l.now.vars view.now)
        (formulas.names l.now.types (sight_of l.now.vars view.now)) is_reference) (part_of leg) (reverse made.old.items)) }
    ensures { IfOk result (λ walk. applied (walk_rules l.now.types (sight_of l.now.vars view.now)
        (formulas.names l.now.types (sight_of l.now.vars view.now)) is_reference) (part_of leg.entry) (reverse made.old.items)
        ≡ Some (walk ∷ reverse made.new.items)) }
{
    let Leg { next, from, to, .. } = leg;
    match leg.route {
        Route::Down(name) => down(alloc, l, view, name.as_slice(), next, from, to),
        Route::Up(name) => down(alloc, l, view, name.as_slice(), next, to, from),
        Route::UpAny => edge(alloc, l, view, next, to, from),
        Route::Root => stay_at_root(alloc, l, view, next, from, to),
        Route::Leaf => stay_at_leaf(alloc, l, view, next, from, to),
        Route::IsType(ty) => stay_in_type(alloc, l, view, next, *ty, from, to),
        Route::IsVariant(v) => stay_in_variant(alloc, l, view, next, *v, from, to),
        Route::IsBool(name, value) => {
            stay_at_truth(alloc, l, view, name.as_slice(), *value, next, from, to)
        }
        Route::Then(_, _) => {
            let second = made.pop().unwrap();
            let first = made.pop().unwrap();
            ex1(alloc, next, Formula::and(alloc, first, second)?)
        }
        Route::Or(_, _) => {
            let other = made.pop().unwrap();
            let one = made.pop().unwrap();
            or(alloc, one, other)
        }
        Route::Star(_) => {
            let round = made.pop().unwrap();
            rounds(alloc, l, view, next, from, to, round)
        }
    }
}

/// Puts the formula of a part of a walk in the place of those of its own parts.
fn apply(
    alloc: Global,
    l: &Layout<'_>,
    view: &View,
    made: &mut Vec<Formula>,
    leg: Leg<'_>,
) -> Result<(), AllocError>
    requires { IsSome (applied (walk_rules l.now.types (sight_of l.now.vars view.now)
        (formulas.names l.now.types (sight_of l.now.vars view.now)) is_reference) (part_of leg) (reverse made.old.items)) }
    ensures { OnOk result (applied (walk_rules l.now.types (sight_of l.now.vars view.now)
        (formulas.names l.now.types (sight_of l.now.vars view.now)) is_reference) (part_of leg.entry) (reverse made.old.items)
        ≡ Some (reverse made.new.items)) }
{
    let walk = walk_of(alloc, l, view, made, leg)?;
    made.push(walk)?;
    Ok(())
}

/// The route leads from the cell on track `from` to that on track `to`, over data and pointer fields.
///
/// # Errors
///
/// Want of memory, also where there are not as many tracks.
pub fn walk(
    alloc: Global,
    l: &Layout<'_>,
    view: &View,
    route: &Route,
    next: u32,
    from: u32,
    to: u32,
) -> Result<Formula, AllocError>
    ensures { IfOk result (λ formula. formula ≡ formulas.walk l.now.types (sight_of l.now.vars view.now) route.now next from to) }
{
    let legs = in_postfix(alloc, route, next, from, to)?;
    let mut made = Vec::new(alloc);
    for leg in legs.as_slice() {
        apply(alloc, l, view, &mut made, *leg)?;
    }
    let walk = made.pop().unwrap();
    Ok(walk)
}
