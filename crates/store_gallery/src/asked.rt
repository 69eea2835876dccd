//! The formula that a line asks for, behind its `?`.

use crate::lines::{Stop, field_at, number_at, sym_at, variant_at, word_at};
use crate::programs::{route_in, walking_program};
use graph_cells::{has, is_dead, is_live, is_null};
use graph_routes::{
    bool_formula, field_formula, live_formula, step_formula, variant_formula, walk_formula,
};
use graph_type::{closes, cut_formula};
use graph_view::{CutCheck, View};
use pale_typed::Typed;
use std::alloc::{AllocError, Global};
use store_core::FieldId;
use tree_encode::Layout;
use tree_formula::well_encoded;
use ws2s_core::{Formula, Track};

/// What a cut is looked at for: `dangling`, `shared`, `leak` or `field`.
fn check_of(word: &str) -> Option<CutCheck> {
    match word {
        "dangling" => Some(CutCheck::DanglingRef),
        "shared" => Some(CutCheck::Shared),
        "leak" => Some(CutCheck::Leak),
        "field" => Some(CutCheck::Field),
        _ => None,
    }
}

/// `true FIELD A NEXT`, `has FIELD A NEXT`, `step FIELD A B NEXT`, or `field FIELD` whatever the view is.
fn of_field(
    alloc: Global,
    l: &Layout<'_>,
    view: &View,
    field: FieldId,
    line: &str,
) -> Result<Formula, AllocError> {
    let cell = number_at(line, 3);
    let other = number_at(line, 4);
    match word_at(line, 1) {
        "true" => bool_formula(alloc, l, view, field, Track(cell), other),
        "has" => has(alloc, l, view, other, field, cell),
        "step" => {
            let next = number_at(line, 5);
            step_formula(alloc, l, view, field, Track(cell), Track(other), next)
        }
        _ => field_formula(alloc, l, field),
    }
}

/// What a line says of a walk along the route of a program.
fn walk_in(
    alloc: Global,
    l: &Layout<'_>,
    typed: &Typed,
    view: &View,
    line: &str,
) -> Result<Formula, Stop> {
    let Some(route) = route_in(typed) else {
        return Err(Stop);
    };
    let (from, to) = (Track(number_at(line, 4)), Track(number_at(line, 5)));
    let pointers = word_at(line, 3) == "all";
    let next = number_at(line, 6);
    Ok(walk_formula(alloc, l, view, route, pointers, from, to, next)?)
}

/// `walk ROUTE data A B NEXT` or, over pointer fields too, `walk ROUTE all A B NEXT`.
fn walk(
    alloc: Global,
    l: &Layout<'_>,
    program: &str,
    view: &View,
    line: &str,
) -> Result<Formula, Stop> {
    let typed = walking_program(alloc, l.types(), program, word_at(line, 2))?;
    walk_in(alloc, l, &typed, view, line)
}

/// `live A NEXT`, `null VALUE`, `dead VALUE`, `trees`, or `closed SET VALUE NEXT`: the set has the value and what data fields
/// reach from it.
fn of_values(alloc: Global, l: &Layout<'_>, view: &View, line: &str) -> Result<Formula, Stop> {
    let set = number_at(line, 2);
    let made = match word_at(line, 1) {
        "live" => is_live(alloc, l, view, number_at(line, 3), set),
        "null" => is_null(alloc, view.next, sym_at(line, 2)),
        "dead" => is_dead(alloc, l, view, view.next, sym_at(line, 2)),
        "trees" => well_encoded(alloc, l),
        "closed" => closes(alloc, l, view, number_at(line, 4), &[sym_at(line, 3)], set),
        _ => return Err(Stop),
    };
    Ok(made?)
}

/// The formula of a line: `type TYPE A NEXT`, `variant VARIANT A NEXT`, `cut CHECK`, or one of those above.
pub(crate) fn formula_of(
    alloc: Global,
    l: &Layout<'_>,
    program: &str,
    view: &View,
    line: &str,
) -> Result<Formula, Stop> {
    let word = word_at(line, 2);
    let cell = Track(number_at(line, 3));
    let next = number_at(line, 4);
    let made = match word_at(line, 1) {
        "true" | "has" | "step" | "field" => {
            let field = field_at(l.types(), line, 2).ok_or(Stop)?;
            of_field(alloc, l, view, field, line)
        }
        "type" => {
            let ty = l.types().find_type(word.as_bytes()).ok_or(Stop)?;
            live_formula(alloc, l, view, ty, cell, next)
        }
        "variant" => {
            let variant = variant_at(l.types(), line, 2).ok_or(Stop)?;
            variant_formula(alloc, l, view, variant, cell, next)
        }
        "cut" => cut_formula(alloc, l, view, check_of(word).ok_or(Stop)?),
        "walk" => return walk(alloc, l, program, view, line),
        _ => return of_values(alloc, l, view, line),
    };
    Ok(made?)
}
