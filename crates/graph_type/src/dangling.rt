//! Values and fields that name dead cells, as formulas.

ghost use Rattle.std.specs.Prelude.{◌≡◌, ◌++◌, [], ◌∷◌, map, IfOk, OnOk};
ghost use Rattle.ws2s_core.specs.declared.formula.Formula.TheVariants.{Not};
ghost use Rattle.ws2s_forms.specs.Forms as forms;
ghost use Rattle.graph_view.specs.Cuts as formulas;
ghost use Rattle.graph_view.specs.Live as live;
ghost use Rattle.graph_view.specs.Routes as routes;
ghost use Rattle.graph_view.specs.Sights.{sight_of};

use graph_cells::{Kinds, all_three, fields_of_kind, is_dead, is_not_live, lives_in, some_pair};
use graph_routes::names;
use graph_view::{Sym, View};
use std::alloc::{AllocError, Global};
use store_core::FieldId;
use tree_encode::Layout;
use ws2s_core::Formula;
use ws2s_forms::{later, or_list};

/// The field of the live cell on track `a` names the dead cell on track `b`.
fn dangles_at(
    alloc: Global,
    l: &Layout<'_>,
    view: &View,
    next: u32,
    f: FieldId,
    a: u32,
    b: u32,
) -> Result<Formula, AllocError>
    ensures { IfOk result (λ formula. formula ≡ forms.and_list next
        (live.lives_in l.now.types (sight_of l.now.vars view.now) next f.ty a
        ∷ routes.names l.now.types (sight_of l.now.vars view.now) next f a b
        ∷ Not (live.is_live l.now.types (sight_of l.now.vars view.now) next b) ∷ [])) }
{
    let owned = lives_in(alloc, l, view, next, f.ty, a)?;
    let named = names(alloc, l, view, next, f, a, b)?;
    let dead = is_not_live(alloc, l, view, next, b)?;
    all_three(alloc, next, owned, named, dead)
}

/// The field of some live cell names a dead cell.
fn field_dangles(
    alloc: Global,
    l: &Layout<'_>,
    view: &View,
    next: u32,
    f: FieldId,
) -> Result<Formula, AllocError>
    ensures { IfOk result (λ formula. formula ≡ formulas.field_dangles l.now.types (sight_of l.now.vars view.now) next f) }
{
    let other = later(next, 1)?;
    let named = dangles_at(alloc, l, view, later(next, 2)?, f, next, other)?;
    some_pair(alloc, next, other, named)
}

/// One of the values is a dead cell.
fn push_dead(
    alloc: Global,
    parts: &mut Vec<Formula>,
    l: &Layout<'_>,
    view: &View,
    next: u32,
    cells: &[Sym],
) -> Result<(), AllocError>
    ensures { OnOk result (parts.new.items
        ≡ parts.old.items ++ map (live.is_dead l.now.types (sight_of l.now.vars view.now) next) cells.now) }
{
    for value in cells {
        parts.push(is_dead(alloc, l, view, next, *value)?)?;
    }
    Ok(())
}

/// One of the fields names a dead cell.
fn push_dangling(
    alloc: Global,
    parts: &mut Vec<Formula>,
    l: &Layout<'_>,
    view: &View,
    next: u32,
    fields: &[FieldId],
) -> Result<(), AllocError>
    ensures { OnOk result (parts.new.items
        ≡ parts.old.items ++ map (formulas.field_dangles l.now.types (sight_of l.now.vars view.now) next) fields.now) }
{
    for f in fields {
        parts.push(field_dangles(alloc, l, view, next, *f)?)?;
    }
    Ok(())
}

/// One of these values is a dead cell, or a field names one.
pub(crate) fn dangles(
    alloc: Global,
    l: &Layout<'_>,
    view: &View,
    next: u32,
    cells: &[Sym],
) -> Result<Formula, AllocError>
    ensures { IfOk result (λ formula. formula ≡ formulas.dangles l.now.types (sight_of l.now.vars view.now) cells.now next) }
{
    let fields = fields_of_kind(alloc, l.types(), Kinds::References)?;
    let mut parts = Vec::new(alloc);
    push_dead(alloc, &mut parts, l, view, next, cells)?;
    push_dangling(alloc, &mut parts, l, view, next, fields.as_slice())?;
    or_list(alloc, next, parts)
}
