//! Cells that are named twice, as formulas.

ghost use Rattle.std.specs.Prelude.{◌≡◌, ◌++◌, [], ◌∷◌, flat_map, map, IfOk, OnOk};
ghost use Rattle.tree_formula.specs.WellEncoded.{types_in};
ghost use Rattle.ws2s_core.specs.declared.formula.Formula.TheVariants.{And, Not};
ghost use Rattle.ws2s_forms.specs.Forms as forms;
ghost use Rattle.graph_view.specs.Cuts as formulas;
ghost use Rattle.graph_view.specs.Live as live;
ghost use Rattle.graph_view.specs.Routes as routes;
ghost use Rattle.graph_view.specs.Cuts.{both_name, two_fields, pairs, field_pairs};
ghost use Rattle.graph_view.specs.Syms as syms;
ghost use Rattle.graph_view.specs.Sights.{sight_of};

use graph_cells::{Kinds, all_three, is_in, is_live, push_of_kind, some_pair};
use graph_routes::{edge, names_by_data};
use graph_view::{Sym, View};
use std::alloc::{AllocError, Global};
use store_core::{FieldId, TypeId};
use tree_encode::Layout;
use ws2s_core::{Formula, Track};
use ws2s_forms::{equal, ex1, later, or_list};

/// Both values are the cell on track `c`.
fn both_name(
    alloc: Global,
    next: u32,
    c: u32,
    value: Sym,
    other: Sym,
) -> Result<Formula, AllocError>
    ensures { IfOk result (λ formula. formula ≡ formulas.both_name next c value other) }
{
    let one = is_in(alloc, next, c, value)?;
    let two = is_in(alloc, next, c, other)?;
    Formula::and(alloc, one, two)
}

/// A value is the cell on track `c`, and so is each of the others.
fn push_both(
    alloc: Global,
    parts: &mut Vec<Formula>,
    next: u32,
    c: u32,
    value: Sym,
    others: &[Sym],
) -> Result<(), AllocError>
    ensures { OnOk result (parts.new.items ≡ parts.old.items ++ map (both_name next c value) others.now) }
{
    for other in others {
        parts.push(both_name(alloc, next, c, value, *other)?)?;
    }
    Ok(())
}

/// Two of the values are the cell on track `c`.
fn push_value_pairs(
    alloc: Global,
    parts: &mut Vec<Formula>,
    next: u32,
    c: u32,
    values: &[Sym],
) -> Result<(), AllocError>
    ensures { OnOk result (parts.new.items ≡ parts.old.items ++ pairs (both_name next c) values.now) }
{
    for place in 0..values.len() {
        push_both(alloc, parts, next, c, values[place], &values[place + 1..])?;
    }
    Ok(())
}

/// Each of the values is the cell on track `c`.
fn each_is(alloc: Global, next: u32, c: u32, values: &[Sym]) -> Result<Vec<Formula>, AllocError>
    ensures { IfOk result (λ parts. parts.items ≡ map (syms.is_in next c) values.now) }
{
    let mut parts = Vec::new(alloc);
    for value in values {
        parts.push(is_in(alloc, next, c, *value)?)?;
    }
    Ok(parts)
}

/// Some data field of a cell names the cell on track `c`.
fn is_below(
    alloc: Global,
    l: &Layout<'_>,
    view: &View,
    next: u32,
    c: u32,
) -> Result<Formula, AllocError>
    ensures { IfOk result (λ formula. formula ≡ formulas.is_below l.now.types (sight_of l.now.vars view.now) next c) }
{
    let above = edge(alloc, l, view, later(next, 1)?, next, c)?;
    ex1(alloc, next, above)
}

/// The cells on tracks `a` and `b` are not the same.
fn are_apart(alloc: Global, a: u32, b: u32) -> Result<Formula, AllocError>
    ensures { IfOk result (λ formula. formula ≡ Not (forms.equal a b)) }
{
    let same = equal(alloc, Track(a), Track(b))?;
    Formula::not(alloc, same)
}

/// Data fields of the cells on tracks `a` and `b`, which are two, name the cell on track `c`.
fn both_lead(
    alloc: Global,
    l: &Layout<'_>,
    view: &View,
    next: u32,
    a: u32,
    b: u32,
    c: u32,
) -> Result<Formula, AllocError>
    ensures { IfOk result (λ formula. formula ≡ forms.and_list next (Not (forms.equal a b)
        ∷ routes.edge l.now.types (sight_of l.now.vars view.now) next a c
        ∷ routes.edge l.now.types (sight_of l.now.vars view.now) next b c ∷ [])) }
{
    let apart = are_apart(alloc, a, b)?;
    let one = edge(alloc, l, view, next, a, c)?;
    let two = edge(alloc, l, view, next, b, c)?;
    all_three(alloc, next, apart, one, two)
}

/// Data fields of two cells name the cell on track `c`.
fn two_above(
    alloc: Global,
    l: &Layout<'_>,
    view: &View,
    next: u32,
    c: u32,
) -> Result<Formula, AllocError>
    ensures { IfOk result (λ formula. formula ≡ formulas.two_above l.now.types (sight_of l.now.vars view.now) next c) }
{
    let other = later(next, 1)?;
    let led = both_lead(alloc, l, view, later(next, 2)?, next, other, c)?;
    some_pair(alloc, next, other, led)
}

/// Two data fields of the cell on track `a` name that on track `c`.
fn fields_lead(
    alloc: Global,
    l: &Layout<'_>,
    view: &View,
    next: u32,
    a: u32,
    c: u32,
    f: FieldId,
    g: FieldId,
) -> Result<Formula, AllocError>
    ensures { IfOk result (λ formula. formula ≡ forms.and_list next
        (live.is_live l.now.types (sight_of l.now.vars view.now) next a
        ∷ routes.names_by_data l.now.types (sight_of l.now.vars view.now) next f a c
        ∷ routes.names_by_data l.now.types (sight_of l.now.vars view.now) next g a c ∷ [])) }
{
    let live = is_live(alloc, l, view, next, a)?;
    let one = names_by_data(alloc, l, view, next, f, a, c)?;
    let two = names_by_data(alloc, l, view, next, g, a, c)?;
    all_three(alloc, next, live, one, two)
}

/// Two data fields of one cell name the cell on track `c`.
fn two_fields(
    alloc: Global,
    l: &Layout<'_>,
    view: &View,
    next: u32,
    c: u32,
    f: FieldId,
    g: FieldId,
) -> Result<Formula, AllocError>
    ensures { IfOk result (λ formula. formula ≡ formulas.two_fields l.now.types (sight_of l.now.vars view.now) next c f g) }
{
    let led = fields_lead(alloc, l, view, later(next, 1)?, next, c, f, g)?;
    ex1(alloc, next, led)
}

/// The same of a field and each of the others.
fn push_with_others(
    alloc: Global,
    parts: &mut Vec<Formula>,
    l: &Layout<'_>,
    view: &View,
    next: u32,
    c: u32,
    f: FieldId,
    others: &[FieldId],
) -> Result<(), AllocError>
    ensures { OnOk result (parts.new.items
        ≡ parts.old.items ++ map (formulas.two_fields l.now.types (sight_of l.now.vars view.now) next c f) others.now) }
{
    for g in others {
        parts.push(two_fields(alloc, l, view, next, c, f, *g)?)?;
    }
    Ok(())
}

/// The same of two of the fields.
fn push_field_pairs(
    alloc: Global,
    parts: &mut Vec<Formula>,
    l: &Layout<'_>,
    view: &View,
    next: u32,
    c: u32,
    fields: &[FieldId],
) -> Result<(), AllocError>
    ensures { OnOk result (parts.new.items
        ≡ parts.old.items ++ pairs (formulas.two_fields l.now.types (sight_of l.now.vars view.now) next c) fields.now) }
{
    for place in 0..fields.len() {
        let others = &fields[place + 1..];
        push_with_others(alloc, parts, l, view, next, c, fields[place], others)?;
    }
    Ok(())
}

/// The same of two data fields of a type.
fn push_in_type(
    alloc: Global,
    parts: &mut Vec<Formula>,
    l: &Layout<'_>,
    view: &View,
    next: u32,
    c: u32,
    ty: TypeId,
) -> Result<(), AllocError>
    ensures { OnOk result (parts.new.items
        ≡ parts.old.items ++ field_pairs l.now.types (sight_of l.now.vars view.now) next c ty) }
{
    let mut fields = Vec::new(alloc);
    push_of_kind(&mut fields, l.types(), Kinds::Data, ty)?;
    push_field_pairs(alloc, parts, l, view, next, c, fields.as_slice())
}

/// The same of two data fields of each type.
fn push_in_types(
    alloc: Global,
    parts: &mut Vec<Formula>,
    l: &Layout<'_>,
    view: &View,
    next: u32,
    c: u32,
) -> Result<(), AllocError>
    ensures { OnOk result (parts.new.items
        ≡ parts.old.items ++ flat_map (field_pairs l.now.types (sight_of l.now.vars view.now) next c) (types_in l.now.types)) }
{
    for index in 0..l.types().types() {
        push_in_type(alloc, parts, l, view, next, c, TypeId(index))?;
    }
    Ok(())
}

/// One of the values is the cell on track `c`, and some data field names it too.
fn is_value_and_below(
    alloc: Global,
    l: &Layout<'_>,
    view: &View,
    next: u32,
    values: &[Sym],
    c: u32,
) -> Result<Formula, AllocError>
    ensures { IfOk result (λ formula. formula ≡ And (forms.or_list next (map (syms.is_in next c) values.now))
        (formulas.is_below l.now.types (sight_of l.now.vars view.now) next c)) }
{
    let named = or_list(alloc, next, each_is(alloc, next, c, values)?)?;
    let below = is_below(alloc, l, view, next, c)?;
    Formula::and(alloc, named, below)
}

/// Two of the values are the cell on track `c`, or one of them, which some data field names too.
fn push_by_values(
    alloc: Global,
    parts: &mut Vec<Formula>,
    l: &Layout<'_>,
    view: &View,
    next: u32,
    values: &[Sym],
    c: u32,
) -> Result<(), AllocError>
    ensures { OnOk result (parts.new.items ≡ parts.old.items ++ pairs (both_name next c) values.now
        ++ And (forms.or_list next (map (syms.is_in next c) values.now))
        (formulas.is_below l.now.types (sight_of l.now.vars view.now) next c) ∷ []) }
{
    push_value_pairs(alloc, parts, next, c, values)?;
    parts.push(is_value_and_below(alloc, l, view, next, values, c)?)?;
    Ok(())
}

/// Data fields of two cells name the cell on track `c`, or two data fields of one.
fn push_by_cells(
    alloc: Global,
    parts: &mut Vec<Formula>,
    l: &Layout<'_>,
    view: &View,
    next: u32,
    c: u32,
) -> Result<(), AllocError>
    ensures { OnOk result (parts.new.items ≡ parts.old.items
        ++ formulas.two_above l.now.types (sight_of l.now.vars view.now) next c
        ∷ flat_map (field_pairs l.now.types (sight_of l.now.vars view.now) next c) (types_in l.now.types)) }
{
    parts.push(two_above(alloc, l, view, next, c)?)?;
    push_in_types(alloc, parts, l, view, next, c)
}

/// The ways in which the cell on track `c` is named twice.
fn named_twice(
    alloc: Global,
    l: &Layout<'_>,
    view: &View,
    next: u32,
    values: &[Sym],
    c: u32,
) -> Result<Vec<Formula>, AllocError>
    ensures { IfOk result (λ parts. parts.items
        ≡ formulas.named_twice l.now.types (sight_of l.now.vars view.now) values.now next c) }
{
    let mut parts = Vec::new(alloc);
    push_by_values(alloc, &mut parts, l, view, next, values, c)?;
    push_by_cells(alloc, &mut parts, l, view, next, c)?;
    Ok(parts)
}

/// The cell on track `c` is live and named twice.
fn is_shared(
    alloc: Global,
    l: &Layout<'_>,
    view: &View,
    next: u32,
    values: &[Sym],
    c: u32,
) -> Result<Formula, AllocError>
    ensures { IfOk result (λ formula. formula ≡ And (live.is_live l.now.types (sight_of l.now.vars view.now) next c)
        (forms.or_list next (formulas.named_twice l.now.types (sight_of l.now.vars view.now) values.now next c))) }
{
    let live = is_live(alloc, l, view, next, c)?;
    let parts = named_twice(alloc, l, view, next, values, c)?;
    let twice = or_list(alloc, next, parts)?;
    Formula::and(alloc, live, twice)
}

/// Some live cell is named twice.
pub(crate) fn shares(
    alloc: Global,
    l: &Layout<'_>,
    view: &View,
    next: u32,
    values: &[Sym],
) -> Result<Formula, AllocError>
    ensures { IfOk result (λ formula. formula ≡ formulas.shares l.now.types (sight_of l.now.vars view.now) values.now next) }
{
    let shared = is_shared(alloc, l, view, later(next, 1)?, values, next)?;
    ex1(alloc, next, shared)
}
