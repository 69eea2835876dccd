//! What is said of types: where their cells are, and that live cells have the bool fields that are true.

ghost use Rattle.std.specs.Prelude.{◌≡◌, ◌++◌, flat_map, IfOk, OnOk};
ghost use Rattle.tree_formula.specs.WellEncoded as formulas;
ghost use Rattle.tree_formula.specs.WellEncoded.{slot_places, child_places, places_below, vars_in, fields_in, types_in, only_variant, field_part, type_parts};

use crate::cells::{has, is_live, live_track, owner};
use std::alloc::{AllocError, Global};
use store_core::{FieldId, FieldKind, TypeId, VarId, VarKind, VariantId};
use tree_encode::Layout;
use ws2s_core::{Formula, Track};
use ws2s_forms::{all1, child, ex1, imp, later, or_list, slot};

/// A position is the slot of a variable, if it is a data variable of the type.
fn push_slot(
    alloc: Global,
    places: &mut Vec<Formula>,
    l: &Layout<'_>,
    next: u32,
    ty: TypeId,
    a: u32,
    v: VarId,
) -> Result<(), AllocError>
    ensures { OnOk result (places.new.items ≡ places.old.items ++ slot_places next l.now.vars ty a v) }
{
    if let (Some(VarKind::Data(target)), Some(number)) = (l.vars().kind(v), l.slot(v))
        && target.0 == ty.0
    {
        places.push(slot(alloc, next, number, Track(a))?)?;
    }
    Ok(())
}

/// The slots of the data variables of a type.
fn push_slots(
    alloc: Global,
    places: &mut Vec<Formula>,
    l: &Layout<'_>,
    next: u32,
    ty: TypeId,
    a: u32,
) -> Result<(), AllocError>
    ensures { OnOk result (places.new.items ≡ places.old.items ++ flat_map (slot_places next l.now.vars ty a) (vars_in l.now.vars)) }
{
    for index in 0..l.vars().vars() {
        push_slot(alloc, places, l, next, ty, a, VarId(index))?;
    }
    Ok(())
}

/// A position is the child with that number of some cell that has the field.
fn is_child(
    alloc: Global,
    l: &Layout<'_>,
    next: u32,
    a: u32,
    f: FieldId,
    number: u32,
) -> Result<Formula, AllocError>
    ensures { IfOk result (λ formula. formula ≡ formulas.is_child next l.now.types a f number) }
{
    let inner = later(next, 1)?;
    let owned = has(alloc, l, inner, f, next)?;
    let below = child(alloc, inner, number, Track(next), Track(a))?;
    ex1(alloc, next, Formula::and(alloc, owned, below)?)
}

/// The same, if the field is a data field with the type as target.
fn push_child(
    alloc: Global,
    places: &mut Vec<Formula>,
    l: &Layout<'_>,
    next: u32,
    ty: TypeId,
    a: u32,
    f: FieldId,
) -> Result<(), AllocError>
    ensures { OnOk result (places.new.items ≡ places.old.items ++ child_places next l.now.types ty a f) }
{
    if let (Some(FieldKind::Data(target)), Some(number)) = (l.types().kind(f), l.child(f))
        && target.0 == ty.0
    {
        places.push(is_child(alloc, l, next, a, f, number)?)?;
    }
    Ok(())
}

/// The children that the data fields of one type lead to, with another as target.
fn push_children(
    alloc: Global,
    places: &mut Vec<Formula>,
    l: &Layout<'_>,
    next: u32,
    ty: TypeId,
    a: u32,
    parent: TypeId,
) -> Result<(), AllocError>
    ensures { OnOk result (places.new.items ≡ places.old.items ++ places_below next l.now.types ty a parent) }
{
    for index in 0..l.types().fields(parent) {
        push_child(alloc, places, l, next, ty, a, FieldId { ty: parent, index })?;
    }
    Ok(())
}

/// The same of all types.
fn push_parents(
    alloc: Global,
    places: &mut Vec<Formula>,
    l: &Layout<'_>,
    next: u32,
    ty: TypeId,
    a: u32,
) -> Result<(), AllocError>
    ensures { OnOk result (places.new.items ≡ places.old.items ++ flat_map (places_below next l.now.types ty a) (types_in l.now.types)) }
{
    for index in 0..l.types().types() {
        push_children(alloc, places, l, next, ty, a, TypeId(index))?;
    }
    Ok(())
}

/// The places where a cell of a type may be.
fn places(
    alloc: Global,
    l: &Layout<'_>,
    next: u32,
    ty: TypeId,
    a: u32,
) -> Result<Vec<Formula>, AllocError>
    ensures { IfOk result (λ places. places.items ≡ formulas.places next l.now.types l.now.vars ty a) }
{
    let mut places = Vec::new(alloc);
    push_slots(alloc, &mut places, l, next, ty, a)?;
    push_parents(alloc, &mut places, l, next, ty, a)?;
    Ok(places)
}

/// Each live cell of a type is at one of its places.
fn are_reached(alloc: Global, l: &Layout<'_>, next: u32, ty: TypeId) -> Result<Formula, AllocError>
    ensures { IfOk result (λ formula. formula ≡ formulas.are_reached next l.now.types l.now.vars ty) }
{
    let inner = later(next, 1)?;
    let live = is_live(alloc, l, inner, ty, next)?;
    let somewhere = or_list(alloc, inner, places(alloc, l, inner, ty, next)?)?;
    all1(alloc, next, imp(alloc, live, somewhere)?)
}

/// The only variant that has a field.
fn only_variant(l: &Layout<'_>, f: FieldId) -> Option<VariantId>
    ensures { result ≡ only_variant l.now.types f }
{
    match owner(l, f) {
        Some(v) => Some(v),
        None if l.types().variants(f.ty) == 1 => Some(VariantId { ty: f.ty, index: 0 }),
        None => None,
    }
}

/// Where a bool field is true, a live cell has it.
fn is_had(
    alloc: Global,
    l: &Layout<'_>,
    next: u32,
    f: FieldId,
    track: Track,
) -> Result<Formula, AllocError>
    ensures { IfOk result (λ formula. formula ≡ formulas.is_had next l.now.types f track) }
{
    if let Some(v) = only_variant(l, f) {
        return Ok(Formula::Sub(track, live_track(l, v)));
    }
    let inner = later(next, 1)?;
    let owned = has(alloc, l, inner, f, next)?;
    all1(
        alloc,
        next,
        imp(alloc, Formula::Sub(Track(next), track), owned)?,
    )
}

/// What is said of a field.
fn push_field(
    alloc: Global,
    parts: &mut Vec<Formula>,
    l: &Layout<'_>,
    next: u32,
    f: FieldId,
) -> Result<(), AllocError>
    ensures { OnOk result (parts.new.items ≡ parts.old.items ++ field_part next l.now.types f) }
{
    if let Some(track) = l.bool_track(f) {
        parts.push(is_had(alloc, l, next, f, track)?)?;
    }
    Ok(())
}

/// What is said of the fields of a type.
fn push_fields(
    alloc: Global,
    parts: &mut Vec<Formula>,
    l: &Layout<'_>,
    next: u32,
    ty: TypeId,
) -> Result<(), AllocError>
    ensures { OnOk result (parts.new.items ≡ parts.old.items ++ flat_map (field_part next l.now.types) (fields_in l.now.types ty)) }
{
    for index in 0..l.types().fields(ty) {
        push_field(alloc, parts, l, next, FieldId { ty, index })?;
    }
    Ok(())
}

/// What is said of a type.
pub(crate) fn push_type(
    alloc: Global,
    parts: &mut Vec<Formula>,
    l: &Layout<'_>,
    next: u32,
    ty: TypeId,
) -> Result<(), AllocError>
    ensures { OnOk result (parts.new.items ≡ parts.old.items ++ type_parts next l.now.types l.now.vars ty) }
{
    let reached = are_reached(alloc, l, next, ty)?;
    parts.push(reached)?;
    push_fields(alloc, parts, l, next, ty)?;
    Ok(())
}
