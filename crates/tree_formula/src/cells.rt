//! Live cells, and the fields that they have.

ghost use Rattle.std.specs.Prelude.{◌≡◌, map, IfOk};
ghost use Rattle.tree_encode.specs.Tracks.{variant_track};
ghost use Rattle.tree_formula.specs.WellEncoded as formulas;
ghost use Rattle.tree_formula.specs.WellEncoded.{track_or_first, owner, variants_of};

use std::alloc::{AllocError, Global};
use store_core::{FieldId, Owner, TypeId, VariantId};
use tree_encode::Layout;
use ws2s_core::{Formula, Track};
use ws2s_forms::or_list;

/// The track, or the first where there is none.
pub(crate) fn track_or_first(track: Option<Track>) -> Track
    ensures { result ≡ track_or_first track }
{
    match track {
        Some(track) => track,
        None => Track(0),
    }
}

/// The track of a variant's live cells.
pub(crate) fn live_track(l: &Layout<'_>, v: VariantId) -> Track
    ensures { result ≡ track_or_first (variant_track l.now.types v) }
{
    track_or_first(l.variant_track(v))
}

/// A position is a live cell of a variant.
pub(crate) fn is_of(l: &Layout<'_>, v: VariantId, a: u32) -> Formula
    ensures { result ≡ formulas.is_of l.now.types v a }
{
    Formula::Sub(Track(a), live_track(l, v))
}

/// The same for each variant of a type.
fn of_each(alloc: Global, l: &Layout<'_>, ty: TypeId, a: u32) -> Result<Vec<Formula>, AllocError>
    ensures { IfOk result (λ parts. parts.items ≡ map (λ v. formulas.is_of l.now.types v a) (variants_of l.now.types ty)) }
{
    let mut parts = Vec::new(alloc);
    for index in 0..l.types().variants(ty) {
        parts.push(is_of(l, VariantId { ty, index }, a))?;
    }
    Ok(parts)
}

/// A position is a live cell of a type.
pub(crate) fn is_live(
    alloc: Global,
    l: &Layout<'_>,
    next: u32,
    ty: TypeId,
    a: u32,
) -> Result<Formula, AllocError>
    ensures { IfOk result (λ formula. formula ≡ formulas.is_live next l.now.types ty a) }
{
    match l.types().unnamed(ty) {
        Some(v) => Ok(is_of(l, v, a)),
        None => or_list(alloc, next, of_each(alloc, l, ty, a)?),
    }
}

/// The variant that alone has a field, by its declaration.
pub(crate) fn owner(l: &Layout<'_>, f: FieldId) -> Option<VariantId>
    ensures { result ≡ owner l.now.types f }
{
    match l.types().owner(f) {
        Some(Owner::Variant(v)) => Some(v),
        Some(Owner::Common(_)) | None => None,
    }
}

/// A position is a live cell that has a field.
pub(crate) fn has(
    alloc: Global,
    l: &Layout<'_>,
    next: u32,
    f: FieldId,
    a: u32,
) -> Result<Formula, AllocError>
    ensures { IfOk result (λ formula. formula ≡ formulas.has next l.now.types f a) }
{
    match owner(l, f) {
        Some(v) => Ok(is_of(l, v, a)),
        None => is_live(alloc, l, next, f.ty, a),
    }
}
