//! Tracks of live cells, and the slots before those of new cells.

ghost use Rattle.std.specs.Prelude.{◌≡◌, false};
ghost use Rattle.std.specs.Option.{option_map_or};
ghost use Rattle.store_core.specs.Tables.{var_at};
ghost use Rattle.tree_encode.specs.Counting.{is_data_var};
ghost use Rattle.tree_encode.specs.Tracks.{variant_track};
ghost use Rattle.tree_formula.specs.WellEncoded as encoded;
ghost use Rattle.graph_view.specs.Live as formulas;
ghost use Rattle.graph_view.specs.Sights as sights;

use store_core::{FieldId, Owner, VarId, VarKind, VarTable, VariantId};
use tree_encode::Layout;
use ws2s_core::Track;

/// The track, or the first where there is none.
pub(crate) fn track_or_first(track: Option<Track>) -> Track
    ensures { result ≡ encoded.track_or_first track }
{
    match track {
        Some(track) => track,
        None => Track(0),
    }
}

/// The track of a variant's live cells before all events.
pub(crate) fn live_track(l: &Layout<'_>, v: VariantId) -> Track
    ensures { result ≡ encoded.track_or_first (variant_track l.now.types v) }
{
    track_or_first(l.variant_track(v))
}

/// The variant that alone has a field, by its declaration.
pub(crate) fn owner(l: &Layout<'_>, f: FieldId) -> Option<VariantId>
    ensures { result ≡ encoded.owner l.now.types f }
{
    match l.types().owner(f) {
        Some(Owner::Variant(v)) => Some(v),
        Some(Owner::Common(_)) | None => None,
    }
}

/// The same variant.
pub(crate) fn is_variant(v: VariantId, w: VariantId) -> bool
    ensures { result ≡ formulas.is_variant v w }
{
    v.ty.0 == w.ty.0 && v.index == w.index
}

/// Whether the variable is a data variable.
fn is_data(vars: &VarTable, v: VarId) -> bool
    ensures { result ≡ option_map_or is_data_var (var_at vars.now v) false }
{
    matches!(vars.kind(v), Some(VarKind::Data(_)))
}

/// How many slots there are for data variables.
pub(crate) fn var_slots(vars: &VarTable) -> u32
    ensures { result ≡ sights.var_slots vars.now }
{
    let mut count = 0;
    for index in 0..vars.vars() {
        if is_data(vars, VarId(index)) {
            count += 1;
        }
    }
    count
}
