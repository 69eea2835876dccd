//! The tracks of a node.

ghost use Rattle.std.specs.Prelude.{◌≡◌, ◌↔◌, ◌<◌, [], length, true, IsTrue, IfOk, OnOk, Some};
ghost use Rattle.ws2s_core.specs.declared.track.Track.{Track};
ghost use Rattle.store_core.specs.declared.ids.VariantId.{VariantId};
ghost use Rattle.store_core.specs.declared.ids.FieldId.{FieldId};
ghost use Rattle.store_core.specs.declared.ids.VarId.{VarId};
ghost use Rattle.store_core.specs.Stores.{field_value};
ghost use Rattle.routing_walks.specs.Walks.{IsOfVariant};
ghost use Rattle.tree_encode.specs.Tracks.{of_var, variant_track, bool_track, var_track};
ghost use Rattle.tree_store.specs.Encoding.{NamesCell};
ghost use Rattle.tree_store.specs.Rows.{IsRows};
ghost use Rattle.std.specs.Option.{option_copied};
ghost use Rattle.tree_store.specs.Spots.{IsOnAt, HasTrack, SpotHasTrack, BoolIsOn, Adds};

use crate::rows::Rows;
use crate::spots::{Spot, row_of};
use std::alloc::{AllocError, Global};
use store_core::{CellId, FieldId, Store, Value, VarId};
use store_sat::has;
use tree_encode::Layout;
use ws2s_core::{Track, TrackList};

/// Adds the track, if there is one and it is to be added.
fn push_where(tracks: &mut TrackList, is_on: bool, track: Option<Track>) -> Result<(), AllocError>
    ensures { OnOk result (Adds (λ t. IsTrue is_on × (track ≡ Some t)) tracks.old tracks.new) }
{
    if is_on && let Some(track) = track {
        tracks.push(track)?;
    }
    Ok(())
}

/// Whether the value is the cell, or a set that holds it.
fn names(value: &Value, cell: CellId) -> bool
    ensures { IsTrue result ↔ NamesCell value.now cell }
{
    match value {
        Value::Cell(Some(other)) => other.0 == cell.0,
        Value::Cells(cells) => has(cells.as_slice(), cell),
        Value::Bool(_) | Value::Cell(None) => false,
    }
}

/// Whether the root or a cell is on the track of a variable.
fn is_on(store: &Store, var: VarId, at: Option<CellId>) -> bool
    ensures { IsTrue result ↔ IsOnAt store.now (of_var var) at }
{
    match (store.var(var), at) {
        (Some(value), Some(cell)) => names(value, cell),
        (Some(Value::Bool(truth)), None) => *truth,
        _ => false,
    }
}

/// Adds the tracks of the variables that the root or a cell is on.
fn push_vars(
    tracks: &mut TrackList,
    l: &Layout<'_>,
    store: &Store,
    at: Option<CellId>,
) -> Result<(), AllocError>
    ensures { OnOk result (Adds (λ t. (v : VarId) × (var_track l.now.types l.now.vars v ≡ Some t) × IsOnAt store.now (of_var v) at) tracks.old tracks.new) }
{
    for index in 0..l.vars().vars() {
        let var = VarId(index);
        push_where(tracks, is_on(store, var, at), l.var_track(var))?;
    }
    Ok(())
}

/// Whether a bool field of a cell is true.
fn is_true(store: &Store, cell: CellId, field: FieldId) -> bool
    ensures { IsTrue result ↔ (field_value store.now cell field ≡ Some (Value.Bool true)) }
{
    match store.field(cell, field) {
        Some(Value::Bool(truth)) => *truth,
        _ => false,
    }
}

/// Adds the track of a cell's variant.
fn push_variant(
    tracks: &mut TrackList,
    l: &Layout<'_>,
    store: &Store,
    cell: CellId,
) -> Result<(), AllocError>
    ensures { OnOk result (Adds (λ t. (v : VariantId) × (variant_track l.now.types v ≡ Some t) × IsOfVariant store.now v cell) tracks.old tracks.new) }
{
    if let Some(variant) = store.variant_of(cell) {
        push_where(tracks, true, l.variant_track(variant))?;
    }
    Ok(())
}

/// Adds the track of a bool field, if there is one and it is true of the cell.
fn push_bool(
    tracks: &mut TrackList,
    store: &Store,
    cell: CellId,
    field: Option<&(FieldId, Track)>,
) -> Result<(), AllocError>
    ensures { OnOk result (Adds (λ t. BoolIsOn store.now cell (option_copied field.entry) t) tracks.old tracks.new) }
{
    let Some(pair) = field else {
        return Ok(());
    };
    push_where(tracks, is_true(store, cell, pair.0), Some(pair.1))?;
    Ok(())
}

/// Adds the tracks of a cell's bool fields that are true.
fn push_bools(
    tracks: &mut TrackList,
    l: &Layout<'_>,
    rows: &Rows,
    store: &Store,
    cell: CellId,
) -> Result<(), AllocError>
    requires { IsRows l.now.types l.now.vars rows.now }
    ensures { OnOk result (Adds (λ t. (f : FieldId) × (bool_track l.now.types f ≡ Some t)
        × (field_value store.now cell f ≡ Some (Value.Bool true))) tracks.old tracks.new) }
{
    if let Some(row) = row_of(rows, store, cell) {
        for place in 0..row.bools.len() {
            push_bool(tracks, store, cell, row.bools.get(place))?;
        }
    }
    Ok(())
}

/// The tracks of the root, or of a cell.
fn tracks_at(
    alloc: Global,
    l: &Layout<'_>,
    rows: &Rows,
    store: &Store,
    at: Option<CellId>,
) -> Result<TrackList, AllocError>
    requires { IsRows l.now.types l.now.vars rows.now }
    ensures { IfOk result (λ tracks. Adds (HasTrack l.now.types l.now.vars store.now at) [] tracks) }
{
    let mut tracks = TrackList::new(alloc);
    if let Some(cell) = at {
        push_variant(&mut tracks, l, store, cell)?;
        push_bools(&mut tracks, l, rows, store, cell)?;
    }
    push_vars(&mut tracks, l, store, at)?;
    Ok(tracks)
}

/// The tracks of a spot.
pub(crate) fn label_of(
    alloc: Global,
    l: &Layout<'_>,
    rows: &Rows,
    store: &Store,
    spot: Spot,
) -> Result<TrackList, AllocError>
    requires { IsRows l.now.types l.now.vars rows.now }
    ensures { IfOk result (λ tracks. Adds (SpotHasTrack l.now.types l.now.vars store.now spot) [] tracks) }
{
    match spot {
        Spot::Slot(0) => tracks_at(alloc, l, rows, store, None),
        Spot::Child(cell, 0) => tracks_at(alloc, l, rows, store, Some(cell)),
        Spot::Slot(_) | Spot::Child(_, _) => Ok(TrackList::new(alloc)),
    }
}
