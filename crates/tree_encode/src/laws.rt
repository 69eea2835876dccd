//! The numbers of tracks are their places, and the positions of cells are in the first spaces of their types.

ghost use Rattle.std.specs.Prelude.{◌≡◌, ◌+◌, ◌<◌, List, Some, length, slice_get};
ghost use Rattle.ws2s_core.specs.declared.track.Track.{Track};
ghost use Rattle.store_core.specs.declared.ids.TypeId.{TypeId};
ghost use Rattle.store_core.specs.declared.ids.VariantId.{VariantId};
ghost use Rattle.store_core.specs.declared.ids.FieldId.{FieldId};
ghost use Rattle.store_core.specs.declared.ids.VarId.{VarId};
ghost use Rattle.store_core.specs.Tables.{TypeEntry, VarEntry, KnowsType};
ghost use Rattle.store_core.specs.declared.ids.CellId.{CellId};
ghost use Rattle.store_core.specs.Stores.{StoreMap, CellEntry, IsLive, cell_of};
ghost use Rattle.gta_theory.specs.Assignments.{Position};
ghost use Rattle.gta_theory.specs.Guides.{IsGuide, space_at};
ghost use Rattle.routing_walks.specs.WellFormed.{IsBackbone};
ghost use Rattle.tree_encode.specs.Spaces.{first_space, spaces_in, guide_of, types_start};
ghost use Rattle.tree_encode.specs.Positions.{IsPlaced, HasOnePosition};
ghost use Rattle.tree_encode.specs.Tracks.{of_variant, of_bool, of_var, tracks_of, track_count, variant_track, bool_track, var_track};

/// The track of a variant, a bool field or a variable is its place in the list of all tracks, whose length is the number of
/// tracks.
pub fn tracks_stand_in_their_places()
    ensures count { (types : List TypeEntry) (vars : List VarEntry) → length (tracks_of types vars) ≡ track_count types vars }
    ensures variant { (types : List TypeEntry) (vars : List VarEntry) (v : VariantId) (t : Track) →
        variant_track types v ≡ Some t → slice_get (tracks_of types vars) t.0 ≡ Some (of_variant v) }
    ensures bool { (types : List TypeEntry) (vars : List VarEntry) (f : FieldId) (t : Track) →
        bool_track types f ≡ Some t → slice_get (tracks_of types vars) t.0 ≡ Some (of_bool f) }
    ensures var { (types : List TypeEntry) (vars : List VarEntry) (v : VarId) (t : Track) →
        var_track types vars v ≡ Some t → slice_get (tracks_of types vars) t.0 ≡ Some (of_var v) }
{}

/// On a backbone each live cell stands at exactly one position, and on any store two cells at one position are one cell.
pub fn cells_stand_apart()
    ensures one_position { (types : List TypeEntry) (vars : List VarEntry) (s : StoreMap) (c : CellId) →
        IsBackbone types vars s → IsLive s c → HasOnePosition types vars s c }
    ensures one_cell { (types : List TypeEntry) (vars : List VarEntry) (s : StoreMap) (c d : CellId) (p : Position) →
        IsPlaced types vars s c p → IsPlaced types vars s d p → c ≡ d }
{}

/// The guide is one, and the position of a backbone's cell is in the first space of the cell's type, which isn't the rest where
/// the type is in the table.
pub fn cells_stand_in_the_first_space_of_their_type()
    ensures guide { (types : List TypeEntry) (vars : List VarEntry) (spares : List VariantId) →
        IsGuide (guide_of types vars spares) }
    ensures space { (types : List TypeEntry) (vars : List VarEntry) (spares : List VariantId) (s : StoreMap) (c : CellId)
        (cell : CellEntry) (p : Position) → IsBackbone types vars s → IsPlaced types vars s c p → cell_of s c ≡ Some cell →
        space_at (guide_of types vars spares) 0 p ≡ first_space types (types_start vars spares) cell.variant.ty }
    ensures apart { (types : List TypeEntry) (vars : List VarEntry) (spares : List VariantId) (ty : TypeId) → KnowsType types ty →
        first_space types (types_start vars spares) ty < types_start vars spares + spaces_in types }
{}
