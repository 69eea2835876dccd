//! What the formulas of cell fields and of walks mean.

ghost use Rattle.std.specs.Prelude.{◌≡◌, ◌↔◌, ℕ, ◌<◌, ◌≤◌, Some};
ghost use Rattle.gta_theory.specs.Assignments.{Position, Assignment, IsOnly};
ghost use Rattle.ws2s_core.specs.Satisfaction.{WSat};
ghost use Rattle.store_core.specs.declared.ids.CellId.{CellId};
ghost use Rattle.store_core.specs.declared.ids.FieldId.{FieldId};
ghost use Rattle.store_core.specs.declared.kind.Route.{Route};
ghost use Rattle.store_core.specs.Tables.{FieldEntry, KnowsRoute, field_at};
ghost use Rattle.store_core.specs.Stores.{StoreMap, IsLive};
ghost use Rattle.routing_walks.specs.Walks.{DataAlone, DataAndPointers, IsFollowed};
ghost use Rattle.tree_encode.specs.Layouts.{LaidOut};
ghost use Rattle.graph_view.specs.declared.view.View.{View};
ghost use Rattle.graph_view.specs.Sights.{sight_of};
ghost use Rattle.graph_view.specs.Routes.{names, data_walk, walk};
ghost use Rattle.graph_view.specs.After.{Standing, IsAt};
ghost use Rattle.graph_meaning.specs.Live.Meaning.{Agrees, MeansPairs};
ghost use Rattle.graph_meaning.specs.Live.Fields.{FieldNamesAt};
ghost use Rattle.graph_meaning.specs.Live.Showing.{Shows};
ghost use Rattle.graph_meaning.specs.Walks.Walking.{WalkAt};
ghost use Rattle.graph_meaning.specs.Walks.Wells.{ShowsWell};

/// Of a live cell, the formula of a data or pointer field holds exactly at the position of the cell, live or dead, that the field
/// names. Before all events a pointer field is its only destination, since the first store is well-formed.
pub fn cell_fields_are_told()
    ensures { (l : LaidOut) (view : View) (a b : Assignment) (first s t : StoreMap) (at : Standing) (count next x y : ℕ) (p q : Position) (c : CellId)
        (f : FieldId) (entry : FieldEntry) → ShowsWell l view a first s t at count → field_at l.types f ≡ Some entry →
        IsFollowed DataAndPointers entry.kind → Agrees count a b → count ≤ next → x < next → y < next → IsOnly (b x) p → IsOnly (b y) q → IsAt at c p →
        IsLive t c → WSat (names l.types (sight_of l.vars view) next f x y) b ↔ FieldNamesAt t at c f q }
{}

/// The formula of a walk holds exactly on the pairs of the walk, over data fields from the tree of a backbone, and over data and
/// pointer fields from that of a well-formed store. (Klarlund and Schwartzbach 1993.)
pub fn walks_are_told()
    ensures over_data { (l : LaidOut) (view : View) (a : Assignment) (first s t : StoreMap) (at : Standing) (count : ℕ) (along : Route) →
        Shows l view a first s t at count → KnowsRoute l.types along →
        MeansPairs count a (data_walk l.types (sight_of l.vars view) along) (WalkAt l.types t at DataAlone along) }
    ensures over_all { (l : LaidOut) (view : View) (a : Assignment) (first s t : StoreMap) (at : Standing) (count : ℕ) (along : Route) →
        ShowsWell l view a first s t at count → KnowsRoute l.types along →
        MeansPairs count a (walk l.types (sight_of l.vars view) along) (WalkAt l.types t at DataAndPointers along) }
{}
