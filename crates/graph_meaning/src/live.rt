//! Where cells stand, and what the formulas of live cells and of their bool and data fields mean.

ghost use Rattle.std.specs.Prelude.{◌≡◌, ◌↔◌, ℕ, ◌<◌, ◌≤◌, true, List, Option, Some, IsSomeAnd};
ghost use Rattle.gta_theory.specs.Assignments.{Position, Assignment, IsOnly};
ghost use Rattle.ws2s_core.specs.Satisfaction.{WSat};
ghost use Rattle.store_core.specs.declared.ids.CellId.{CellId};
ghost use Rattle.store_core.specs.declared.ids.TypeId.{TypeId};
ghost use Rattle.store_core.specs.declared.ids.FieldId.{FieldId};
ghost use Rattle.store_core.specs.declared.ids.VariantId.{VariantId};
ghost use Rattle.store_core.specs.declared.kind.FieldKind.TheVariants as field;
ghost use Rattle.store_core.specs.declared.value.Value.TheVariants as value;
ghost use Rattle.store_core.specs.Tables.{TypeEntry, FieldEntry, VarEntry, KnowsVariant, field_at};
ghost use Rattle.store_core.specs.Stores.{StoreMap, IsLive, Fits, field_value};
ghost use Rattle.routing_walks.specs.WellFormed.{IsBackbone};
ghost use Rattle.tree_encode.specs.Layouts.{LaidOut};
ghost use Rattle.graph_view.specs.declared.view.Sym.{Sym};
ghost use Rattle.graph_view.specs.declared.view.Event.{Event};
ghost use Rattle.graph_view.specs.declared.view.View.{View};
ghost use Rattle.graph_view.specs.Sights.{sight_of};
ghost use Rattle.graph_view.specs.Live.{lives, lives_in, has, is_live, is_dead};
ghost use Rattle.graph_view.specs.Fields.{is_true, data_names};
ghost use Rattle.graph_view.specs.After.{Standing, IsAt, StandsForCell, IsSeen, IsSymBelow};
ghost use Rattle.graph_meaning.specs.Live.Meaning.{Agrees, MeansHere};
ghost use Rattle.graph_meaning.specs.Live.Standing.{Sits, LiveAt, VariantAt, TypeAt, FieldAt};
ghost use Rattle.graph_meaning.specs.Live.Fields.{FieldNamesAt};
ghost use Rattle.graph_meaning.specs.Live.Showing.{Shows};

/// Each live cell of the store that a view sees has exactly one position, and two cells at one position are one cell, also
/// dead ones: a freed cell keeps its place, and a new one has a slot of its own.
pub fn seen_cells_stand_apart()
    ensures { (types : List TypeEntry) (vars : List VarEntry) (syms : List Sym) (events : List Event) (a : Assignment) (first s : StoreMap)
        (at : Standing) → Fits types vars first → IsBackbone types vars first → IsSeen types vars syms events a first s at → Sits s at }
{}

/// The formulas of live cells hold exactly where what is read of the seen store has a live cell of the variant, of the type, with
/// the field, or any.
pub fn live_cells_are_told()
    ensures variant { (l : LaidOut) (view : View) (a : Assignment) (first s t : StoreMap) (at : Standing) (count : ℕ) (v : VariantId) →
        Shows l view a first s t at count → KnowsVariant l.types v →
        MeansHere count a (λ next x. lives l.types (sight_of l.vars view) next v x) (VariantAt t at v) }
    ensures of_type { (l : LaidOut) (view : View) (a : Assignment) (first s t : StoreMap) (at : Standing) (count : ℕ) (ty : TypeId) →
        Shows l view a first s t at count → MeansHere count a (λ next x. lives_in l.types (sight_of l.vars view) next ty x) (TypeAt t at ty) }
    ensures field { (l : LaidOut) (view : View) (a : Assignment) (first s t : StoreMap) (at : Standing) (count : ℕ) (f : FieldId) (entry : FieldEntry) →
        Shows l view a first s t at count → field_at l.types f ≡ Some entry →
        MeansHere count a (λ next x. has l.types (sight_of l.vars view) next f x) (FieldAt t at f) }
    ensures any { (l : LaidOut) (view : View) (a : Assignment) (first s t : StoreMap) (at : Standing) (count : ℕ) →
        Shows l view a first s t at count → MeansHere count a (λ next x. is_live l.types (sight_of l.vars view) next x) (LiveAt t at) }
{}

/// The formula of dead cells holds exactly where the value is a cell that isn't live.
pub fn dead_cells_are_told()
    ensures { (l : LaidOut) (view : View) (a b : Assignment) (first s t : StoreMap) (at : Standing) (count next : ℕ) (u : Sym) (o : Option CellId) →
        Shows l view a first s t at count → Agrees count a b → count ≤ next → IsSymBelow count u → StandsForCell a at u o →
        WSat (is_dead l.types (sight_of l.vars view) next u) b ↔ IsSomeAnd o (λ c. (p : Position) × (IsAt at c p × (IsLive t c → ⊥))) }
{}

/// Of a live cell, the formula of a bool field holds exactly where the field is true, and that of a data field exactly at the
/// position of the cell, live or dead, that the field names.
pub fn fields_of_live_cells_are_told()
    ensures bool { (l : LaidOut) (view : View) (a b : Assignment) (first s t : StoreMap) (at : Standing) (count next x : ℕ) (p : Position) (c : CellId)
        (f : FieldId) (entry : FieldEntry) → Shows l view a first s t at count → field_at l.types f ≡ Some entry → entry.kind ≡ field.Bool →
        Agrees count a b → count ≤ next → x < next → IsOnly (b x) p → IsAt at c p → IsLive t c →
        WSat (is_true l.types (sight_of l.vars view) next f x) b ↔ (field_value t c f ≡ Some (value.Bool true)) }
    ensures reference { (l : LaidOut) (view : View) (a b : Assignment) (first s t : StoreMap) (at : Standing) (count next x y : ℕ) (p q : Position) (c : CellId)
        (f : FieldId) (entry : FieldEntry) (target : TypeId) → Shows l view a first s t at count → field_at l.types f ≡ Some entry →
        entry.kind ≡ field.Data target → Agrees count a b → count ≤ next → x < next → y < next → IsOnly (b x) p → IsOnly (b y) q → IsAt at c p →
        IsLive t c → WSat (data_names l.types (sight_of l.vars view) next f target x y) b ↔ FieldNamesAt t at c f q }
{}
