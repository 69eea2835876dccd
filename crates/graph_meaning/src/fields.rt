//! The trees of backbones as views without events see them, and what the formula of a pointer field says.

ghost use Rattle.std.specs.Prelude.{ℕ, ◌≤◌, ◌↔◌, List};
ghost use Rattle.gta_theory.specs.Assignments.{Assignment, IsFinite, Covers};
ghost use Rattle.ws2s_core.specs.Satisfaction.{WSat};
ghost use Rattle.store_core.specs.declared.ids.FieldId.{FieldId};
ghost use Rattle.store_core.specs.Tables.{TypeEntry, VarEntry, IsTypeTable};
ghost use Rattle.store_core.specs.Stores.{StoreMap, Fits};
ghost use Rattle.routing_walks.specs.WellFormed.{IsBackbone, IsWellFormed, IsFunctional};
ghost use Rattle.routing_walks.specs.Refuting.{IsOneEach};
ghost use Rattle.tree_encode.specs.Layouts.{LaidOut};
ghost use Rattle.tree_encode.specs.Tracks.{track_count};
ghost use Rattle.tree_store.specs.Encoding.{IsAssignmentOf};
ghost use Rattle.tree_store.specs.Premises.{OwnersAreThere, SetsHoldLive};
ghost use Rattle.tree_store.specs.Stores.{IsStoreOf};
ghost use Rattle.graph_view.specs.Cuts.{field_formula};
ghost use Rattle.graph_view.specs.After.{Standing, AreStanding};
ghost use Rattle.graph_meaning.specs.Live.Standing.{Sits};
ghost use Rattle.graph_meaning.specs.Live.Showing.{Shows};
ghost use Rattle.graph_meaning.specs.Walks.Wells.{ShowsWell};
ghost use Rattle.graph_meaning.specs.Fields.Beginning.{first_view};
ghost use Rattle.graph_meaning.specs.Fields.Forking.{HasFork, IsOfFork, HasLightTree};

/// The cells of a backbone and where they stand are a list: each live cell with its one position, and no two cells with one.
pub fn backbones_have_their_standing()
    ensures { (types : List TypeEntry) (vars : List VarEntry) (s : StoreMap) → Fits types vars s → IsBackbone types vars s →
        (at : Standing) × AreStanding types vars s at × Sits s at }
{}

/// Each backbone has an assignment on the tracks of a layout of its tables, of finite sets.
pub fn backbones_have_their_assignments()
    ensures { (types : List TypeEntry) (vars : List VarEntry) (s : StoreMap) → IsBackbone types vars s →
        (depth : ℕ) × (a : Assignment) × Covers depth a × IsAssignmentOf types vars s a }
{}

/// Before all events a view shows the store whose tree it is read on, as it is, each variable on its own track.
pub fn views_begin_with_the_store_of_the_tree()
    ensures backbone { (l : LaidOut) (s : StoreMap) (a : Assignment) (at : Standing) (next : ℕ) → OwnersAreThere l.types →
        Fits l.types l.vars s → IsBackbone l.types l.vars s → SetsHoldLive l.vars s → IsAssignmentOf l.types l.vars s a →
        AreStanding l.types l.vars s at → track_count l.types l.vars ≤ next → Shows l (first_view l.types l.vars next) a s s s at next }
    ensures well_formed { (l : LaidOut) (s : StoreMap) (a : Assignment) (at : Standing) (next : ℕ) → IsTypeTable l.types →
        IsWellFormed l.types l.vars s → IsAssignmentOf l.types l.vars s a → AreStanding l.types l.vars s at →
        track_count l.types l.vars ≤ next → ShowsWell l (first_view l.types l.vars next) a s s s at next }
{}

/// On the assignment of a backbone the formula of a field holds exactly where some cell has two destinations for the field, and
/// finite sets satisfy it exactly where they are the assignment of such a backbone. Of a field that is no pointer field no cell
/// has a destination.
pub fn forks_are_told()
    ensures backbone { (types : List TypeEntry) (vars : List VarEntry) (s : StoreMap) (a : Assignment) (f : FieldId) →
        IsTypeTable types → Fits types vars s → IsBackbone types vars s → SetsHoldLive vars s → IsAssignmentOf types vars s a →
        IsFinite a → WSat (field_formula types vars f) a ↔ HasFork types s f }
    ensures trees { (types : List TypeEntry) (vars : List VarEntry) (a : Assignment) (f : FieldId) → IsTypeTable types → IsFinite a →
        WSat (field_formula types vars f) a ↔ IsOfFork types vars f a }
    ensures store { (types : List TypeEntry) (vars : List VarEntry) (a : Assignment) (f : FieldId) → IsTypeTable types → IsFinite a →
        WSat (field_formula types vars f) a → (s : StoreMap) × IsStoreOf types vars a s × HasFork types s f }
{}

/// A field is functional exactly where no assignment satisfies its formula over a table with one data variable a type; and where
/// one satisfies it over any table, the field isn't functional. (Klarlund and Schwartzbach 1993: the destination is unique.)
pub fn fields_are_functional_where_no_tree_forks()
    ensures one_each { (types : List TypeEntry) (vars : List VarEntry) (f : FieldId) → IsTypeTable types → IsOneEach types vars →
        IsFunctional types f ↔ ((depth : ℕ) (a : Assignment) → Covers depth a → WSat (field_formula types vars f) a → ⊥) }
    ensures any { (types : List TypeEntry) (vars : List VarEntry) (a : Assignment) (f : FieldId) → IsTypeTable types → IsFinite a →
        WSat (field_formula types vars f) a → IsFunctional types f → ⊥ }
{}

/// Where some cell of a backbone, over whatever variables, has two destinations, the formula over a table with one data variable a
/// type is satisfied by a tree of no more cells.
pub fn each_fork_has_a_tree_as_light()
    ensures { (types : List TypeEntry) (vars others : List VarEntry) (s : StoreMap) (f : FieldId) → IsTypeTable types →
        IsOneEach types vars → Fits types others s → IsBackbone types others s → HasFork types s f → HasLightTree types vars f s }
{}
