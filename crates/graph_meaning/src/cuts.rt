//! What the formulas of cuts mean.

ghost use Rattle.std.specs.Prelude.{◌↔◌, ℕ, ◌≤◌};
ghost use Rattle.gta_theory.specs.Assignments.{Assignment};
ghost use Rattle.ws2s_core.specs.Satisfaction.{WSat};
ghost use Rattle.store_core.specs.Stores.{StoreMap};
ghost use Rattle.routing_walks.specs.CutFaults.{HasDanglingReference, HasShared, HasLeaked, HasWrongField};
ghost use Rattle.tree_encode.specs.Layouts.{LaidOut};
ghost use Rattle.graph_view.specs.declared.view.View.{View};
ghost use Rattle.graph_view.specs.declared.view.CutCheck.TheVariants as check;
ghost use Rattle.graph_view.specs.Sights.{sight_of};
ghost use Rattle.graph_view.specs.Cuts.{cut_formula};
ghost use Rattle.graph_view.specs.After.{Standing};
ghost use Rattle.graph_meaning.specs.Live.Meaning.{Agrees};
ghost use Rattle.graph_meaning.specs.Walks.Wells.{ShowsWell};

/// Where a view shows all of the store, the formula of dangling references holds exactly where a variable or a field of a live cell
/// names a dead cell.
pub fn dangling_references_are_told()
    ensures { (l : LaidOut) (view : View) (a b : Assignment) (first s : StoreMap) (at : Standing) (count next : ℕ) →
        ShowsWell l view a first s s at count → Agrees count a b → count ≤ next →
        WSat (cut_formula l.types (sight_of l.vars view) l.vars view.vars check.DanglingRef next) b ↔ HasDanglingReference s }
{}

/// The formula of shared cells holds exactly where a live cell is named twice by data variables and data fields of live cells.
pub fn shared_cells_are_told()
    ensures { (l : LaidOut) (view : View) (a b : Assignment) (first s : StoreMap) (at : Standing) (count next : ℕ) →
        ShowsWell l view a first s s at count → Agrees count a b → count ≤ next →
        WSat (cut_formula l.types (sight_of l.vars view) l.vars view.vars check.Shared next) b ↔ HasShared l.types l.vars s }
{}

/// The formula of leaks holds exactly where a live cell isn't reached from a data variable by data fields.
pub fn leaks_are_told()
    ensures { (l : LaidOut) (view : View) (a b : Assignment) (first s : StoreMap) (at : Standing) (count next : ℕ) →
        ShowsWell l view a first s s at count → Agrees count a b → count ≤ next →
        WSat (cut_formula l.types (sight_of l.vars view) l.vars view.vars check.Leak next) b ↔ HasLeaked l.types l.vars s }
{}

/// The formula of wrong fields holds exactly where a pointer field of a live cell isn't its only destination, or null where there
/// is none.
pub fn wrong_fields_are_told()
    ensures { (l : LaidOut) (view : View) (a b : Assignment) (first s : StoreMap) (at : Standing) (count next : ℕ) →
        ShowsWell l view a first s s at count → Agrees count a b → count ≤ next →
        WSat (cut_formula l.types (sight_of l.vars view) l.vars view.vars check.Field next) b ↔ HasWrongField l.types s }
{}
