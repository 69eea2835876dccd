//! What holds of satisfaction, each law the contract of a function that does nothing.

ghost use Rattle.std.specs.Prelude.{◌↔◌, ℕ, List};
ghost use Rattle.store_core.specs.declared.ids.CellId.{CellId};
ghost use Rattle.store_core.specs.Tables.{TypeEntry, VarEntry};
ghost use Rattle.store_core.specs.Stores.{StoreMap};
ghost use Rattle.routing_walks.specs.Regions.{store_on};
ghost use Rattle.store_logic.specs.declared.assertion.Assertion.{Assertion};
ghost use Rattle.store_logic.specs.declared.pred.PredDef.{PredDef};
ghost use Rattle.store_logic.specs.declared.region.Region.{Region};
ghost use Rattle.store_logic.specs.declared.region.Region.TheVariants as region;
ghost use Rattle.store_logic.specs.Terms.{Environment};
ghost use Rattle.store_logic.specs.Regions.{IsRegion};
ghost use Rattle.store_logic.specs.Satisfaction.{Sat};
ghost use Rattle.store_logic.specs.Laws.{GoesByCases};

/// An assertion is satisfied on all cells by the cases of its form.
pub fn satisfaction_goes_by_cases()
    ensures { (types : List TypeEntry) (preds : List PredDef) (s : StoreMap) → GoesByCases types preds s }
{}

/// An assertion is satisfied on a region exactly where it is on all cells of the store on the region's cells.
pub fn regions_are_stores_of_their_cells()
    ensures { (types : List TypeEntry) (vars : List VarEntry) (preds : List PredDef) (s : StoreMap) (e : Environment) (a : Assertion)
        (on : Region) (cells : List CellId) → IsRegion types vars s on cells →
        Sat types vars preds s on e a ↔ Sat types vars preds (store_on s cells) region.All e a }
{}

/// Satisfaction doesn't look at the next number.
pub fn satisfaction_ignores_the_next_number()
    ensures { (types : List TypeEntry) (vars : List VarEntry) (preds : List PredDef) (s : StoreMap) (n : ℕ) (on : Region) (e : Environment)
        (a : Assertion) → Sat types vars preds (record s { next = n }) on e a ↔ Sat types vars preds s on e a }
{}
