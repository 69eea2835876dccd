//! What doesn't look at pointer fields.

ghost use Rattle.std.specs.Prelude.{List};
ghost use Rattle.store_core.specs.Tables.{TypeEntry};
ghost use Rattle.store_core.specs.Stores.{StoreMap};
ghost use Rattle.witness_store.specs.Pointers.{DoCellsFit, IsSameButPointers, AreAlike};
ghost use Rattle.witness_store.specs.Setting.{IsSetFrom};

/// Destinations, backbones and the paths to cells are the same in stores that differ in their pointer fields alone.
pub fn pointers_dont_count()
    ensures { (types : List TypeEntry) (s t : StoreMap) → DoCellsFit types s → DoCellsFit types t → IsSameButPointers types s t → AreAlike types s t }
{}

/// Every store whose cells fit the table of types has one that is the same but for its pointer fields, and these are set.
pub fn pointers_can_be_set()
    ensures { (types : List TypeEntry) (s : StoreMap) → DoCellsFit types s → (t : StoreMap) × IsSetFrom types s t }
{}
