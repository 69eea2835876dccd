//! Laws of the store text: what is read fits its tables, and what is written is read.

ghost use Rattle.std.specs.Prelude.{◌≡◌, ◌↔◌, ℕ, List, Ok};
ghost use Rattle.std.specs.FinMap.{keys};
ghost use Rattle.store_core.specs.Tables.{TypeEntry, VarEntry, IsTypeTable, IsVarTable};
ghost use Rattle.store_core.specs.Stores.{StoreMap, Fits, IsFresh};
ghost use Rattle.store_text.specs.StoreText.{store_text_of};
ghost use Rattle.store_text.specs.Reading.{reading, next_after, NamesAllBelow};
ghost use Rattle.store_text.specs.Writable.{HaveNames, IsWritable};

/// A store that was read fits the tables that it was read by.
pub fn read_stores_fit()
    ensures { (types : List TypeEntry) (vars : List VarEntry) (text : List ℕ) (store : StoreMap) →
        reading types vars text ≡ Ok store → Fits types vars store }
{}

/// The next number of a store that was read is one above its greatest cell number, and 1 without cells.
pub fn read_stores_go_on()
    ensures { (types : List TypeEntry) (vars : List VarEntry) (text : List ℕ) (store : StoreMap) →
        reading types vars text ≡ Ok store → store.next ≡ next_after (keys store.cells) }
{}

/// A store that was read is fresh exactly where no value names a cell above its greatest cell. So it is fresh where its values name
/// live cells alone; a text may name a cell that isn't there, above all others.
pub fn read_stores_are_fresh_below()
    ensures { (types : List TypeEntry) (vars : List VarEntry) (text : List ℕ) (store : StoreMap) →
        reading types vars text ≡ Ok store → IsFresh store ↔ NamesAllBelow (next_after (keys store.cells)) store }
{}

/// What is written of a store is read as that store, where the tables' names are names, and the store has and names cells by
/// the numbers from 1 to 1,000,000 alone and has the next number that the reader gives.
pub fn written_stores_are_read()
    ensures { (types : List TypeEntry) (vars : List VarEntry) (store : StoreMap) →
        IsTypeTable types → IsVarTable vars → HaveNames types vars → Fits types vars store → IsWritable store →
        reading types vars (store_text_of types vars store) ≡ Ok store }
{}
