//! Which stores are fresh, and which changes keep them so.

ghost use Rattle.std.specs.Prelude.{List};
ghost use Rattle.store_core.specs.declared.ids.VariantId.{VariantId};
ghost use Rattle.store_core.specs.declared.ids.FieldId.{FieldId};
ghost use Rattle.store_core.specs.declared.ids.VarId.{VarId};
ghost use Rattle.store_core.specs.declared.ids.CellId.{CellId};
ghost use Rattle.store_core.specs.declared.value.Value.{Value};
ghost use Rattle.store_core.specs.Tables.{TypeEntry, VarEntry};
ghost use Rattle.store_core.specs.Stores.{StoreMap, IsAbove, IsFresh, NamesBelow, NamesNoDead, empty_store, put_cell, set_field, set_var, remove_cell};

/// A store whose values name live cells alone is fresh, its next number being above that of every cell.
pub fn stores_without_dead_names_are_fresh()
    ensures { (s : StoreMap) → IsAbove s → NamesNoDead s → IsFresh s }
{}

/// The store without cells is fresh.
pub fn empty_stores_are_fresh()
    ensures { (vars : List VarEntry) → IsFresh (empty_store vars) }
{}

/// A new cell names no cell.
pub fn putting_a_cell_keeps_fresh()
    ensures { (types : List TypeEntry) (s : StoreMap) (v : VariantId) → IsFresh s → IsFresh (put_cell s types v) }
{}

/// A value that names cells below the next number, in any field.
pub fn setting_a_field_keeps_fresh()
    ensures { (s : StoreMap) (c : CellId) (f : FieldId) (x : Value) →
        IsFresh s → NamesBelow s.next x → IsFresh (set_field s c f x) }
{}

/// The same in any variable.
pub fn setting_a_variable_keeps_fresh()
    ensures { (s : StoreMap) (v : VarId) (x : Value) → IsFresh s → NamesBelow s.next x → IsFresh (set_var s v x) }
{}

/// A freed cell's number stays below the next.
pub fn removing_a_cell_keeps_fresh()
    ensures { (s : StoreMap) (c : CellId) → IsFresh s → IsFresh (remove_cell s c) }
{}
