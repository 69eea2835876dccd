//! What each change of a store changes and what it leaves.

ghost use Rattle.std.specs.Prelude.{List, IsSome};
ghost use Rattle.store_core.specs.declared.ids.VariantId.{VariantId};
ghost use Rattle.store_core.specs.declared.ids.FieldId.{FieldId};
ghost use Rattle.store_core.specs.declared.ids.VarId.{VarId};
ghost use Rattle.store_core.specs.declared.ids.CellId.{CellId};
ghost use Rattle.store_core.specs.declared.value.Value.{Value};
ghost use Rattle.store_core.specs.Tables.{TypeEntry};
ghost use Rattle.store_core.specs.Stores.{StoreMap, IsAbove, field_value, var_value, put_cell, set_field, set_var, remove_cell};
ghost use Rattle.store_laws.specs.Changed.{IsPut, IsFieldSet, IsVarSet, IsRemoved, next_cell};

/// A new cell is blank and has the next number, which no live cell had; nothing else changes.
pub fn putting_a_cell()
    ensures { (types : List TypeEntry) (s : StoreMap) (v : VariantId) → IsAbove s → IsPut types v (next_cell s) s (put_cell s types v) }
{}

/// A field that a live cell has holds what is stored in it; nothing else changes.
pub fn setting_a_field()
    ensures { (s : StoreMap) (c : CellId) (f : FieldId) (x : Value) → IsSome (field_value s c f) → IsFieldSet c f x s (set_field s c f x) }
{}

/// A variable holds what is stored in it; nothing else changes.
pub fn setting_a_variable()
    ensures { (s : StoreMap) (v : VarId) (x : Value) → IsSome (var_value s v) → IsVarSet v x s (set_var s v x) }
{}

/// A cell that is freed is dead; nothing else changes.
pub fn removing_a_cell()
    ensures { (s : StoreMap) (c : CellId) → IsRemoved c s (remove_cell s c) }
{}
