//! Which changes keep a store fitting its tables.

ghost use Rattle.std.specs.Prelude.{List, IsSome, IsSomeAnd};
ghost use Rattle.store_core.specs.declared.ids.VariantId.{VariantId};
ghost use Rattle.store_core.specs.declared.ids.FieldId.{FieldId};
ghost use Rattle.store_core.specs.declared.ids.VarId.{VarId};
ghost use Rattle.store_core.specs.declared.ids.CellId.{CellId};
ghost use Rattle.store_core.specs.declared.value.Value.{Value};
ghost use Rattle.store_core.specs.Tables.{TypeEntry, VarEntry, KnowsVariant, field_at, var_at};
ghost use Rattle.store_core.specs.Stores.{StoreMap, IsFresh, Fits, FieldFits, VarFits, field_value, empty_store, put_cell, set_field, set_var, remove_cell};

/// The store without cells fits its tables.
pub fn empty_stores_fit()
    ensures { (types : List TypeEntry) (vars : List VarEntry) → Fits types vars (empty_store vars) }
{}

/// A new cell of a known variant, in a fresh store: else a value might name its number already, and ask for another type.
pub fn putting_a_cell_keeps_fitting()
    ensures { (types : List TypeEntry) (vars : List VarEntry) (s : StoreMap) (v : VariantId) →
        Fits types vars s → IsFresh s → KnowsVariant types v → Fits types vars (put_cell s types v) }
{}

/// A value that fits the field, in a live cell that has it.
pub fn setting_a_field_keeps_fitting()
    ensures { (types : List TypeEntry) (vars : List VarEntry) (s : StoreMap) (c : CellId) (f : FieldId) (x : Value) →
        Fits types vars s → IsSome (field_value s c f) → IsSomeAnd (field_at types f) (λ entry. FieldFits s entry.kind x) →
        Fits types vars (set_field s c f x) }
{}

/// A value that fits the variable.
pub fn setting_a_variable_keeps_fitting()
    ensures { (types : List TypeEntry) (vars : List VarEntry) (s : StoreMap) (v : VarId) (x : Value) →
        Fits types vars s → IsSomeAnd (var_at vars v) (λ entry. VarFits s entry.kind x) → Fits types vars (set_var s v x) }
{}

/// Any cell may be freed.
pub fn removing_a_cell_keeps_fitting()
    ensures { (types : List TypeEntry) (vars : List VarEntry) (s : StoreMap) (c : CellId) →
        Fits types vars s → Fits types vars (remove_cell s c) }
{}
