//! What the answers exclude of one another.

ghost use Rattle.std.specs.Prelude.{List};
ghost use Rattle.store_core.specs.declared.ids.FieldId.{FieldId};
ghost use Rattle.store_core.specs.declared.ids.CellId.{CellId};
ghost use Rattle.store_core.specs.Tables.{TypeEntry};
ghost use Rattle.store_core.specs.Stores.{StoreMap};
ghost use Rattle.routing_walks.specs.WellFormed.{IsFunctional};
ghost use Rattle.routing_walks.specs.Refuting.{IsOneEach, Refutes};
ghost use Rattle.field_judge.specs.OneEach.{type_vars};
ghost use Rattle.field_judge.specs.Judging.{IsLeastFork};

/// A backbone that is answered refutes that the field is functional, so one of the two answers alone is right.
pub fn ambiguous_fields_are_not_functional()
    ensures refutes { (types : List TypeEntry) (f : FieldId) (s : StoreMap) (c : CellId) → IsLeastFork types f s c →
        Refutes types (type_vars types) s f }
    ensures so { (types : List TypeEntry) (f : FieldId) (s : StoreMap) (c : CellId) → IsLeastFork types f s c →
        IsFunctional types f → ⊥ }
{}

/// The table of the answered backbone has one data variable of each type, and no other variable.
pub fn type_vars_are_one_each()
    ensures { (types : List TypeEntry) → IsOneEach types (type_vars types) }
{}
