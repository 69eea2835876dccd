//! Pointer fields that have at most one destination on every backbone, and some that haven't.

ghost use Rattle.std.specs.Prelude.{◌≡◌, ◌↔◌, ℕ, List, Some, IsSomeAnd};
ghost use Rattle.store_core.specs.declared.ids.TypeId.{TypeId};
ghost use Rattle.store_core.specs.declared.ids.FieldId.{FieldId};
ghost use Rattle.store_core.specs.declared.kind.FieldKind.TheVariants as field;
ghost use Rattle.store_core.specs.declared.kind.Route.TheVariants as route;
ghost use Rattle.store_core.specs.Tables.{TypeEntry, VarEntry, field_at};
ghost use Rattle.store_core.specs.Stores.{StoreMap};
ghost use Rattle.routing_walks.specs.WellFormed.{IsFunctional};
ghost use Rattle.routing_walks.specs.Refuting.{IsOneEach, Refutes};
ghost use Rattle.routing_walks.specs.Twins.{twin_types, twin_vars, twin_store, twin_field};

/// A field with the route `^name` is functional, whatever its types are.
pub fn ways_up_are_functional()
    ensures { (types : List TypeEntry) (f : FieldId) (target : TypeId) (name : List ℕ) →
        IsSomeAnd (field_at types f) (λ entry. entry.kind ≡ field.Pointer target (route.Up name)) → IsFunctional types f }
{}

/// A field is functional exactly where no backbone over a table with one data variable a type refutes it: a walk over data
/// fields stays in one tree.
pub fn one_variable_a_type_is_enough()
    ensures { (types : List TypeEntry) (vars : List VarEntry) (f : FieldId) → IsOneEach types vars →
        IsFunctional types f ↔ ((s : StoreMap) → Refutes types vars s f → ⊥) }
{}

/// A field along a route that leads to two cells isn't functional: the backbone that is written out refutes it.
pub fn two_ways_are_not_functional()
    ensures refuted { Refutes twin_types twin_vars twin_store twin_field }
    ensures so { IsFunctional twin_types twin_field → ⊥ }
{}
