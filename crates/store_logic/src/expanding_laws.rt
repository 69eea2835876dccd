//! What holds of assertions with their predicates put in, each law the contract of a function that does nothing.

ghost use Rattle.std.specs.Prelude.{◌≡◌, ◌↔◌, ℕ, List, [], map};
ghost use Rattle.std.specs.List.{AllByRecursion};
ghost use Rattle.store_core.specs.Tables.{TypeEntry, VarEntry};
ghost use Rattle.store_core.specs.Stores.{StoreMap};
ghost use Rattle.store_logic.specs.declared.arg.Arg.{Arg};
ghost use Rattle.store_logic.specs.declared.assertion.Assertion.{Assertion};
ghost use Rattle.store_logic.specs.declared.pred.PredDef.{PredDef};
ghost use Rattle.store_logic.specs.declared.region.Region.{Region};
ghost use Rattle.store_logic.specs.Terms.{Environment};
ghost use Rattle.store_logic.specs.Satisfaction.{Sat};
ghost use Rattle.store_logic.specs.Filling.{args_for, filled_arg, filled, put_in};
ghost use Rattle.store_logic.specs.Expansion.{expansion};
ghost use Rattle.store_logic.specs.Sizes.{node_count};
ghost use Rattle.store_logic.specs.Uses.{CanExpand, IsGiven, names_in, uses_in};

/// An assertion is satisfied exactly where it is with its predicates put in.
pub fn expansions_keep_satisfaction()
    ensures { (types : List TypeEntry) (vars : List VarEntry) (preds : List PredDef) (s : StoreMap) (on : Region) (e : Environment)
        (a : Assertion) → CanExpand preds a → Sat types vars preds s on e a ↔ Sat types vars [] s on e (expansion preds a) }
{}

/// No predicate stands in an assertion with its predicates put in.
pub fn expansions_use_no_predicates()
    ensures { (preds : List PredDef) (a : Assertion) → CanExpand preds a → uses_in (expansion preds a) ≡ [] }
{}

/// A predicate's body has as many nodes with arguments put in as without.
pub fn arguments_keep_the_size()
    ensures { (args : List Arg) (body : Assertion) → node_count (put_in args body) ≡ node_count body }
{}

/// A predicate's arguments, put into a use that stands in its body, go into the arguments of the use.
pub fn arguments_go_into_arguments()
    ensures { (args inner : List Arg) (body : Assertion) (depth : ℕ) → AllByRecursion (IsGiven inner) (names_in body) →
        filled (args_for args) (put_in inner body) depth ≡ put_in (map (filled_arg (args_for args) depth) inner) body }
{}
