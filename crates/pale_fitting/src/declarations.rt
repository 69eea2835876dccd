//! Laws of declarations.

ghost use Rattle.std.specs.Prelude.{◌≡◌, List, None};
ghost use Rattle.store_core.specs.Tables.{TypeEntry};
ghost use Rattle.store_logic.specs.Fits.{RouteFits};
ghost use Rattle.pale_syntax.specs.declared.tree.declaration.TypeDeclaration.{TypeDeclaration};
ghost use Rattle.pale_syntax.specs.declared.tree.declaration.PredicateDeclaration.{PredicateDeclaration};
ghost use Rattle.pale_syntax.specs.declared.tree.route.Route.{Route};
ghost use Rattle.pale_tables.specs.declared.type_names.TypeNames.{TypeNames};
ghost use Rattle.pale_tables.specs.declared.type_names.Followed.TheVariants as followed;
ghost use Rattle.pale_tables.specs.Routes.{route_fault, route_of};
ghost use Rattle.pale_tables.specs.Types.{names_in, type_table};
ghost use Rattle.pale_vocabulary.specs.Predicates.{predicates_fault, declared_by, nothing_with};
ghost use Rattle.pale_fitting.specs.Naming.{AreNamesOf};
ghost use Rattle.pale_fitting.specs.Declaring.{DeclarationsFit};

/// The names that declarations of types give are those of the table that they give.
pub fn names_of_declarations_are_those_of_their_table()
    ensures { (types : List TypeDeclaration) → AreNamesOf (type_table types) (names_in types) }
{}

/// A route of an assertion without a fault fits the types.
pub fn routes_without_fault_fit()
    ensures { (types : List TypeEntry) (names : TypeNames) (route : Route) → AreNamesOf types names →
        route_fault names followed.DataAndPointers route ≡ None → RouteFits types (route_of names route) }
{}

/// Predicates without a fault fit, over types whose names are these.
pub fn declarations_without_fault_fit()
    ensures { (types : List TypeEntry) (names : TypeNames) (predicates : List PredicateDeclaration) → AreNamesOf types names →
        predicates_fault (nothing_with types names) predicates ≡ None → DeclarationsFit (declared_by types names predicates) }
{}
