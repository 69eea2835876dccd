//! Laws of assertions.

ghost use Rattle.std.specs.Prelude.{◌≡◌, List, [], None, reverse};
ghost use Rattle.store_core.specs.Tables.{TypeEntry, VarEntry};
ghost use Rattle.store_logic.specs.declared.assertion.Assertion.{Assertion};
ghost use Rattle.store_logic.specs.declared.pred.PredDef.{PredDef};
ghost use Rattle.store_logic.specs.Sorts.{Scope, TermFits};
ghost use Rattle.store_logic.specs.Sorts as logic;
ghost use Rattle.store_logic.specs.Fits.{VariantTestFits, FitsIn, AssertionFits, PredsFit};
ghost use Rattle.store_logic.specs.Expansion.{expansion};
ghost use Rattle.store_logic.specs.Uses.{CanExpand};
ghost use Rattle.pale_text.specs.declared.place.Pos.{Pos};
ghost use Rattle.pale_syntax.specs.declared.tree.names.Name.{Name};
ghost use Rattle.pale_syntax.specs.declared.tree.names.Path.{Path};
ghost use Rattle.pale_syntax.specs.declared.tree.names.Term.{Term};
ghost use Rattle.pale_syntax.specs.declared.tree.assertion.Assertion as source;
ghost use Rattle.pale_terms.specs.Visibles.{Entry};
ghost use Rattle.pale_terms.specs.Terms.{typed_path, term_at, path_fault, variant_test, term_in, variant_test_fault};
ghost use Rattle.pale_vocabulary.specs.declared.vocabulary.Vocabulary.{Vocabulary};
ghost use Rattle.pale_vocabulary.specs.Heads.{Head};
ghost use Rattle.pale_vocabulary.specs.Assertions.{assertion_fault, typed_assertion};
ghost use Rattle.pale_vocabulary.specs.declared.vocabulary.Declared.{Declared};
ghost use Rattle.pale_fitting.specs.Standing.{sort_in, StandFor, AreVariables, pred_sorts, scope_with};
ghost use Rattle.pale_fitting.specs.Naming.{AreNamesOf};
ghost use Rattle.pale_fitting.specs.Declaring.{DeclarationsFit};

/// Visible variables stand for those of their table, whichever of them the place may use.
pub fn variables_stand_for_their_table()
    ensures { (vars : List VarEntry) (heads : List Head) (entries : List Entry) → AreVariables vars entries →
        StandFor entries (scope_with vars heads) }
{}

/// What stands at a path without a fault is of the sort that the rules say.
pub fn paths_without_fault_fit()
    ensures { (types : List TypeEntry) (entries : List Entry) (scope : Scope) (path : Path) → StandFor entries scope →
        path_fault types entries path ≡ None →
        TermFits types scope (term_at (typed_path types entries path)) (sort_in (typed_path types entries path).sort) }
{}

/// A test for a variant without a fault names a variant that is there, of the type of its term.
pub fn variant_tests_without_fault_fit()
    ensures { (types : List TypeEntry) (entries : List Entry) (scope : Scope) (term : Term) (colon : Pos) (variant : Name) →
        StandFor entries scope → variant_test_fault types entries term colon variant ≡ None →
        let test = variant_test types entries term variant in VariantTestFits types scope (term_in test.0) test.1 }
{}

/// An assertion without a fault fits where its names stand for what can be named.
pub fn assertions_without_fault_fit()
    ensures { (vocabulary : Vocabulary) (entries : List Entry) (scope : Scope) (a : source.Assertion) →
        AreNamesOf vocabulary.types vocabulary.names → StandFor entries scope → scope.preds ≡ pred_sorts vocabulary.preds →
        assertion_fault vocabulary entries a ≡ None → FitsIn vocabulary.types (typed_assertion vocabulary entries a) scope }
{}

/// Predicates that fit can be put into an assertion that fits.
pub fn assertions_that_fit_can_be_expanded()
    ensures { (types : List TypeEntry) (preds : List PredDef) (scope : Scope) (a : Assertion) →
        PredsFit types (reverse preds) (reverse scope.preds) → FitsIn types a scope → CanExpand preds a }
{}

/// With predicates that fit put in, an assertion that fits outside of all quantifiers and predicates still fits.
pub fn expansions_fit()
    ensures { (types : List TypeEntry) (vars : List VarEntry) (preds : List PredDef) (sorts : List (List logic.Sort)) (a : Assertion) →
        PredsFit types (reverse preds) (reverse sorts) →
        FitsIn types a (record { vars = vars; bound = []; params = []; preds = sorts }) → AssertionFits types vars (expansion preds a) }
{}

/// An assertion of a procedure without a fault fits among the variables and predicates.
pub fn assertions_of_procedures_fit()
    ensures { (declared : Declared) (vars : List VarEntry) (entries : List Entry) (a : source.Assertion) → DeclarationsFit declared →
        AreVariables vars entries → assertion_fault declared.vocabulary entries a ≡ None →
        FitsIn declared.vocabulary.types (typed_assertion declared.vocabulary entries a) (scope_with vars declared.vocabulary.preds) }
{}

/// The predicates can be put into an assertion of a procedure without a fault.
pub fn assertions_of_procedures_can_be_expanded()
    ensures { (declared : Declared) (vars : List VarEntry) (entries : List Entry) (a : source.Assertion) → DeclarationsFit declared →
        AreVariables vars entries → assertion_fault declared.vocabulary entries a ≡ None →
        CanExpand declared.preds (typed_assertion declared.vocabulary entries a) }
{}

/// With the predicates put in, it fits the tables.
pub fn expansions_of_procedures_fit()
    ensures { (declared : Declared) (vars : List VarEntry) (entries : List Entry) (a : source.Assertion) → DeclarationsFit declared →
        AreVariables vars entries → assertion_fault declared.vocabulary entries a ≡ None →
        AssertionFits declared.vocabulary.types vars (expansion declared.preds (typed_assertion declared.vocabulary entries a)) }
{}
