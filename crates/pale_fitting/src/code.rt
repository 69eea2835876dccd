//! Laws of code.

ghost use Rattle.std.specs.Prelude.{◌≡◌, List, None};
ghost use Rattle.store_core.specs.Tables.{TypeEntry, VarEntry};
ghost use Rattle.store_logic.specs.FitsCode.{CondFits, ActFits};
ghost use Rattle.pale_syntax.specs.declared.tree.condition.Condition.{Condition};
ghost use Rattle.pale_syntax.specs.declared.tree.names.Name.{Name};
ghost use Rattle.pale_syntax.specs.declared.tree.names.Path.{Path};
ghost use Rattle.pale_syntax.specs.declared.tree.statement.Value.{Value};
ghost use Rattle.pale_terms.specs.Visibles.{Entry};
ghost use Rattle.pale_acts.specs.Conditions.{condition_fault, typed_condition};
ghost use Rattle.pale_acts.specs.Assignments.{assignment_fault, assignment_of, free_fault, free_of};
ghost use Rattle.pale_fitting.specs.Standing.{AreCodeVariables};

/// A condition without a fault fits.
pub fn conditions_without_fault_fit()
    ensures { (types : List TypeEntry) (vars : List VarEntry) (entries : List Entry) (condition : Condition) →
        AreCodeVariables vars entries → condition_fault types entries condition ≡ None → CondFits types vars (typed_condition types entries condition) }
{}

/// An assignment without a fault fits.
pub fn assignments_without_fault_fit()
    ensures { (types : List TypeEntry) (vars : List VarEntry) (entries : List Entry) (place : Path) (value : Value) →
        AreCodeVariables vars entries → assignment_fault types entries place value ≡ None →
        ActFits types vars (assignment_of types entries place value) }
{}

/// A `free` without a fault fits.
pub fn frees_without_fault_fit()
    ensures { (types : List TypeEntry) (vars : List VarEntry) (entries : List Entry) (name : Name) →
        AreCodeVariables vars entries → free_fault entries name ≡ None → ActFits types vars (free_of entries name) }
{}
