//! Whether variables are of types that are there.

ghost use Rattle.std.specs.Prelude.{◌≡◌, ◌↔◌, IsTrue, IfSome, List, length};
ghost use Rattle.store_core.specs.Tables.{TypeEntry, KnowsVarKind, IsTypeTable, IsVarTable, var_at};
ghost use Rattle.store_logic.specs.Fits.{KnowsVars};

use store_core::{TypeTable, VarId, VarKind, VarTable};

/// Whether the type that the kind names, if it names one, is one of so many.
fn knows_kind(types: u32, kind: VarKind) -> bool
    ensures { (table : List TypeEntry) → length table ≡ types → IsTrue result ↔ KnowsVarKind table kind }
{
    match kind {
        VarKind::Data(ty) | VarKind::Pointer(ty) | VarKind::LogicSet(ty) => ty.0 < types,
        VarKind::Bool | VarKind::LogicBool => true,
    }
}

/// The same of the variable's kind.
fn knows_var(types: u32, vars: &VarTable, var: VarId) -> bool
    ensures { (table : List TypeEntry) → length table ≡ types →
        IsTrue result ↔ IfSome (var_at vars.now var) (λ entry. KnowsVarKind table entry.kind) }
{
    match vars.kind(var) {
        Some(kind) => knows_kind(types, *kind),
        None => true,
    }
}

/// Whether the kinds of the variables name types of the table, as in every program that was typed.
pub(crate) fn knows_vars(types: &TypeTable, vars: &VarTable) -> bool
    ensures known { IsTrue result ↔ KnowsVars types.now vars.now }
    ensures types { IsTypeTable types.now }
    ensures vars { IsVarTable vars.now }
{
    let many = types.types();
    for index in 0..vars.vars() {
        if !knows_var(many, vars, VarId(index)) {
            return false;
        }
    }
    true
}
