//! What is wrong with a store at a cut, and where a triple starts.

ghost use Rattle.std.specs.Prelude.{◌≡◌, ◌↔◌, Some, IfOk, IsTrue, IsSomeAnd, All, Contains};
ghost use Rattle.std.specs.List.{AllByRecursion};
ghost use Rattle.store_core.specs.declared.ids.VarId.{VarId};
ghost use Rattle.store_core.specs.declared.ids.CellId.{CellId};
ghost use Rattle.store_core.specs.Stores.{Fits, var_value};
ghost use Rattle.store_core.specs.CellLists.{AreRising};
ghost use Rattle.routing_walks.specs.WellFormed.{IsWellFormed};
ghost use Rattle.routing_walks.specs.CutFaults.{IsSound};
ghost use Rattle.store_exec.specs.Cuts.{AreMet, PointsTo, Escapes, AtCut};
ghost use Rattle.store_exec.specs.Failing.{IsBlank, StartHolds};
ghost use Rattle.store_exec.specs.Fits.{ClaimFits, CutFits, StartFits};
ghost use Rattle.store_exec.specs.Telling.{IsAstray, cause_of_fault};

use routing_expr::{cut_fault, reached};
use routing_walks::CutFault;
use std::alloc::{AllocError, Global};
use store_claims::holds;
use store_core::{CellId, Store, TypeTable, Value, VarId, VarKind, VarTable};
use store_exec::{Cause, Claim, Cut, Start};
use store_logic::VarList;
use store_sat::has;

/// Whether the store meets each of the claims.
fn are_met(
    alloc: Global,
    types: &TypeTable,
    vars: &VarTable,
    store: &Store,
    claims: &[Claim],
) -> Result<bool, AllocError>
    requires fits { Fits types.now vars.now store.now }
    requires claims { AllByRecursion (ClaimFits types.now vars.now) claims.now }
    ensures { IfOk result (λ met. IsTrue met ↔ AreMet types.now vars.now store.now claims.now) }
{
    for claim in claims {
        if !holds(alloc, types, vars, store, claim)? {
            return Ok(false);
        }
    }
    Ok(true)
}

/// The cell that a pointer variable names.
fn pointed(vars: &VarTable, store: &Store, var: VarId) -> Option<CellId>
    ensures { (c : CellId) → (result ≡ Some c) ↔ PointsTo vars.now store.now var c }
{
    if !matches!(vars.kind(var)?, VarKind::Pointer(_)) {
        return None;
    }
    match store.var(var)? {
        Value::Cell(cell) => *cell,
        Value::Bool(_) | Value::Cells(_) => None,
    }
}

/// Whether the variable is one of these.
fn is_listed(vars: &[VarId], var: VarId) -> bool
    ensures { IsTrue result ↔ Contains vars.now var }
{
    for listed in vars {
        if listed.0 == var.0 {
            return true;
        }
    }
    false
}

/// Whether the variable breaks the pointer rule of a call on a part: it is listed and names a cell outside, or it isn't and names
/// one inside.
fn is_astray(vars: &VarTable, store: &Store, cells: &[CellId], inside: &[VarId], var: VarId) -> bool
    requires { AreRising cells.now }
    ensures { IsTrue result ↔ IsAstray vars.now store.now cells.now inside.now var }
{
    match pointed(vars, store, var) {
        Some(cell) => is_listed(inside, var) != has(cells, cell),
        None => false,
    }
}

/// Whether some variable breaks the pointer rule of a call on a part. What is listed is looked through for each pointer variable,
/// since a procedure has 64 variables at most.
fn any_astray(vars: &VarTable, store: &Store, cells: &[CellId], inside: &[VarId]) -> bool
    requires { AreRising cells.now }
    ensures { IsTrue result ↔ ((v : VarId) × IsAstray vars.now store.now cells.now inside.now v) }
{
    for index in 0..vars.vars() {
        if is_astray(vars, store, cells, inside, VarId(index)) {
            return true;
        }
    }
    false
}

/// Whether a pointer variable is on the wrong side of the part that data fields reach from data variables.
fn has_escape(
    alloc: Global,
    types: &TypeTable,
    vars: &VarTable,
    store: &Store,
    part: &[VarId],
    inside: &[VarId],
) -> Result<bool, AllocError>
    ensures { IfOk result (λ found. IsTrue found ↔ Escapes types.now vars.now store.now part.now inside.now) }
{
    let cells = reached(alloc, types, vars, store, part)?;
    Ok(any_astray(vars, store, cells.as_slice(), inside))
}

/// The cause of a cut for a condition that a store breaks there.
fn cause_of(fault: CutFault) -> Cause
    ensures { result ≡ cause_of_fault fault }
{
    match fault {
        CutFault::DanglingReference => Cause::DanglingRef,
        CutFault::Shared => Cause::Shared,
        CutFault::Leak => Cause::Leak,
        CutFault::Field => Cause::Field,
    }
}

/// Whether the cut has a handed part that a pointer variable is on the wrong side of.
fn escapes_at(
    alloc: Global,
    types: &TypeTable,
    vars: &VarTable,
    store: &Store,
    part: &Option<VarList>,
    inside: &[VarId],
) -> Result<bool, AllocError>
    ensures { IfOk result (λ found. IsTrue found ↔ IsSomeAnd part.now (λ roots. Escapes types.now vars.now store.now roots inside.now)) }
{
    match part {
        Some(roots) => has_escape(alloc, types, vars, store, roots.as_slice(), inside),
        None => Ok(false),
    }
}

/// The first condition that a store which fits its tables breaks on arriving at a cut; `None` exactly where it breaks none.
pub fn at_cut(
    alloc: Global,
    types: &TypeTable,
    vars: &VarTable,
    cut: &Cut,
    store: &Store,
) -> Result<Option<Cause>, AllocError>
    requires fits { Fits types.now vars.now store.now }
    requires cut { CutFits types.now vars.now cut.now }
    ensures { IfOk result (AtCut types.now vars.now cut.now store.now) }
{
    match cut_fault(alloc, types, vars, store)? {
        Some(fault) => Ok(Some(cause_of(fault))),
        None => at_sound(alloc, types, vars, cut, store),
    }
}

/// The same of a store that breaks none of a cut's conditions on stores.
fn at_sound(
    alloc: Global,
    types: &TypeTable,
    vars: &VarTable,
    cut: &Cut,
    store: &Store,
) -> Result<Option<Cause>, AllocError>
    requires fits { Fits types.now vars.now store.now }
    requires cut { CutFits types.now vars.now cut.now }
    requires sound { IsSound types.now vars.now store.now }
    ensures { IfOk result (AtCut types.now vars.now cut.now store.now) }
{
    let escapes = escapes_at(
        alloc,
        types,
        vars,
        store,
        &cut.handed,
        cut.inside.as_slice(),
    )?;
    if escapes {
        return Ok(Some(Cause::Escape));
    }
    let met = are_met(alloc, types, vars, store, cut.asserts.as_slice())?;
    Ok(if met { None } else { Some(Cause::Post) })
}

/// Whether the variable is null or false.
fn is_blank(store: &Store, var: VarId) -> bool
    ensures { IsTrue result ↔ IsSomeAnd (var_value store.now var) IsBlank }
{
    match store.var(var) {
        Some(Value::Bool(truth)) => !*truth,
        Some(Value::Cell(cell)) => cell.is_none(),
        Some(Value::Cells(_)) | None => false,
    }
}

/// Whether all these variables are null or false.
fn are_blank(store: &Store, vars: &[VarId]) -> bool
    ensures { IsTrue result ↔ All (λ v. IsSomeAnd (var_value store.now v) IsBlank) vars.now }
{
    for var in vars {
        if !is_blank(store, *var) {
            return false;
        }
    }
    true
}

/// Whether a triple's start holds in a well-formed store: the listed variables are null or false, after a call each pointer variable
/// is on its side of the returned part, and the claims are met.
pub fn meets(
    alloc: Global,
    types: &TypeTable,
    vars: &VarTable,
    start: &Start,
    store: &Store,
) -> Result<bool, AllocError>
    requires store { IsWellFormed types.now vars.now store.now }
    requires start { StartFits types.now vars.now start.now }
    ensures { IfOk result (λ holds. IsTrue holds ↔ StartHolds types.now vars.now start.now store.now) }
{
    if !are_blank(store, start.nulls.as_slice()) {
        return Ok(false);
    }
    if escapes_at(
        alloc,
        types,
        vars,
        store,
        &start.returned,
        start.inside.as_slice(),
    )? {
        return Ok(false);
    }
    are_met(alloc, types, vars, store, start.asserts.as_slice())
}
