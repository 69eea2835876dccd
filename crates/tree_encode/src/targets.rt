//! The types of the cells that slots and data fields lead to.

ghost use Rattle.std.specs.Prelude.{◌≡◌, ◌++◌, [], flat_map, IfOk, OnOk};
ghost use Rattle.std.specs.Option.{option_map_or, option_copied};
ghost use Rattle.store_core.specs.Tables.{fields_of};
ghost use Rattle.tree_encode.specs.Spaces.{field_targets, var_targets, slot_types};

use std::alloc::{AllocError, Global};
use store_core::{FieldId, FieldKind, TypeId, TypeTable, VarId, VarKind, VarTable, VariantId};

/// Adds the target of a data field, and nothing for any other.
fn push_child(targets: &mut Vec<TypeId>, kind: Option<&FieldKind>) -> Result<(), AllocError>
    ensures { OnOk result (targets.new.items ≡ targets.old.items ++ option_map_or field_targets (option_copied kind.entry) []) }
{
    if let Some(FieldKind::Data(target)) = kind {
        targets.push(*target)?;
    }
    Ok(())
}

/// The targets of a type's data fields, in order.
pub fn child_types(alloc: Global, types: &TypeTable, ty: TypeId) -> Result<Vec<TypeId>, AllocError>
    ensures { IfOk result (λ targets. targets.items ≡ flat_map (λ f. field_targets f.kind) (fields_of types.now ty)) }
{
    let mut targets = Vec::new(alloc);
    for index in 0..types.fields(ty) {
        push_child(&mut targets, types.kind(FieldId { ty, index }))?;
    }
    Ok(targets)
}

/// Adds the type of the cell that a data variable names, and nothing for any other.
fn push_slot(targets: &mut Vec<TypeId>, kind: Option<&VarKind>) -> Result<(), AllocError>
    ensures { OnOk result (targets.new.items ≡ targets.old.items ++ option_map_or var_targets (option_copied kind.entry) []) }
{
    if let Some(VarKind::Data(target)) = kind {
        targets.push(*target)?;
    }
    Ok(())
}

/// The types of the cells that data variables name, in order.
fn var_types(alloc: Global, vars: &VarTable) -> Result<Vec<TypeId>, AllocError>
    ensures { IfOk result (λ targets. targets.items ≡ flat_map (λ v. var_targets v.kind) vars.now) }
{
    let mut targets = Vec::new(alloc);
    for index in 0..vars.vars() {
        push_slot(&mut targets, vars.kind(VarId(index)))?;
    }
    Ok(targets)
}

/// The types of the slots' cells: of the data variables in order, and then of the spares.
pub fn slot_types(
    alloc: Global,
    vars: &VarTable,
    spares: &[VariantId],
) -> Result<Vec<TypeId>, AllocError>
    ensures { IfOk result (λ targets. targets.items ≡ slot_types vars.now spares.now) }
{
    let mut targets = var_types(alloc, vars)?;
    for spare in spares {
        targets.push(spare.ty)?;
    }
    Ok(targets)
}
