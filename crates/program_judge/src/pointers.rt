//! The pointer fields of all types.

ghost use Rattle.std.specs.Prelude.{◌≡◌, ◌++◌, false, IfOk, OnOk};
ghost use Rattle.std.specs.Option.{option_map_or};
ghost use Rattle.store_core.specs.Tables.{field_at};
ghost use Rattle.graph_view.specs.Fields.{fields_in_where, has_kind};
ghost use Rattle.program_judge.specs.Reports as reports;

use std::alloc::{AllocError, Global};
use store_core::{FieldId, FieldKind, TypeId, TypeTable};

fn is_pointer(types: &TypeTable, f: FieldId) -> bool
    ensures { result ≡ option_map_or (has_kind reports.is_pointer) (field_at types.now f) false }
{
    match types.kind(f) {
        Some(kind) => matches!(kind, FieldKind::Pointer(_, _)),
        None => false,
    }
}

/// Puts the pointer fields of a type at the end of the list.
fn push_pointers(fields: &mut Vec<FieldId>, types: &TypeTable, ty: TypeId) -> Result<(), AllocError>
    ensures { OnOk result (fields.new.items ≡ fields.old.items ++ fields_in_where types.now (has_kind reports.is_pointer) ty) }
{
    for index in 0..types.fields(ty) {
        let f = FieldId { ty, index };
        if is_pointer(types, f) {
            fields.push(f)?;
        }
    }
    Ok(())
}

/// The pointer fields, types in order and the fields of each in order.
pub fn pointer_fields(alloc: Global, types: &TypeTable) -> Result<Vec<FieldId>, AllocError>
    ensures { IfOk result (λ fields. fields.items ≡ reports.pointer_fields types.now) }
{
    let mut fields = Vec::new(alloc);
    for index in 0..types.types() {
        push_pointers(&mut fields, types, TypeId(index))?;
    }
    Ok(fields)
}
