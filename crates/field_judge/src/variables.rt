//! The table with one data variable a type.

ghost use Rattle.std.specs.Prelude.{◌≡◌, IfOk};
ghost use Rattle.field_judge.specs.OneEach.{type_vars};

use std::alloc::{AllocError, Global};
use store_core::{TypeId, TypeTable, VarKind, VarTable};

/// One data variable of each type, in the order of the types, named as its type: the variables of the backbones that are
/// answered.
///
/// # Errors
///
/// Want of memory.
pub fn one_each(alloc: Global, types: &TypeTable) -> Result<VarTable, AllocError>
    ensures { IfOk result (λ vars. vars ≡ type_vars types.now) }
{
    let mut vars = VarTable::new(alloc);
    for index in 0..types.types() {
        let ty = TypeId(index);
        let Some(name) = types.type_name(ty) else {
            unreachable!()
        };
        vars.add(name, VarKind::Data(ty))?;
    }
    Ok(vars)
}
