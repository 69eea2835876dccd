//! The numbers that a layout keeps.

ghost use Rattle.std.specs.Prelude.{◌≡◌, ◌+◌, suc, false, length, IfOk};
ghost use Rattle.std.specs.Option.{option_map_or};
ghost use Rattle.store_core.specs.Tables.{KnowsType, var_at};
ghost use Rattle.tree_encode.specs.Counting.{is_data_var};
ghost use Rattle.tree_encode.specs.Layouts.{first_at, slots_before, IsTabled};

use crate::counting::{Counted, counted_before, sum};
use std::alloc::{AllocError, Global};
use store_core::{TypeId, TypeTable, VarId, VarKind, VarTable};

/// How many variants, bool fields and spaces of rows stand before a type.
#[derive(Clone, Copy)]
pub struct First {
    pub variants: u32,
    pub bools: u32,
    pub spaces: u32,
}

/// What stands behind a type, by what stands before it.
fn behind(types: &TypeTable, ty: TypeId, first: First) -> Result<First, AllocError>
    requires known { KnowsType types.now ty }
    requires before { first ≡ first_at types.now ty.0 }
    ensures { IfOk result (λ next. next ≡ first_at types.now (ty.0 + 1)) }
{
    let bools = counted_before(types, Counted::Bools, ty, types.fields(ty));
    let children = counted_before(types, Counted::Children, ty, types.fields(ty));
    Ok(First {
        variants: sum(first.variants, types.variants(ty))?,
        bools: sum(first.bools, bools)?,
        spaces: sum(first.spaces, children.max(1))?,
    })
}

/// What stands before each type, and last what stands behind all.
pub fn index_types(alloc: Global, types: &TypeTable) -> Result<Vec<First>, AllocError>
    ensures { IfOk result (λ firsts. IsTabled (first_at types.now) (suc (length types.now)) firsts.items) }
{
    let mut firsts = Vec::new(alloc);
    let mut next = First {
        variants: 0,
        bools: 0,
        spaces: 0,
    };
    for index in 0..types.types() {
        firsts.push(next)?;
        next = behind(types, TypeId(index), next)?;
    }
    firsts.push(next)?;
    Ok(firsts)
}

/// Whether the variable is a data variable.
fn is_data(vars: &VarTable, v: VarId) -> bool
    ensures { result ≡ option_map_or is_data_var (var_at vars.now v) false }
{
    matches!(vars.kind(v), Some(VarKind::Data(_)))
}

/// How many data variables stand before each variable.
pub fn index_vars(alloc: Global, vars: &VarTable) -> Result<Vec<u32>, AllocError>
    ensures { IfOk result (λ slots. IsTabled (slots_before vars.now) (length vars.now) slots.items) }
{
    let mut slots = Vec::new(alloc);
    let mut count = 0;
    for index in 0..vars.vars() {
        slots.push(count)?;
        if is_data(vars, VarId(index)) {
            count += 1;
        }
    }
    Ok(slots)
}

/// What stands before the type with this number; a type that isn't there counts as behind all.
pub fn first_of(types: &TypeTable, firsts: &[First], ty: u32) -> First
    requires { IsTabled (first_at types.now) (suc (length types.now)) firsts.now }
    ensures { result ≡ first_at types.now ty }
{
    firsts[ty.min(types.types()) as usize]
}
