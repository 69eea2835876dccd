//! The list of a guide's spaces.

ghost use Rattle.std.specs.Prelude.{◌≡◌, ◌+◌, ◌++◌, suc, length, map, take, IfOk, OnOk};
ghost use Rattle.store_core.specs.declared.ids.TypeId.{TypeId};
ghost use Rattle.tree_encode.specs.Spaces.{row, spaces_in, rows_after, guide_of};
ghost use Rattle.tree_encode.specs.Layouts.{first_at, IsTabled};

use crate::counting::{number_of, sum};
use crate::index::{First, first_of};
use crate::targets::{child_types, slot_types};
use std::alloc::{AllocError, Global};
use store_core::{TypeId, TypeTable, VarTable, VariantId};

/// Adds a row of spaces, one for each of these 0-children; for none a space that leads to the rest alone.
pub fn push_row(spaces: &mut Vec<(u32, u32)>, children: &[u32], rest: u32) -> Result<(), AllocError>
    ensures { OnOk result (spaces.new.items ≡ spaces.old.items ++ row (length spaces.old.items) rest children.now) }
{
    if children.is_empty() {
        spaces.push((rest, rest))?;
        return Ok(());
    }
    let mut left = children.len();
    for child in children {
        left -= 1;
        let next = if left == 0 {
            rest
        } else {
            sum(number_of(spaces.len())?, 1)?
        };
        spaces.push((*child, next))?;
    }
    Ok(())
}

/// The first spaces of types, where the row of the slots has so many.
fn first_spaces(
    alloc: Global,
    types: &TypeTable,
    firsts: &[First],
    start: u32,
    targets: &[TypeId],
) -> Result<Vec<u32>, AllocError>
    requires { IsTabled (first_at types.now) (suc (length types.now)) firsts.now }
    ensures { IfOk result (λ spaces. spaces.items ≡ map (λ (ty : TypeId). start + spaces_in (take ty.0 types.now)) targets.now) }
{
    let mut spaces = Vec::new(alloc);
    for target in targets {
        let first = first_of(types, firsts, target.0);
        spaces.push(sum(start, first.spaces)?)?;
    }
    Ok(spaces)
}

/// Adds the rows of the types.
fn push_rows(
    alloc: Global,
    types: &TypeTable,
    firsts: &[First],
    spaces: &mut Vec<(u32, u32)>,
    start: u32,
    rest: u32,
) -> Result<(), AllocError>
    requires { IsTabled (first_at types.now) (suc (length types.now)) firsts.now }
    ensures { OnOk result (spaces.new.items ≡ spaces.old.items ++ rows_after types.now start rest (length spaces.old.items) types.now) }
{
    for index in 0..types.types() {
        let targets = child_types(alloc, types, TypeId(index))?;
        let children = first_spaces(alloc, types, firsts, start, &targets)?;
        push_row(spaces, &children, rest)?;
    }
    Ok(())
}

/// The pairs of child spaces of a guide, in order.
pub fn space_list(
    alloc: Global,
    types: &TypeTable,
    vars: &VarTable,
    spares: &[VariantId],
    firsts: &[First],
) -> Result<Vec<(u32, u32)>, AllocError>
    requires { IsTabled (first_at types.now) (suc (length types.now)) firsts.now }
    ensures { IfOk result (λ spaces. spaces.items ≡ guide_of types.now vars.now spares.now) }
{
    let slots = slot_types(alloc, vars, spares)?;
    let start = number_of(slots.len())?.max(1);
    let all = first_of(types, firsts, types.types());
    let rest = sum(start, all.spaces)?;
    let children = first_spaces(alloc, types, firsts, start, &slots)?;
    let mut spaces = Vec::new(alloc);
    push_row(&mut spaces, &children, rest)?;
    push_rows(alloc, types, firsts, &mut spaces, start, rest)?;
    spaces.push((rest, rest))?;
    Ok(spaces)
}
