//! The whole formula.

ghost use Rattle.std.specs.Prelude.{◌≡◌, ◌++◌, flat_map, IfOk, OnOk};
ghost use Rattle.tree_encode.specs.Tracks.{track_count};
ghost use Rattle.tree_formula.specs.WellEncoded as formulas;
ghost use Rattle.tree_formula.specs.WellEncoded.{types_in, vars_in, type_parts, var_parts, apart_parts};

use crate::types::push_type;
use crate::variables::push_var;
use crate::variants::push_apart;
use std::alloc::{AllocError, Global};
use store_core::{TypeId, VarId};
use tree_encode::Layout;
use ws2s_core::Formula;
use ws2s_forms::and_list;

/// What is said of each type.
fn push_types(
    alloc: Global,
    parts: &mut Vec<Formula>,
    l: &Layout<'_>,
    next: u32,
) -> Result<(), AllocError>
    ensures { OnOk result (parts.new.items ≡ parts.old.items ++ flat_map (type_parts next l.now.types l.now.vars) (types_in l.now.types)) }
{
    for index in 0..l.types().types() {
        push_type(alloc, parts, l, next, TypeId(index))?;
    }
    Ok(())
}

/// What is said of each variable.
fn push_vars(
    alloc: Global,
    parts: &mut Vec<Formula>,
    l: &Layout<'_>,
    next: u32,
) -> Result<(), AllocError>
    ensures { OnOk result (parts.new.items ≡ parts.old.items ++ flat_map (var_parts next l.now.types l.now.vars) (vars_in l.now.vars)) }
{
    for index in 0..l.vars().vars() {
        push_var(alloc, parts, l, next, VarId(index))?;
    }
    Ok(())
}

/// What is said of the variants of each type.
fn push_variants(
    alloc: Global,
    parts: &mut Vec<Formula>,
    l: &Layout<'_>,
    next: u32,
) -> Result<(), AllocError>
    ensures { OnOk result (parts.new.items ≡ parts.old.items ++ flat_map (apart_parts next l.now.types) (types_in l.now.types)) }
{
    for index in 0..l.types().types() {
        push_apart(alloc, parts, l, next, TypeId(index))?;
    }
    Ok(())
}

/// The formula that the trees of stores over a layout satisfy, whose quantifiers bind tracks from `next` on. For a formula in
/// which further tracks are in use, `next` is above all of them.
///
/// # Errors
///
/// Want of memory, also where there are not as many tracks.
pub fn well_encoded_from(alloc: Global, l: &Layout<'_>, next: u32) -> Result<Formula, AllocError>
    ensures { IfOk result (λ formula. formula ≡ formulas.well_encoded next l.now.types l.now.vars) }
{
    let mut parts = Vec::new(alloc);
    push_types(alloc, &mut parts, l, next)?;
    push_vars(alloc, &mut parts, l, next)?;
    push_variants(alloc, &mut parts, l, next)?;
    and_list(alloc, next, parts)
}

/// The same, where the tracks of the layout are all that are in use.
///
/// # Errors
///
/// Want of memory, also where there are not as many tracks.
pub fn well_encoded(alloc: Global, l: &Layout<'_>) -> Result<Formula, AllocError>
    ensures { IfOk result (λ formula. formula ≡ formulas.well_encoded (track_count l.now.types l.now.vars) l.now.types l.now.vars) }
{
    well_encoded_from(alloc, l, l.tracks())
}
