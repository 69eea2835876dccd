//! Live cells, and those that have a field.

ghost use Rattle.std.specs.Prelude.{◌≡◌, IfOk};
ghost use Rattle.tree_formula.specs.WellEncoded as formulas;

use graph_cells::first_view;
use std::alloc::{AllocError, Global};
use store_core::{FieldId, TypeId};
use tree_encode::Layout;
use ws2s_core::Formula;

/// A position is a live cell of a type.
pub(crate) fn is_live(
    alloc: Global,
    l: &Layout<'_>,
    next: u32,
    ty: TypeId,
    a: u32,
) -> Result<Formula, AllocError>
    ensures { IfOk result (λ formula. formula ≡ formulas.is_live next l.now.types ty a) }
{
    let first = first_view(alloc);
    graph_cells::lives_in(alloc, l, &first, next, ty, a)
}

/// A position is a live cell that has a field.
pub(crate) fn has(
    alloc: Global,
    l: &Layout<'_>,
    next: u32,
    f: FieldId,
    a: u32,
) -> Result<Formula, AllocError>
    ensures { IfOk result (λ formula. formula ≡ formulas.has next l.now.types f a) }
{
    let first = first_view(alloc);
    graph_cells::has(alloc, l, &first, next, f, a)
}
