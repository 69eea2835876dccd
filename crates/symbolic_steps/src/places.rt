//! Places where a cause can come at a cell.

ghost use Rattle.std.specs.Prelude.{◌≡◌, ℕ, OnOk};
ghost use Rattle.tree_formula.specs.WellEncoded as encoded;
ghost use Rattle.graph_view.specs.Syms as syms;
ghost use Rattle.graph_view.specs.Live as live;
ghost use Rattle.graph_view.specs.Sights.{sight_of};
ghost use Rattle.site_list.specs.Reading as reading;
ghost use Rattle.symbolic_steps.specs.Shown.{checked, Follows};

use crate::seeing::lacks;
use crate::walker::{Walker, find, passes};
use graph_cells::{is_dead, is_null};
use graph_view::Sym;
use std::alloc::{AllocError, Global};
use store_core::{FieldId, Owner, VariantId};
use tree_encode::Layout;
use ws2s_core::Formula;

/// The value is null.
pub(crate) fn check_null(
    alloc: Global,
    w: &mut Walker,
    reached: &Formula,
    cell: Sym,
) -> Result<(), AllocError>
    ensures { OnOk result (w.new ≡ checked reached.now (syms.is_null w.old.view.next cell) w.old) }
{
    if !passes(w)? {
        return Ok(());
    }
    let condition = is_null(alloc, w.view.next, cell)?;
    find(alloc, w, reached, condition)
}

/// The value is a dead cell.
pub(crate) fn check_dead(
    alloc: Global,
    l: &Layout<'_>,
    w: &mut Walker,
    reached: &Formula,
    cell: Sym,
) -> Result<(), AllocError>
    ensures { OnOk result (w.new
        ≡ checked reached.now (live.is_dead l.now.types (sight_of l.now.vars w.old.view) w.old.view.next cell) w.old) }
{
    if !passes(w)? {
        return Ok(());
    }
    let condition = is_dead(alloc, l, &w.view, w.view.next, cell)?;
    find(alloc, w, reached, condition)
}

/// A live cell of the value hasn't the field.
fn check_field(
    alloc: Global,
    l: &Layout<'_>,
    w: &mut Walker,
    reached: &Formula,
    field: FieldId,
    cell: Sym,
) -> Result<(), AllocError>
    ensures { OnOk result (w.new
        ≡ checked reached.now (reading.lacks l.now.types (sight_of l.now.vars w.old.view) field cell w.old.view.next) w.old) }
{
    if !passes(w)? {
        return Ok(());
    }
    let condition = lacks(alloc, l, &w.view, w.view.next, field, cell)?;
    find(alloc, w, reached, condition)
}

/// A cell is looked at: it is null, or dead.
pub(crate) fn check_cell(
    alloc: Global,
    l: &Layout<'_>,
    w: &mut Walker,
    reached: &Formula,
    cell: Sym,
) -> Result<(), AllocError>
    ensures { OnOk result ((line : ℕ) → Follows reached.now w.old w.new
        (λ text s. reading.check_cell l.now.types l.now.vars line text cell s)) }
{
    check_null(alloc, w, reached, cell)?;
    check_dead(alloc, l, w, reached, cell)?;
    Ok(())
}

/// The variant that a field belongs to; `None` for a common field.
fn owner(l: &Layout<'_>, f: FieldId) -> Option<VariantId>
    ensures { result ≡ encoded.owner l.now.types f }
{
    match l.types().owner(f) {
        Some(Owner::Variant(v)) => Some(v),
        _ => None,
    }
}

/// The same, and where the field isn't common, the cell hasn't it.
pub(crate) fn check_access(
    alloc: Global,
    l: &Layout<'_>,
    w: &mut Walker,
    reached: &Formula,
    field: FieldId,
    cell: Sym,
) -> Result<(), AllocError>
    ensures { OnOk result ((line : ℕ) → Follows reached.now w.old w.new
        (λ text s. reading.check_access l.now.types l.now.vars line text field cell s)) }
{
    check_cell(alloc, l, w, reached, cell)?;
    match owner(l, field) {
        Some(_) => {
            check_field(alloc, l, w, reached, field, cell)?;
            Ok(())
        }
        None => Ok(()),
    }
}
