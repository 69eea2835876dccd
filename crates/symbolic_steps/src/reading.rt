//! Reading of fields: where it can fail, and what stands for what is read.

ghost use Rattle.std.specs.Prelude.{◌≡◌, ℕ, [], IfOk};
ghost use Rattle.site_list.specs.Reading as reading;
ghost use Rattle.symbolic_steps.specs.Shown.{Gets, Tells};

use crate::places::check_access;
use crate::seeing::{is_read, is_true_of};
use crate::walker::{Walker, define, next_track, value_of};
use graph_cells::truth;
use graph_view::Sym;
use std::alloc::{AllocError, Global};
use store_core::FieldId;
use store_logic::{Operand, Path};
use tree_encode::Layout;
use ws2s_core::Formula;

/// Reads a cell field.
pub(crate) fn read(
    alloc: Global,
    l: &Layout<'_>,
    w: &mut Walker,
    reached: &Formula,
    field: FieldId,
    cell: Sym,
) -> Result<Sym, AllocError>
    ensures { IfOk result (λ value. (line : ℕ) → Gets reached.now w.old w.new value
        (λ text s. reading.read l.now.types l.now.vars line text field (cell, s))) }
{
    check_access(alloc, l, w, reached, field, cell)?;
    let own = next_track(l, w)?;
    let definition = is_read(alloc, l, &w.view, w.view.next, field, cell, own)?;
    define(w, definition)?;
    Ok(Sym::At(own))
}

/// Reads cell fields one after the other.
pub(crate) fn read_along(
    alloc: Global,
    l: &Layout<'_>,
    w: &mut Walker,
    reached: &Formula,
    fields: &[FieldId],
    cell: Sym,
) -> Result<Sym, AllocError>
    ensures { IfOk result (λ value. (line : ℕ) → Gets reached.now w.old w.new value
        (λ text s. reading.read_along l.now.types l.now.vars line text fields.now (cell, s))) }
{
    let mut value = cell;
    for field in fields {
        value = read(alloc, l, w, reached, *field, value)?;
    }
    Ok(value)
}

/// What stands at a path to a cell.
pub(crate) fn path_value(
    alloc: Global,
    l: &Layout<'_>,
    w: &mut Walker,
    reached: &Formula,
    path: &Path,
) -> Result<Sym, AllocError>
    ensures { IfOk result (λ value. (line : ℕ) → Gets reached.now w.old w.new value
        (λ text s. reading.path_value l.now.types l.now.vars line text path.now s)) }
{
    let value = value_of(w.view.vars.as_slice(), path.var);
    let found = read_along(alloc, l, w, reached, path.fields.as_slice(), value)?;
    Ok(found)
}

/// What stands for an operand.
pub(crate) fn operand_value(
    alloc: Global,
    l: &Layout<'_>,
    w: &mut Walker,
    reached: &Formula,
    operand: &Operand,
) -> Result<Sym, AllocError>
    ensures { IfOk result (λ value. (line : ℕ) → Gets reached.now w.old w.new value
        (λ text s. reading.operand_value l.now.types l.now.vars line text operand.now s)) }
{
    match operand {
        Operand::Null => Ok(Sym::Null),
        Operand::Path(path) => Ok(path_value(alloc, l, w, reached, path)?),
    }
}

/// Reads a bool field of a cell.
fn field_truth(
    alloc: Global,
    l: &Layout<'_>,
    w: &mut Walker,
    reached: &Formula,
    field: FieldId,
    cell: Sym,
) -> Result<Formula, AllocError>
    ensures { IfOk result (λ formula. (line : ℕ) → Tells reached.now w.old w.new formula
        (λ text s. reading.truth_along l.now.types l.now.vars line text field [] (cell, s))) }
{
    let formula = is_true_of(alloc, l, &w.view, w.view.next, field, cell)?;
    check_access(alloc, l, w, reached, field, cell)?;
    Ok(formula)
}

/// What stands at a path to a truth value: a variable, or a bool field.
pub(crate) fn path_truth(
    alloc: Global,
    l: &Layout<'_>,
    w: &mut Walker,
    reached: &Formula,
    path: &Path,
) -> Result<Formula, AllocError>
    ensures { IfOk result (λ formula. (line : ℕ) → Tells reached.now w.old w.new formula
        (λ text s. reading.path_truth l.now.types l.now.vars line text path.now s)) }
{
    let value = value_of(w.view.vars.as_slice(), path.var);
    let Some((last, before)) = path.fields.as_slice().split_last() else {
        let formula = truth(alloc, w.view.next, value)?;
        return Ok(formula);
    };
    let cell = read_along(alloc, l, w, reached, before, value)?;
    let formula = field_truth(alloc, l, w, reached, *last, cell)?;
    Ok(formula)
}
