//! Conditions of code, read from the left.

ghost use Rattle.std.specs.Prelude.{◌≡◌, ℕ, IfOk};
ghost use Rattle.site_list.specs.Conditions as conditions;
ghost use Rattle.site_list.specs.Reading as readings;
ghost use Rattle.symbolic_steps.specs.Shown.{Tells};

use crate::places::check_cell;
use crate::reading::{operand_value, path_truth, path_value};
use crate::seeing::{both, but_not, is_of_variant};
use crate::walker::Walker;
use graph_cells::is_same;
use std::alloc::{AllocError, Global};
use store_core::VariantId;
use store_logic::{Cond, Operand, Path};
use tree_encode::Layout;
use ws2s_core::Formula;
use ws2s_forms::{false_at, or, true_at};

/// `p:v`.
fn path_is(
    alloc: Global,
    l: &Layout<'_>,
    w: &mut Walker,
    reached: &Formula,
    path: &Path,
    variant: VariantId,
) -> Result<Formula, AllocError>
    ensures { IfOk result (λ formula. (line : ℕ) → Tells reached.now w.old w.new formula
        (λ text s. conditions.told_variant l.now.types l.now.vars line text variant (readings.path_value l.now.types l.now.vars line text path.now s))) }
{
    let cell = path_value(alloc, l, w, reached, path)?;
    let formula = is_of_variant(alloc, l, &w.view, w.view.next, variant, cell)?;
    check_cell(alloc, l, w, reached, cell)?;
    Ok(formula)
}

/// `p == q`.
fn are_same(
    alloc: Global,
    l: &Layout<'_>,
    w: &mut Walker,
    reached: &Formula,
    one: &Operand,
    other: &Operand,
) -> Result<Formula, AllocError>
    ensures { IfOk result (λ formula. (line : ℕ) → Tells reached.now w.old w.new formula
        (λ text s. conditions.then_same l.now.types l.now.vars line text other.now (readings.operand_value l.now.types l.now.vars line text one.now s))) }
{
    let left = operand_value(alloc, l, w, reached, one)?;
    let right = operand_value(alloc, l, w, reached, other)?;
    let formula = is_same(alloc, w.view.next, left, right)?;
    Ok(formula)
}

/// A condition, reached where the formula holds. Takes a level of the stack for each condition within another one.
///
/// # Errors
///
/// Want of memory, also where there are not as many tracks.
pub fn condition(
    alloc: Global,
    l: &Layout<'_>,
    w: &mut Walker,
    reached: &Formula,
    cond: &Cond,
) -> Result<Formula, AllocError>
    ensures { IfOk result (λ formula. (line : ℕ) → Tells reached.now w.old w.new formula
        (conditions.condition l.now.types l.now.vars line cond.now)) }
{
    match cond {
        Cond::True => true_at(alloc, w.view.next),
        Cond::False => false_at(alloc, w.view.next),
        Cond::Bool(path) => path_truth(alloc, l, w, reached, path),
        Cond::Is(path, variant) => path_is(alloc, l, w, reached, path, *variant),
        Cond::Same(one, other) => are_same(alloc, l, w, reached, one, other),
        Cond::Not(part) => {
            let inner = condition(alloc, l, w, reached, part.get())?;
            Formula::not(alloc, inner)
        }
        Cond::And(left, right) => {
            let first = condition(alloc, l, w, reached, left.get())?;
            let there = both(alloc, reached, &first)?;
            let second = condition(alloc, l, w, &there, right.get())?;
            Formula::and(alloc, first, second)
        }
        Cond::Or(left, right) => {
            let first = condition(alloc, l, w, reached, left.get())?;
            let there = but_not(alloc, reached, &first)?;
            let second = condition(alloc, l, w, &there, right.get())?;
            or(alloc, first, second)
        }
    }
}
