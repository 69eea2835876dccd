//! What is said of the store after changes of the heap, beside what `graph_cells` and `graph_routes` say of it, and of truth values.

ghost use Rattle.std.specs.Prelude.{◌≡◌, suc, IfOk};
ghost use Rattle.ws2s_core.specs.declared.formula.Formula.TheVariants.{And, Not, Root};
ghost use Rattle.ws2s_forms.specs.Forms as forms;
ghost use Rattle.graph_view.specs.Routes as routes;
ghost use Rattle.graph_view.specs.Sights.{sight_of};
ghost use Rattle.graph_view.specs.Syms as syms;
ghost use Rattle.site_list.specs.Reading as reading;

use graph_cells::{has, is_in, is_live, is_true, lives};
use graph_routes::names;
use graph_view::{Sym, View};
use std::alloc::{AllocError, Global};
use store_core::{FieldId, VariantId};
use tree_encode::Layout;
use ws2s_core::{Formula, Track};
use ws2s_forms::{all1, and_list, empty_at, ex1, iff, later, or};

/// A live cell of the value hasn't the field.
pub(crate) fn lacks(
    alloc: Global,
    l: &Layout<'_>,
    view: &View,
    next: u32,
    field: FieldId,
    value: Sym,
) -> Result<Formula, AllocError>
    ensures { IfOk result (λ formula. formula ≡ reading.lacks l.now.types (sight_of l.now.vars view.now) field value next) }
{
    let inner = later(next, 1)?;
    let there = is_in(alloc, inner, next, value)?;
    let live = is_live(alloc, l, view, inner, next)?;
    let owned = has(alloc, l, view, inner, field, next)?;
    let parts = vec![in alloc; there, live, Formula::not(alloc, owned)?]?;
    ex1(alloc, next, and_list(alloc, inner, parts)?)
}

/// The value is a cell of the variant.
pub(crate) fn is_of_variant(
    alloc: Global,
    l: &Layout<'_>,
    view: &View,
    next: u32,
    variant: VariantId,
    value: Sym,
) -> Result<Formula, AllocError>
    ensures { IfOk result (λ formula. formula ≡ reading.is_of_variant l.now.types (sight_of l.now.vars view.now) variant value next) }
{
    let inner = later(next, 1)?;
    let there = is_in(alloc, inner, next, value)?;
    let live = lives(alloc, l, view, inner, variant, next)?;
    ex1(alloc, next, Formula::and(alloc, there, live)?)
}

/// The bool field is true at a cell of the value.
pub(crate) fn is_true_of(
    alloc: Global,
    l: &Layout<'_>,
    view: &View,
    next: u32,
    field: FieldId,
    value: Sym,
) -> Result<Formula, AllocError>
    ensures { IfOk result (λ formula. formula ≡ reading.is_true_of l.now.types (sight_of l.now.vars view.now) field value next) }
{
    let inner = later(next, 1)?;
    let there = is_in(alloc, inner, next, value)?;
    let truth = is_true(alloc, l, view, inner, field, next)?;
    ex1(alloc, next, Formula::and(alloc, there, truth)?)
}

/// The field names the cell on the track `to` at some cell of the value; that cell is on the track `from`.
fn is_named(
    alloc: Global,
    l: &Layout<'_>,
    view: &View,
    from: u32,
    field: FieldId,
    value: Sym,
    to: u32,
) -> Result<Formula, AllocError>
    ensures { IfOk result (λ formula. formula ≡ forms.ex1 from
        (And (syms.is_in (suc from) from value) (routes.names l.now.types (sight_of l.now.vars view.now) (suc from) field from to))) }
{
    let inner = later(from, 1)?;
    let there = is_in(alloc, inner, from, value)?;
    let step = names(alloc, l, view, inner, field, from, to)?;
    ex1(alloc, from, Formula::and(alloc, there, step)?)
}

/// The track has the cells that the field names at those of the value.
pub(crate) fn is_read(
    alloc: Global,
    l: &Layout<'_>,
    view: &View,
    next: u32,
    field: FieldId,
    value: Sym,
    own: Track,
) -> Result<Formula, AllocError>
    ensures { IfOk result (λ formula. formula ≡ reading.is_read l.now.types (sight_of l.now.vars view.now) field value own.0 next) }
{
    let from = later(next, 1)?;
    let named = is_named(alloc, l, view, from, field, value, next)?;
    let both = iff(alloc, Formula::Sub(Track(next), own), named)?;
    all1(alloc, next, both)
}

/// The track is the root, and this holds.
fn is_root_where(alloc: Global, holds: &Formula, own: Track) -> Result<Formula, AllocError>
    ensures { IfOk result (λ formula. formula ≡ And (Root own) holds.now) }
{
    Formula::and(alloc, Formula::Root(own), holds.copy(alloc)?)
}

/// The track is empty, and this doesn't hold.
fn is_empty_unless(
    alloc: Global,
    next: u32,
    holds: &Formula,
    own: Track,
) -> Result<Formula, AllocError>
    ensures { IfOk result (λ formula. formula ≡ And (forms.empty_at next own.0) (Not holds.now)) }
{
    let fails = Formula::not(alloc, holds.copy(alloc)?)?;
    let empty = empty_at(alloc, next, own)?;
    Formula::and(alloc, empty, fails)
}

/// The track is the root where this holds, and else it is empty.
pub(crate) fn is_truth_of(
    alloc: Global,
    next: u32,
    holds: &Formula,
    own: Track,
) -> Result<Formula, AllocError>
    ensures { IfOk result (λ formula. formula
        ≡ forms.or (And (Root own) holds.now) (And (forms.empty_at next own.0) (Not holds.now))) }
{
    let root = is_root_where(alloc, holds, own)?;
    let empty = is_empty_unless(alloc, next, holds, own)?;
    or(alloc, root, empty)
}

/// Both hold.
///
/// # Errors
///
/// Want of memory.
pub fn both(alloc: Global, one: &Formula, other: &Formula) -> Result<Formula, AllocError>
    ensures { IfOk result (λ formula. formula ≡ And one.now other.now) }
{
    Formula::and(alloc, one.copy(alloc)?, other.copy(alloc)?)
}

/// The first holds, and the other doesn't.
///
/// # Errors
///
/// Want of memory.
pub fn but_not(alloc: Global, one: &Formula, other: &Formula) -> Result<Formula, AllocError>
    ensures { IfOk result (λ formula. formula ≡ And one.now (Not other.now)) }
{
    let fails = Formula::not(alloc, other.copy(alloc)?)?;
    Formula::and(alloc, one.copy(alloc)?, fails)
}
