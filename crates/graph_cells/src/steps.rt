//! Forms of routes as formulas, where those of their parts are made.

ghost use Rattle.std.specs.Prelude.{◌≡◌, ◌∷◌, [], map, suc, IfOk, Some, reverse};
ghost use Rattle.ws2s_core.specs.declared.formula.Formula.TheVariants.{And, Sub, Not};
ghost use Rattle.ws2s_forms.specs.Forms as forms;
ghost use Rattle.graph_view.specs.Fields as fields;
ghost use Rattle.graph_view.specs.Live as live;
ghost use Rattle.graph_view.specs.Routes as formulas;
ghost use Rattle.graph_view.specs.Sights.{sight_of};
ghost use Rattle.graph_cells.specs.Given.{given};

use crate::fields::is_true;
use crate::live::{has, is_live, lives, lives_in};
use crate::selecting::{Kinds, fields_named};
use crate::syms::{all_three, some_pair};
use graph_view::View;
use std::alloc::{AllocError, Global};
use store_core::{FieldId, TypeId, VariantId};
use tree_encode::Layout;
use ws2s_core::{Formula, Track};
use ws2s_forms::{all2, equal, ex1, imp, later, or_list};

/// Both cells are live, and what joins them.
///
/// # Errors
///
/// Want of memory, also where there are not as many tracks.
pub fn join_live(
    alloc: Global,
    l: &Layout<'_>,
    view: &View,
    next: u32,
    a: u32,
    b: u32,
    joined: Formula,
) -> Result<Formula, AllocError>
    ensures { IfOk result (λ formula. formula ≡ forms.and_list next
        (live.is_live l.now.types (sight_of l.now.vars view.now) next a
        ∷ live.is_live l.now.types (sight_of l.now.vars view.now) next b ∷ joined ∷ [])) }
{
    let from = is_live(alloc, l, view, next, a)?;
    let to = is_live(alloc, l, view, next, b)?;
    all_three(alloc, next, from, to, joined)
}

/// A live cell to itself, for which something doesn't hold of any position on the next track.
///
/// # Errors
///
/// Want of memory, also where there are not as many tracks.
pub fn stay_where_none(
    alloc: Global,
    l: &Layout<'_>,
    view: &View,
    next: u32,
    a: u32,
    b: u32,
    some: Formula,
) -> Result<Formula, AllocError>
    ensures { IfOk result (λ formula. formula ≡ forms.and_list next
        (live.is_live l.now.types (sight_of l.now.vars view.now) next a ∷ forms.equal a b ∷ Not (forms.ex1 next some) ∷ [])) }
{
    let from = is_live(alloc, l, view, next, a)?;
    let same = equal(alloc, Track(a), Track(b))?;
    let any = ex1(alloc, next, some)?;
    all_three(alloc, next, from, same, Formula::not(alloc, any)?)
}

/// A cell of a type to itself.
///
/// # Errors
///
/// Want of memory, also where there are not as many tracks.
pub fn stay_in_type(
    alloc: Global,
    l: &Layout<'_>,
    view: &View,
    next: u32,
    ty: TypeId,
    a: u32,
    b: u32,
) -> Result<Formula, AllocError>
    ensures { IfOk result (λ formula. formula
        ≡ Formula.And (live.lives_in l.now.types (sight_of l.now.vars view.now) next ty a) (forms.equal a b)) }
{
    let live = lives_in(alloc, l, view, next, ty, a)?;
    Formula::and(alloc, live, equal(alloc, Track(a), Track(b))?)
}

/// A cell of a variant to itself.
///
/// # Errors
///
/// Want of memory, also where there are not as many tracks.
pub fn stay_in_variant(
    alloc: Global,
    l: &Layout<'_>,
    view: &View,
    next: u32,
    v: VariantId,
    a: u32,
    b: u32,
) -> Result<Formula, AllocError>
    ensures { IfOk result (λ formula. formula
        ≡ Formula.And (live.lives l.now.types (sight_of l.now.vars view.now) next v a) (forms.equal a b)) }
{
    let live = lives(alloc, l, view, next, v, a)?;
    Formula::and(alloc, live, equal(alloc, Track(a), Track(b))?)
}

/// The cell has the bool field, with the truth value.
fn has_truth(
    alloc: Global,
    l: &Layout<'_>,
    view: &View,
    value: bool,
    next: u32,
    a: u32,
    f: FieldId,
) -> Result<Formula, AllocError>
    ensures { IfOk result (λ formula. formula ≡ formulas.has_truth l.now.types (sight_of l.now.vars view.now) value next a f) }
{
    let owned = has(alloc, l, view, next, f, a)?;
    let held = is_true(alloc, l, view, next, f, a)?;
    let valued = if value {
        held
    } else {
        Formula::not(alloc, held)?
    };
    Formula::and(alloc, owned, valued)
}

/// The same for each field.
fn each_truth(
    alloc: Global,
    l: &Layout<'_>,
    view: &View,
    value: bool,
    next: u32,
    a: u32,
    fields: &[FieldId],
) -> Result<Vec<Formula>, AllocError>
    ensures { IfOk result (λ parts. parts.items
        ≡ map (formulas.has_truth l.now.types (sight_of l.now.vars view.now) value next a) fields.now) }
{
    let mut parts = Vec::new(alloc);
    for f in fields {
        parts.push(has_truth(alloc, l, view, value, next, a, *f)?)?;
    }
    Ok(parts)
}

/// A cell to itself, of which a bool field of the name has the truth value.
///
/// # Errors
///
/// Want of memory, also where there are not as many tracks.
pub fn stay_at_truth(
    alloc: Global,
    l: &Layout<'_>,
    view: &View,
    name: &[u8],
    value: bool,
    next: u32,
    a: u32,
    b: u32,
) -> Result<Formula, AllocError>
    ensures { IfOk result (λ formula. formula ≡ formulas.stays_at_truth l.now.types (sight_of l.now.vars view.now) name.now value next a b) }
{
    let fields = fields_named(alloc, l.types(), name, Kinds::Bools)?;
    let same = equal(alloc, Track(a), Track(b))?;
    let parts = each_truth(alloc, l, view, value, next, a, fields.as_slice())?;
    Formula::and(alloc, same, or_list(alloc, next, parts)?)
}

/// From a cell of the set on track `x` something leads to one that isn't in it; it joins the two tracks behind `next`.
///
/// # Errors
///
/// Want of memory, also where there are not as many tracks.
pub fn is_left(alloc: Global, next: u32, x: u32, joined: Formula) -> Result<Formula, AllocError>
    ensures { IfOk result (λ formula. formula ≡ formulas.is_left (given joined) next x) }
{
    let other = later(next, 1)?;
    let inner = later(next, 2)?;
    let inside = Formula::Sub(Track(next), Track(x));
    let outside = Formula::not(alloc, Formula::Sub(Track(other), Track(x)))?;
    let leaving = all_three(alloc, inner, inside, joined, outside)?;
    some_pair(alloc, next, other, leaving)
}

/// The set on track `next` has the cell on track `a`, and the round doesn't leave it.
fn is_closed_from(alloc: Global, next: u32, a: u32, round: Formula) -> Result<Formula, AllocError>
    ensures { IfOk result (λ formula. formula
        ≡ And (Sub (forms.track a) (forms.track next)) (Not (formulas.is_left (given round) (suc next) next))) }
{
    let left = is_left(alloc, later(next, 1)?, next, round)?;
    let closed = Formula::not(alloc, left)?;
    Formula::and(alloc, Formula::Sub(Track(a), Track(next)), closed)
}

/// Rounds of a walk, whose formula is made for the two tracks behind the next.
///
/// # Errors
///
/// Want of memory, also where there are not as many tracks.
pub fn rounds(
    alloc: Global,
    l: &Layout<'_>,
    view: &View,
    next: u32,
    a: u32,
    b: u32,
    round: Formula,
) -> Result<Formula, AllocError>
    ensures { IfOk result (λ formula. formula ≡ formulas.star l.now.types (sight_of l.now.vars view.now) (given round) next a b) }
{
    let closed = is_closed_from(alloc, next, a, round)?;
    let reached = imp(alloc, closed, Formula::Sub(Track(b), Track(next)))?;
    join_live(alloc, l, view, next, a, b, all2(alloc, next, reached)?)
}
