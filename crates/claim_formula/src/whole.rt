//! Whole assertions as formulas.

ghost use Rattle.std.specs.Prelude.{◌≡◌, ◌+◌, ◌<◌, ◌∷◌, IfOk, OnOk};
ghost use Rattle.store_logic.specs.Postfix.{form_count};
ghost use Rattle.graph_view.specs.Sights.{sight_of};
ghost use Rattle.site_list.specs.Claims.{assertion};
ghost use Rattle.claim_formula.specs.Joining.{alone};
ghost use Rattle.claim_formula.specs.Tasks.{done, weight_of};

use crate::forms::{member_formula, same_formula, subset_formula, variant_formula, walk_formula};
use crate::joining::{join, take};
use crate::terms::is_true_term;
use graph_view::View;
use plain_data::Stack;
use std::alloc::{AllocError, Global};
use store_logic::Assertion;
use tree_encode::Layout;
use ws2s_core::Formula;
use ws2s_forms::{false_at, later, true_at};

/// What is still to be done for a formula. The number is that of the next track.
#[derive(Clone, Copy)]
pub(crate) enum Task<'a> {
    /// The assertion is written.
    Write(&'a Assertion, u32),
    /// The parts of this form are written, and are joined.
    Join(&'a Assertion, u32),
}

/// Two parts are written, the left one first, and then joined.
fn push_two<'a>(
    tasks: &mut Stack<Task<'a>>,
    whole: &'a Assertion,
    left: &'a Assertion,
    right: &'a Assertion,
    next: u32,
) -> Result<(), AllocError>
    ensures { OnOk result (tasks.new ≡ Task.Write left.entry next ∷ Task.Write right.entry next ∷ Task.Join whole.entry next ∷ tasks.old) }
{
    tasks.push(Task::Join(whole, next))?;
    tasks.push(Task::Write(right, next))?;
    tasks.push(Task::Write(left, next))?;
    Ok(())
}

/// A part is written with this next track, and then the whole is joined.
fn push_one<'a>(
    tasks: &mut Stack<Task<'a>>,
    whole: &'a Assertion,
    part: &'a Assertion,
    next: u32,
    inner: u32,
) -> Result<(), AllocError>
    ensures { OnOk result (tasks.new ≡ Task.Write part.entry inner ∷ Task.Join whole.entry next ∷ tasks.old) }
{
    tasks.push(Task::Join(whole, next))?;
    tasks.push(Task::Write(part, inner))?;
    Ok(())
}

/// A form without parts. What has parts counts as one that holds nowhere: it isn't written here.
fn form_alone(
    alloc: Global,
    l: &Layout<'_>,
    view: &View,
    part: &Assertion,
    next: u32,
) -> Result<Formula, AllocError>
    ensures { IfOk result (λ formula. formula ≡ alone l.now.types (sight_of l.now.vars view.now) view.now.vars part.now next) }
{
    match part {
        Assertion::True => true_at(alloc, next),
        Assertion::Truth(term) => is_true_term(alloc, l, view, next, term),
        Assertion::Is(term, variant) => variant_formula(alloc, l, view, next, term, *variant),
        Assertion::Same(one, other) => same_formula(alloc, l, view, next, one, other),
        Assertion::Member(term, set) => member_formula(alloc, l, view, next, term, *set),
        Assertion::Subset(one, other) => subset_formula(alloc, l, view, next, *one, *other),
        Assertion::Walk(from, route, to) => walk_formula(alloc, l, view, next, from, route, to),
        Assertion::False
        | Assertion::Pred(_, _)
        | Assertion::Not(_)
        | Assertion::And(_, _)
        | Assertion::Or(_, _)
        | Assertion::Imp(_, _)
        | Assertion::Iff(_, _)
        | Assertion::Ex(_, _)
        | Assertion::All(_, _)
        | Assertion::ExSet(_, _)
        | Assertion::AllSet(_, _) => false_at(alloc, next),
    }
}

/// Writes a form without parts; one with parts waits for them.
fn write<'a>(
    alloc: Global,
    l: &Layout<'_>,
    view: &View,
    part: &'a Assertion,
    next: u32,
    tasks: &mut Stack<Task<'a>>,
    made: &mut Stack<Formula>,
) -> Result<(), AllocError>
    ensures value { OnOk result (done l.now.types (sight_of l.now.vars view.now) view.now.vars tasks.new made.new
        ≡ done l.now.types (sight_of l.now.vars view.now) view.now.vars tasks.old
        (assertion l.now.types (sight_of l.now.vars view.now) view.now.vars part.now next ∷ made.old)) }
    ensures less { OnOk result (weight_of tasks.new < form_count part.now + form_count part.now + weight_of tasks.old) }
{
    match part {
        Assertion::And(left, right)
        | Assertion::Or(left, right)
        | Assertion::Imp(left, right)
        | Assertion::Iff(left, right) => push_two(tasks, part, left.get(), right.get(), next),
        Assertion::Not(inner) => push_one(tasks, part, inner.get(), next, next),
        Assertion::Ex(_, inner)
        | Assertion::All(_, inner)
        | Assertion::ExSet(_, inner)
        | Assertion::AllSet(_, inner) => {
            push_one(tasks, part, inner.get(), next, later(next, 1)?)
        }
        Assertion::True
        | Assertion::False
        | Assertion::Truth(_)
        | Assertion::Is(_, _)
        | Assertion::Same(_, _)
        | Assertion::Member(_, _)
        | Assertion::Subset(_, _)
        | Assertion::Walk(_, _, _)
        | Assertion::Pred(_, _) => made.push(form_alone(alloc, l, view, part, next)?),
    }
}

/// The store that the view sees satisfies the assertion, in the view's region: its formula, whose quantifiers bind tracks from `next`
/// on, however deep the assertion is.
///
/// # Errors
///
/// Want of memory, also where there are not as many tracks.
pub fn assertion_formula(
    alloc: Global,
    l: &Layout<'_>,
    view: &View,
    next: u32,
    whole: &Assertion,
) -> Result<Formula, AllocError>
    ensures value { IfOk result (λ formula. formula
        ≡ assertion l.now.types (sight_of l.now.vars view.now) view.now.vars whole.now next) }
{
    let mut tasks = Stack::new(alloc);
    tasks.push(Task::Write(whole, next))?;
    let mut made = Stack::new(alloc);
    while let Some(task) = tasks.pop() {
        match task {
            Task::Write(part, own) => write(alloc, l, view, part, own, &mut tasks, &mut made)?,
            Task::Join(part, own) => join(alloc, l, view, part, own, &mut made)?,
        }
    }
    Ok(take(&mut made))
}
