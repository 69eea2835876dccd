//! Forms of assertions with parts, as formulas of their parts.

ghost use Rattle.std.specs.Prelude.{◌≡◌, ◌∷◌, suc, IfOk, OnOk};
ghost use Rattle.ws2s_core.specs.declared.formula.Formula.TheVariants.{And, Not};
ghost use Rattle.ws2s_forms.specs.Forms as forms;
ghost use Rattle.graph_view.specs.Live as live;
ghost use Rattle.graph_view.specs.Sights.{sight_of};
ghost use Rattle.site_list.specs.Claims as formulas;
ghost use Rattle.plain_data.specs.Stacks.{rest};
ghost use Rattle.claim_formula.specs.Joining.{joined, last_made};

use graph_cells::lives_in;
use graph_view::View;
use plain_data::Stack;
use std::alloc::{AllocError, Global};
use store_core::TypeId;
use store_logic::Assertion;
use tree_encode::Layout;
use ws2s_core::{Formula, Track};
use ws2s_forms::{all1, ex1, iff, imp, later, or};

/// Takes the formula that was made last.
pub(crate) fn take(made: &mut Stack<Formula>) -> Formula
    ensures taken { result ≡ last_made made.old }
    ensures left { made.new ≡ rest made.old }
{
    made.take_or(Formula::Root(Track(0)))
}

/// Some set of live cells of the type, on the track `next`, of which the formula speaks.
fn ex_set(
    alloc: Global,
    l: &Layout<'_>,
    view: &View,
    next: u32,
    ty: TypeId,
    inner: Formula,
) -> Result<Formula, AllocError>
    ensures { IfOk result (λ formula. formula ≡ formulas.ex_set l.now.types (sight_of l.now.vars view.now) next ty inner) }
{
    let own = later(next, 1)?;
    let live = lives_in(alloc, l, view, later(own, 1)?, ty, own)?;
    let each = all1(
        alloc,
        own,
        imp(alloc, Formula::Sub(Track(own), Track(next)), live)?,
    )?;
    let both = Formula::and(alloc, each, inner)?;
    Formula::ex2(alloc, Track(next), both)
}

/// Some live cell of the type, on the track `next`, of which the formula speaks, in the place of that formula.
fn join_ex(
    alloc: Global,
    l: &Layout<'_>,
    view: &View,
    next: u32,
    ty: TypeId,
    made: &mut Stack<Formula>,
) -> Result<(), AllocError>
    ensures { OnOk result (made.new
        ≡ forms.ex1 next (And (live.lives_in l.now.types (sight_of l.now.vars view.now) (suc next) ty next) (last_made made.old)) ∷ rest made.old) }
{
    let inner = take(made);
    let live = lives_in(alloc, l, view, later(next, 1)?, ty, next)?;
    made.push(ex1(alloc, next, Formula::and(alloc, live, inner)?)?)
}

/// Each live cell of the type, on the track `next`, of which the formula speaks, in the place of that formula.
fn join_all(
    alloc: Global,
    l: &Layout<'_>,
    view: &View,
    next: u32,
    ty: TypeId,
    made: &mut Stack<Formula>,
) -> Result<(), AllocError>
    ensures { OnOk result (made.new
        ≡ forms.all1 next (forms.imp (live.lives_in l.now.types (sight_of l.now.vars view.now) (suc next) ty next) (last_made made.old))
        ∷ rest made.old) }
{
    let inner = take(made);
    let live = lives_in(alloc, l, view, later(next, 1)?, ty, next)?;
    made.push(all1(alloc, next, imp(alloc, live, inner)?)?)
}

/// Each set of live cells of the type, on the track `next`, of which the formula speaks, in the place of that formula.
fn join_all_sets(
    alloc: Global,
    l: &Layout<'_>,
    view: &View,
    next: u32,
    ty: TypeId,
    made: &mut Stack<Formula>,
) -> Result<(), AllocError>
    ensures { OnOk result (made.new
        ≡ Not (formulas.ex_set l.now.types (sight_of l.now.vars view.now) next ty (Not (last_made made.old))) ∷ rest made.old) }
{
    let fails = Formula::not(alloc, take(made))?;
    let some = ex_set(alloc, l, view, next, ty, fails)?;
    made.push(Formula::not(alloc, some)?)
}

/// Puts the formula of a form with parts in the place of those of its parts.
pub(crate) fn join(
    alloc: Global,
    l: &Layout<'_>,
    view: &View,
    part: &Assertion,
    next: u32,
    made: &mut Stack<Formula>,
) -> Result<(), AllocError>
    ensures { OnOk result (made.new ≡ joined l.now.types (sight_of l.now.vars view.now) part.now next made.old) }
{
    match part {
        Assertion::Not(_) => {
            let inner = take(made);
            made.push(Formula::not(alloc, inner)?)
        }
        Assertion::And(_, _) => {
            let right = take(made);
            let left = take(made);
            made.push(Formula::and(alloc, left, right)?)
        }
        Assertion::Or(_, _) => {
            let right = take(made);
            let left = take(made);
            made.push(or(alloc, left, right)?)
        }
        Assertion::Imp(_, _) => {
            let right = take(made);
            let left = take(made);
            made.push(imp(alloc, left, right)?)
        }
        Assertion::Iff(_, _) => {
            let right = take(made);
            let left = take(made);
            made.push(iff(alloc, left, right)?)
        }
        Assertion::Ex(ty, _) => join_ex(alloc, l, view, next, *ty, made),
        Assertion::All(ty, _) => join_all(alloc, l, view, next, *ty, made),
        Assertion::ExSet(ty, _) => {
            let inner = take(made);
            made.push(ex_set(alloc, l, view, next, *ty, inner)?)
        }
        Assertion::AllSet(ty, _) => join_all_sets(alloc, l, view, next, *ty, made),
        Assertion::True
        | Assertion::False
        | Assertion::Truth(_)
        | Assertion::Is(_, _)
        | Assertion::Same(_, _)
        | Assertion::Member(_, _)
        | Assertion::Subset(_, _)
        | Assertion::Walk(_, _, _)
        | Assertion::Pred(_, _) => Ok(()),
    }
}
