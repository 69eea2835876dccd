//! Acts of code: where they can fail, and what they lead to.

ghost use Rattle.std.specs.Prelude.{◌≡◌, ℕ, OnOk};
ghost use Rattle.graph_view.specs.Sights.{sight_of};
ghost use Rattle.ws2s_core.specs.declared.formula.Formula.TheVariants.{Not};
ghost use Rattle.site_list.specs.Claims as claims;
ghost use Rattle.site_list.specs.Acts as acts;
ghost use Rattle.symbolic_steps.specs.Shown.{checked, Leads};

use claim_formula::assertion_formula;
use std::alloc::{AllocError, Global};
use store_logic::{Act, Assertion};
use symbolic_steps::{Walker, assign, find, free, passes, reached};
use tree_encode::Layout;
use ws2s_core::Formula;

/// The assertion is false.
fn check_assertion(
    alloc: Global,
    l: &Layout<'_>,
    w: &mut Walker,
    reached: &Formula,
    assertion: &Assertion,
) -> Result<(), AllocError>
    ensures { OnOk result (w.new ≡ checked reached.now
        (Not (claims.assertion l.now.types (sight_of l.now.vars w.old.view) w.old.view.vars assertion.now w.old.view.next)) w.old) }
{
    if !passes(w)? {
        return Ok(());
    }
    let holds = assertion_formula(alloc, l, &w.view, w.view.next, assertion)?;
    find(alloc, w, reached, Formula::not(alloc, holds)?)
}

/// `assert [A];`
fn assert(
    alloc: Global,
    l: &Layout<'_>,
    w: &mut Walker,
    assertion: &Assertion,
) -> Result<(), AllocError>
    ensures { OnOk result ((line : ℕ) → Leads w.old w.new (acts.asserted l.now.types l.now.vars line assertion.now)) }
{
    let here = reached(alloc, w)?;
    check_assertion(alloc, l, w, &here, assertion)?;
    Ok(())
}

/// One step of code.
pub(crate) fn act(
    alloc: Global,
    l: &Layout<'_>,
    w: &mut Walker,
    act: &Act,
) -> Result<(), AllocError>
    ensures { OnOk result ((line : ℕ) → Leads w.old w.new (acts.act_rule l.now.types l.now.vars line act.now)) }
{
    match act {
        Act::Assign(place, value) => {
            assign(alloc, l, w, place, value)?;
            Ok(())
        }
        Act::Free(v) => {
            free(alloc, l, w, *v)?;
            Ok(())
        }
        Act::Assert(assertion) => {
            assert(alloc, l, w, assertion)?;
            Ok(())
        }
    }
}
