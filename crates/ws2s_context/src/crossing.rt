//! What is known across the conjuncts of a chain that is negated. Each conjunct was rewritten with what is relevant to it alone, so what
//! speaks of tracks that no one of them has together would come only once all are conjoined: where each of many conjuncts speaks of two
//! types, and a context says of each two types that no position has cells of both, an automaton of the conjuncts alone has a state for
//! each set of types.

ghost use Rattle.std.specs.Prelude.{List, IfOk, OnOk};
ghost use Rattle.ws2s_core.specs.declared.formula.Formula.{Formula};
ghost use Rattle.ws2s_core.specs.Nodes.{Extends};
ghost use Rattle.ws2s_facts.specs.Conjuncts.{IsContext, IsAmong, Implies, context_at};
ghost use Rattle.ws2s_facts.specs.Facts.{AreFacts};
ghost use Rattle.ws2s_context.specs.Going.{IsPlace, IsSame, around};

use crate::choice::Choice;
use crate::context::{Context, conjunction_of, members_of};
use crate::fronting::put_context_first;
use crate::hints::is_relevant;
use crate::spine::conjuncts_of;
use crate::task::Place;
use std::alloc::{AllocError, Global};
use ws2s_core::{FormulaId, Interner};
use ws2s_facts::Facts;

/// How many conjuncts a chain has at least for which what is known across them comes in front: with fewer the sets of types are few.
const MANY_PARTS: usize = 10;

/// What a formula was rewritten to, with what is known across its conjuncts in front; where these are few, or atoms
/// alone come into contexts, as it is.
pub(crate) fn crossed(
    alloc: Global,
    interner: &mut Interner,
    facts: &mut Facts,
    choice: &Choice,
    place: Place,
    to: FormulaId,
) -> Result<FormulaId, AllocError>
    requires facts { AreFacts interner.old facts.old.facts.items }
    requires same { IsSame interner.old place to }
    ensures kept { Extends interner.old interner.new }
    ensures same { IfOk result (IsSame interner.new place) }
    ensures facts { IfOk result (λ made. AreFacts interner.new facts.new.facts.items) }
{
    if !choice.is_whole() {
        return Ok(to);
    }
    let parts = conjuncts_of(alloc, interner, place.id)?;
    if parts.len() < MANY_PARTS {
        return Ok(to);
    }
    let known = crossing(alloc, interner, facts, choice, place, &parts)?;
    let made = put_context_first(alloc, interner, facts, known, to)?;
    Ok(made)
}

/// What of its context is relevant to a formula and to no one of its conjuncts, and speaks of weighed tracks alone: the product of what is said of
/// pairs of variables tells apart the sets of all of them.
fn crossing(
    alloc: Global,
    interner: &mut Interner,
    facts: &mut Facts,
    choice: &Choice,
    place: Place,
    parts: &[FormulaId],
) -> Result<Context, AllocError>
    requires place { IsPlace interner.old place }
    requires facts { AreFacts interner.old facts.old.facts.items }
    ensures kept { Extends interner.old interner.new }
    ensures there { IfOk result (IsContext interner.new) }
    ensures implied { IfOk result (λ known. Implies (around interner.old place) (context_at interner.new known)) }
    ensures facts { IfOk result (λ known. AreFacts interner.new facts.new.facts.items) }
{
    let members = members_of(alloc, interner, place.context)?;
    let mut chosen = Vec::new(alloc);
    choose_crossing(&mut chosen, choice, facts, &members, parts, place.id)?;
    let made = conjunction_of(alloc, interner, facts, chosen)?;
    Ok(made)
}

/// Chooses those conjuncts of weighed tracks that are relevant to a formula and to no one of its parts.
fn choose_crossing(
    chosen: &mut Vec<FormulaId>,
    choice: &Choice,
    facts: &Facts,
    conjuncts: &[FormulaId],
    parts: &[FormulaId],
    id: FormulaId,
) -> Result<(), AllocError>
    ensures { OnOk result (IsAmong chosen.old.items conjuncts.now chosen.new.items) }
{
    for conjunct in conjuncts {
        if is_crossing(choice, facts, *conjunct, parts, id) {
            chosen.push(*conjunct)?;
        }
    }
    Ok(())
}

/// Whether the conjunct speaks of weighed tracks alone, and is relevant to a formula and to no one of its parts.
fn is_crossing(
    choice: &Choice,
    facts: &Facts,
    conjunct: FormulaId,
    parts: &[FormulaId],
    id: FormulaId,
) -> bool {
    choice.is_of_weighed(facts, conjunct)
        && is_relevant(facts, conjunct, id)
        && !parts.iter().any(|part| is_relevant(facts, conjunct, *part))
}
