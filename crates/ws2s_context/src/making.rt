//! Formulas made again of their parts, which were rewritten.

ghost use Rattle.std.specs.Prelude.{◌≡◌, ◌<◌, ◌∷◌, [], length, OnOk, IfOk};
ghost use Rattle.ws2s_core.specs.declared.formula.Formula.TheVariants.{Not};
ghost use Rattle.ws2s_core.specs.Nodes.{Extends};
ghost use Rattle.ws2s_theory.specs.Contexts.{SameUnder};
ghost use Rattle.ws2s_facts.specs.Conjuncts.{IsThere, IsContext, Implies, formula_of, context_at};
ghost use Rattle.ws2s_facts.specs.Facts.{AreFacts};
ghost use Rattle.ws2s_context.specs.Going.{IsGoing, IsConjoining, IsNegating, IsQuantifying};

use crate::context::{Context, note, used};
use crate::crossing::crossed;
use crate::machine::Machine;
use crate::spine::is_conjunction;
use crate::task::Place;
use std::alloc::{AllocError, Global};
use std::collections::HashSet;
use ws2s_core::{FormulaId, Interner, Node, Track};
use ws2s_facts::{Facts, make};

/// The halves of a conjunction are put together again.
pub(crate) fn make_conjunction(
    alloc: Global,
    interner: &mut Interner,
    facts: &mut Facts,
    place: Place,
    left: Place,
    right: Place,
    machine: &mut Machine,
) -> Result<(), AllocError>
    requires facts { AreFacts interner.old facts.old.facts.items }
    requires place { IsConjoining interner.old place left right }
    requires going { IsGoing interner.old machine.old.tasks machine.old.rewritings.made.items }
    ensures kept { Extends interner.old interner.new }
    ensures ok { OnOk result (IsGoing interner.new machine.new.tasks machine.new.rewritings.made.items) }
    ensures facts { OnOk result (AreFacts interner.new facts.new.facts.items) }
{
    let first = machine.rewritings.to(left);
    let second = machine.rewritings.to(right);
    let watched = machine.choice.watched(alloc, interner, place.context)?;
    let made = make(alloc, interner, facts, Node::And(first, second))?;
    machine.uses.pass_on(&watched, first, made)?;
    machine.uses.pass_on(&watched, second, made)?;
    note_chain(interner, right.id, made, &mut machine.chains)?;
    machine.rewritings.add(place, made)?;
    Ok(())
}

/// A conjunction was made that goes on where its right half is one.
fn note_chain(
    interner: &Interner,
    right: FormulaId,
    made: FormulaId,
    chains: &mut HashSet<FormulaId>,
) -> Result<(), AllocError> {
    if is_conjunction(interner, right) {
        return note(chains, made);
    }
    Ok(())
}

/// A negation is made again, beside what it needs of its context.
pub(crate) fn make_negation(
    alloc: Global,
    interner: &mut Interner,
    facts: &mut Facts,
    place: Place,
    inner: Place,
    machine: &mut Machine,
) -> Result<(), AllocError>
    requires facts { AreFacts interner.old facts.old.facts.items }
    requires place { IsNegating interner.old place inner }
    requires going { IsGoing interner.old machine.old.tasks machine.old.rewritings.made.items }
    ensures kept { Extends interner.old interner.new }
    ensures ok { OnOk result (IsGoing interner.new machine.new.tasks machine.new.rewritings.made.items) }
    ensures facts { OnOk result (AreFacts interner.new facts.new.facts.items) }
{
    machine.choice.leave();
    let part = machine.rewritings.to(inner);
    let watched = machine.choice.watched(alloc, interner, place.context)?;
    let crossed = crossed(alloc, interner, facts, &machine.choice, inner, part)?;
    let made = negated(
        alloc,
        interner,
        facts,
        machine,
        place.context,
        inner.id,
        crossed,
    )?;
    machine.uses.pass_on(&watched, part, made)?;
    machine.rewritings.add(place, made)?;
    Ok(())
}

/// A quantifier is put again before what stands there, beside its context where that is wanted.
pub(crate) fn make_quantified(
    alloc: Global,
    interner: &mut Interner,
    facts: &mut Facts,
    place: Place,
    t: Track,
    inner: Place,
    machine: &mut Machine,
) -> Result<(), AllocError>
    requires facts { AreFacts interner.old facts.old.facts.items }
    requires place { IsQuantifying interner.old place t inner }
    requires going { IsGoing interner.old machine.old.tasks machine.old.rewritings.made.items }
    ensures kept { Extends interner.old interner.new }
    ensures ok { OnOk result (IsGoing interner.new machine.new.tasks machine.new.rewritings.made.items) }
    ensures facts { OnOk result (AreFacts interner.new facts.new.facts.items) }
{
    machine.choice.leave();
    let part = machine.rewritings.to(inner);
    let is_wanted = machine.choice.is_wanted(alloc, interner, facts, inner.id)?;
    let watched = machine.choice.watched(alloc, interner, inner.context)?;
    let beside = beside_context(alloc, interner, facts, inner.context, part, is_wanted)?;
    let made = make(alloc, interner, facts, Node::Ex2(t, beside))?;
    machine.uses.bring(&watched, is_wanted, part, made)?;
    machine.rewritings.add(place, made)?;
    Ok(())
}

/// The negation of what a formula was rewritten to, beside what it needs of the context.
fn negated(
    alloc: Global,
    interner: &mut Interner,
    facts: &mut Facts,
    machine: &Machine,
    context: Context,
    inner: FormulaId,
    part: FormulaId,
) -> Result<FormulaId, AllocError>
    requires context { IsContext interner.old context }
    requires part { IsThere interner.old part }
    requires facts { AreFacts interner.old facts.old.facts.items }
    ensures kept { Extends interner.old interner.new }
    ensures there { IfOk result (IsThere interner.new) }
    ensures same { IfOk result (λ made. SameUnder (context_at interner.old context) (Not (formula_of interner.old part)) (formula_of interner.new made)) }
    ensures facts { IfOk result (λ made. AreFacts interner.new facts.new.facts.items) }
{
    let needed = needed_by(alloc, interner, facts, machine, context, inner, part)?;
    let negation = make(alloc, interner, facts, Node::Not(part))?;
    let made = beside_context(alloc, interner, facts, needed, negation, true)?;
    Ok(made)
}

/// What a negation needs of its context. A few `Single` atoms always: to tell apart sets of many positions under a negation is dear (MONA's
/// restrictions of first-order variables are the same). Where atoms alone are conjoined, those too that were conjoined inside what it
/// negates, since what they ruled out there would be let in by it. Otherwise all, but for a small negated formula.
fn needed_by(
    alloc: Global,
    interner: &mut Interner,
    facts: &mut Facts,
    machine: &Machine,
    context: Context,
    inner: FormulaId,
    part: FormulaId,
) -> Result<Context, AllocError>
    requires context { IsContext interner.old context }
    requires facts { AreFacts interner.old facts.old.facts.items }
    ensures kept { Extends interner.old interner.new }
    ensures there { IfOk result (IsContext interner.new) }
    ensures implied { IfOk result (λ needed. Implies (context_at interner.old context) (context_at interner.new needed)) }
    ensures facts { IfOk result (λ needed. AreFacts interner.new facts.new.facts.items) }
{
    if machine.choice.wants_all(facts, inner) {
        return Ok(context);
    }
    used(
        alloc,
        interner,
        facts,
        &machine.choice,
        &machine.uses,
        context,
        part,
    )
}

/// The conjunction of a context and a formula, where it is wanted; otherwise the formula.
fn beside_context(
    alloc: Global,
    interner: &mut Interner,
    facts: &mut Facts,
    context: Context,
    id: FormulaId,
    is_wanted: bool,
) -> Result<FormulaId, AllocError>
    requires context { IsContext interner.old context }
    requires id { IsThere interner.old id }
    requires facts { AreFacts interner.old facts.old.facts.items }
    ensures kept { Extends interner.old interner.new }
    ensures there { IfOk result (IsThere interner.new) }
    ensures same { IfOk result (λ made. SameUnder (context_at interner.old context) (formula_of interner.old id) (formula_of interner.new made)) }
    ensures facts { IfOk result (λ made. AreFacts interner.new facts.new.facts.items) }
{
    match context {
        Some(known) if is_wanted => {
            let made = make(alloc, interner, facts, Node::And(known, id))?;
            Ok(made)
        }
        _ => Ok(id),
    }
}
