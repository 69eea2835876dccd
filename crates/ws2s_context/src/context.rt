//! Contexts: what holds around a formula.

ghost use Rattle.std.specs.Prelude.{◌≡◌, ℕ, List, [], ◌∷◌, All, Some, None, IfOk, OnOk};
ghost use Rattle.ws2s_core.specs.declared.formula.Formula.{Formula};
ghost use Rattle.ws2s_core.specs.Nodes.{Extends};
ghost use Rattle.ws2s_core.specs.Tracks.{IsFree};
ghost use Rattle.ws2s_facts.specs.Conjuncts.{IsThere, IsContext, IsConjunct, IsUnbound, IsAmong, formula_of, context_at};
ghost use Rattle.ws2s_facts.specs.Conjuncts.{Implies, after, joined, formulas_at};
ghost use Rattle.ws2s_facts.specs.Facts.{AreFacts};

use crate::choice::Choice;
use crate::hints::is_relevant;
use crate::spine::conjuncts_of;
use crate::uses::Uses;
use std::alloc::{AllocError, Global};
use std::collections::HashSet;
use ws2s_core::{FormulaId, Interner, Node, Track};
use ws2s_facts::{Facts, make};

/// How many conjuncts a context has at most.
const MANY_CONJUNCTS: usize = 512;

/// How many `Single` atoms come beside a negation at most: more have a state for each set of them.
const MANY_SINGLES: u32 = 3;

/// What holds around a formula, as one conjunction; `None` where nothing is known.
pub(crate) type Context = Option<FormulaId>;

/// The conjunction of conjuncts from the left, as a context: contexts that begin with the same conjuncts begin with the same formula.
pub(crate) fn conjunction_of(
    alloc: Global,
    interner: &mut Interner,
    facts: &mut Facts,
    conjuncts: Vec<FormulaId>,
) -> Result<Context, AllocError>
    requires there { All (IsThere interner.old) conjuncts.items }
    requires facts { AreFacts interner.old facts.old.facts.items }
    ensures kept { Extends interner.old interner.new }
    ensures there { IfOk result (IsContext interner.new) }
    ensures value { IfOk result (λ context. context_at interner.new context ≡ joined [] (formulas_at interner.old conjuncts.items)) }
    ensures facts { IfOk result (λ context. AreFacts interner.new facts.new.facts.items) }
{
    let mut context = None;
    let mut rest = conjuncts.as_slice();
    while let Some((conjunct, more)) = rest.split_first() {
        let made = put_after(alloc, interner, facts, context, *conjunct)?;
        context = Some(made);
        rest = more;
    }
    Ok(context)
}

/// The conjunct after what the context has.
fn put_after(
    alloc: Global,
    interner: &mut Interner,
    facts: &mut Facts,
    context: Context,
    conjunct: FormulaId,
) -> Result<FormulaId, AllocError>
    requires context { IsContext interner.old context }
    requires conjunct { IsThere interner.old conjunct }
    requires facts { AreFacts interner.old facts.old.facts.items }
    ensures kept { Extends interner.old interner.new }
    ensures there { IfOk result (IsThere interner.new) }
    ensures value { IfOk result (λ id. formula_of interner.new id ∷ [] ≡
        after (context_at interner.old context) (formula_of interner.old conjunct)) }
    ensures facts { IfOk result (λ id. AreFacts interner.new facts.new.facts.items) }
{
    match context {
        Some(rest) => {
            let made = make(alloc, interner, facts, Node::And(rest, conjunct))?;
            Ok(made)
        }
        None => Ok(conjunct),
    }
}

/// The conjuncts that a context has.
pub(crate) fn members_of(
    alloc: Global,
    interner: &Interner,
    context: Context,
) -> Result<Vec<FormulaId>, AllocError>
    requires { IsContext interner.now context }
    ensures { IfOk result (λ members. All (IsConjunct interner.now (context_at interner.now context)) members.items) }
{
    match context {
        Some(id) => conjuncts_of(alloc, interner, id),
        None => Ok(Vec::new(alloc)),
    }
}

/// Chooses conjuncts for the context of a formula: those that are relevant to it and weren't known before.
fn choose(
    chosen: &mut Vec<FormulaId>,
    known: &mut HashSet<FormulaId>,
    facts: &Facts,
    conjuncts: &[FormulaId],
    id: FormulaId,
) -> Result<(), AllocError>
    ensures { OnOk result (IsAmong chosen.old.items conjuncts.now chosen.new.items) }
{
    for conjunct in conjuncts {
        if chosen.len() < MANY_CONJUNCTS
            && is_relevant(facts, *conjunct, id)
            && !known.contains(conjunct)
        {
            note(known, *conjunct)?;
            chosen.push(*conjunct)?;
        }
    }
    Ok(())
}

/// Puts a formula into a set.
pub(crate) fn note(known: &mut HashSet<FormulaId>, conjunct: FormulaId) -> Result<(), AllocError> {
    match known.insert(conjunct) {
        Ok(_) => Ok(()),
        Err(_) => Err(AllocError),
    }
}

/// What of a context is relevant to a part of its formula.
pub(crate) fn narrowed(
    alloc: Global,
    interner: &mut Interner,
    facts: &mut Facts,
    context: Context,
    id: FormulaId,
) -> Result<Context, AllocError>
    requires context { IsContext interner.old context }
    requires facts { AreFacts interner.old facts.old.facts.items }
    ensures kept { Extends interner.old interner.new }
    ensures there { IfOk result (IsContext interner.new) }
    ensures implied { IfOk result (λ inner. Implies (context_at interner.old context) (context_at interner.new inner)) }
    ensures facts { IfOk result (λ inner. AreFacts interner.new facts.new.facts.items) }
{
    let members = members_of(alloc, interner, context)?;
    let mut chosen = Vec::new(alloc);
    let mut known = HashSet::new(alloc);
    choose(&mut chosen, &mut known, facts, &members, id)?;
    let made = conjunction_of(alloc, interner, facts, chosen)?;
    Ok(made)
}

/// What of a context was conjoined inside a formula, and its `Single` atoms that come beside negations of it, where these are few.
pub(crate) fn used(
    alloc: Global,
    interner: &mut Interner,
    facts: &mut Facts,
    choice: &Choice,
    uses: &Uses,
    context: Context,
    inside: FormulaId,
) -> Result<Context, AllocError>
    requires context { IsContext interner.old context }
    requires facts { AreFacts interner.old facts.old.facts.items }
    ensures kept { Extends interner.old interner.new }
    ensures there { IfOk result (IsContext interner.new) }
    ensures implied { IfOk result (λ inner. Implies (context_at interner.old context) (context_at interner.new inner)) }
    ensures facts { IfOk result (λ inner. AreFacts interner.new facts.new.facts.items) }
{
    let members = members_of(alloc, interner, context)?;
    let mut chosen = Vec::new(alloc);
    choose_used(&mut chosen, interner, facts, choice, uses, &members, inside)?;
    let made = conjunction_of(alloc, interner, facts, chosen)?;
    Ok(made)
}

/// Chooses those conjuncts that were conjoined inside a formula, and `Single` atoms where they are few.
fn choose_used(
    chosen: &mut Vec<FormulaId>,
    interner: &Interner,
    facts: &Facts,
    choice: &Choice,
    uses: &Uses,
    conjuncts: &[FormulaId],
    inside: FormulaId,
) -> Result<(), AllocError>
    ensures { OnOk result (IsAmong chosen.old.items conjuncts.now chosen.new.items) }
{
    let are_few = are_singles_few(interner, facts, choice, conjuncts, inside);
    for conjunct in conjuncts {
        if is_used(interner, facts, choice, uses, *conjunct, inside, are_few) {
            chosen.push(*conjunct)?;
        }
    }
    Ok(())
}

/// Whether a conjunct was conjoined inside a formula, or is one of few `Single` atoms.
fn is_used(
    interner: &Interner,
    facts: &Facts,
    choice: &Choice,
    uses: &Uses,
    conjunct: FormulaId,
    inside: FormulaId,
    are_few: bool,
) -> bool {
    uses.has(conjunct, inside) || (are_few && choice.restricts(interner, facts, conjunct, inside))
}

/// Whether few of the conjuncts are `Single` atoms that come beside negations of the formula.
fn are_singles_few(
    interner: &Interner,
    facts: &Facts,
    choice: &Choice,
    conjuncts: &[FormulaId],
    id: FormulaId,
) -> bool {
    let mut count: u32 = 0;
    for conjunct in conjuncts {
        if choice.restricts(interner, facts, *conjunct, id) {
            count = count.saturating_add(1);
        }
    }
    count <= MANY_SINGLES
}

/// The context of the right half of a conjunction: what is relevant to it of what the left half has, of a projection of that,
/// and of the context of both.
pub(crate) fn beside(
    alloc: Global,
    interner: &mut Interner,
    facts: &mut Facts,
    choice: &Choice,
    context: Context,
    left: FormulaId,
    projection: FormulaId,
    right: FormulaId,
) -> Result<Context, AllocError>
    requires context { IsContext interner.old context }
    requires left { IsThere interner.old left }
    requires projection { IsConjunct interner.old (formula_of interner.old left ∷ []) projection }
    requires facts { AreFacts interner.old facts.old.facts.items }
    ensures kept { Extends interner.old interner.new }
    ensures there { IfOk result (IsContext interner.new) }
    ensures implied { IfOk result (λ inner. Implies (formula_of interner.old left ∷ context_at interner.old context) (context_at interner.new inner)) }
    ensures facts { IfOk result (λ inner. AreFacts interner.new facts.new.facts.items) }
{
    let of_left = left_conjuncts(alloc, interner, choice, left, projection)?;
    let members = members_of(alloc, interner, context)?;
    let chosen = chosen_beside(alloc, facts, choice, &of_left, &members, right)?;
    let made = conjunction_of(alloc, interner, facts, chosen)?;
    Ok(made)
}

/// Conjuncts of the left half of a conjunction and of its context that are relevant to the right one. Those of the context come first
/// where they are many: contexts of one formula begin alike then.
fn chosen_beside(
    alloc: Global,
    facts: &Facts,
    choice: &Choice,
    of_left: &[FormulaId],
    members: &[FormulaId],
    right: FormulaId,
) -> Result<Vec<FormulaId>, AllocError>
    ensures { IfOk result (λ chosen. IsAmong of_left.now members.now chosen.items) }
{
    if choice.is_whole() {
        return chosen_of_both(alloc, facts, members, of_left, right);
    }
    chosen_of_both(alloc, facts, of_left, members, right)
}

/// The relevant conjuncts of two lists, each once, those of the first list first.
fn chosen_of_both(
    alloc: Global,
    facts: &Facts,
    first: &[FormulaId],
    second: &[FormulaId],
    id: FormulaId,
) -> Result<Vec<FormulaId>, AllocError>
    ensures { IfOk result (λ chosen. IsAmong first.now second.now chosen.items) }
{
    let mut chosen = Vec::new(alloc);
    let mut known = HashSet::new(alloc);
    choose(&mut chosen, &mut known, facts, first, id)?;
    choose(&mut chosen, &mut known, facts, second, id)?;
    Ok(chosen)
}

/// Those conjuncts of the left half of a conjunction that come into contexts, and the projection where it is another formula.
fn left_conjuncts(
    alloc: Global,
    interner: &Interner,
    choice: &Choice,
    left: FormulaId,
    projection: FormulaId,
) -> Result<Vec<FormulaId>, AllocError>
    requires left { IsThere interner.now left }
    requires projection { IsConjunct interner.now (formula_of interner.now left ∷ []) projection }
    ensures { IfOk result (λ taken. All (IsConjunct interner.now (formula_of interner.now left ∷ [])) taken.items) }
{
    let mut taken = taken_conjuncts(alloc, interner, choice, left)?;
    if projection != left {
        taken.push(projection)?;
    }
    Ok(taken)
}

/// Those conjuncts of the left half of a conjunction that come into contexts.
fn taken_conjuncts(
    alloc: Global,
    interner: &Interner,
    choice: &Choice,
    left: FormulaId,
) -> Result<Vec<FormulaId>, AllocError>
    requires { IsThere interner.now left }
    ensures { IfOk result (λ taken. All (IsConjunct interner.now (formula_of interner.now left ∷ [])) taken.items) }
{
    let mut taken = Vec::new(alloc);
    for conjunct in &conjuncts_of(alloc, interner, left)? {
        if choice.takes(interner, *conjunct) {
            taken.push(*conjunct)?;
        }
    }
    Ok(taken)
}

/// The formula with these tracks quantified.
pub(crate) fn projected(
    alloc: Global,
    interner: &mut Interner,
    facts: &mut Facts,
    id: FormulaId,
    tracks: &[u32],
) -> Result<FormulaId, AllocError>
    requires id { IsThere interner.old id }
    requires facts { AreFacts interner.old facts.old.facts.items }
    ensures kept { Extends interner.old interner.new }
    ensures conjunct { IfOk result (IsConjunct interner.new (formula_of interner.new id ∷ [])) }
    ensures facts { IfOk result (λ made. AreFacts interner.new facts.new.facts.items) }
{
    let mut made = id;
    for t in tracks {
        made = make(alloc, interner, facts, Node::Ex2(Track(*t), made))?;
    }
    Ok(made)
}

/// The context under a quantifier of a track: what is relevant to what stands there, hasn't the track free, and isn't one
/// of its conjuncts.
pub(crate) fn inside(
    alloc: Global,
    interner: &mut Interner,
    facts: &mut Facts,
    context: Context,
    t: Track,
    id: FormulaId,
) -> Result<Context, AllocError>
    requires context { IsContext interner.old context }
    requires id { IsThere interner.old id }
    requires facts { AreFacts interner.old facts.old.facts.items }
    ensures kept { Extends interner.old interner.new }
    ensures there { IfOk result (IsContext interner.new) }
    ensures implied { IfOk result (λ inner. Implies (context_at interner.old context) (context_at interner.new inner)) }
    ensures facts { IfOk result (λ inner. AreFacts interner.new facts.new.facts.items) }
    ensures unbound { IfOk result (λ inner. All (λ c. IsFree t.0 c → ⊥) (context_at interner.new inner)) }
{
    let unbound = lacking(alloc, interner, facts, context, t)?;
    let mut known = known_of(alloc, interner, id)?;
    let mut chosen = Vec::new(alloc);
    choose(&mut chosen, &mut known, facts, &unbound, id)?;
    let made = conjunction_of(alloc, interner, facts, chosen)?;
    Ok(made)
}

/// The conjuncts of the formula, as a set.
fn known_of(
    alloc: Global,
    interner: &Interner,
    id: FormulaId,
) -> Result<HashSet<FormulaId>, AllocError>
    requires { IsThere interner.now id }
{
    let mut known = HashSet::new(alloc);
    for conjunct in &conjuncts_of(alloc, interner, id)? {
        note(&mut known, *conjunct)?;
    }
    Ok(known)
}

/// Those of a context's conjuncts that are known not to have the track free.
fn lacking(
    alloc: Global,
    interner: &Interner,
    facts: &Facts,
    context: Context,
    t: Track,
) -> Result<Vec<FormulaId>, AllocError>
    requires context { IsContext interner.now context }
    requires facts { AreFacts interner.now facts.now.facts.items }
    ensures { IfOk result (λ unbound. All (IsUnbound interner.now (context_at interner.now context) t.0) unbound.items) }
{
    let mut unbound = Vec::new(alloc);
    for conjunct in &members_of(alloc, interner, context)? {
        if facts.lacks(*conjunct, t) {
            unbound.push(*conjunct)?;
        }
    }
    Ok(unbound)
}
