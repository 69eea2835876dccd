//! A formula put in front of a chain: of a conjunction that nests to the left, the conjuncts are conjoined to it one after the other.

ghost use Rattle.std.specs.Prelude.{List, All, IfOk, OnOk};
ghost use Rattle.ws2s_core.specs.declared.formula.Formula.{Formula};
ghost use Rattle.ws2s_core.specs.declared.formula.Formula.TheVariants.{And};
ghost use Rattle.ws2s_core.specs.Nodes.{Extends};
ghost use Rattle.ws2s_core.specs.Satisfaction.{Same};
ghost use Rattle.ws2s_lean.specs.Conjunctions.{IsConjunction};
ghost use Rattle.ws2s_theory.specs.Contexts.{SameUnder};
ghost use Rattle.ws2s_facts.specs.Conjuncts.{IsThere, IsContext, formula_of, context_at};
ghost use Rattle.ws2s_facts.specs.Facts.{AreFacts};
ghost use Rattle.ws2s_context.specs.Fronting.{links};

use crate::context::Context;
use std::alloc::{AllocError, Global};
use ws2s_core::{FormulaId, Interner, Node};
use ws2s_facts::{Facts, make};

/// How many conjuncts of a chain are taken apart at most.
const MANY_STEPS: u32 = 100_000;

/// The conjuncts of a chain but the first, the last one at the beginning, and the first.
#[derive(Drop)]
pub(crate) struct Chain {
    pub(crate) others: Vec<FormulaId>,
    pub(crate) first: FormulaId,
}

/// The conjunction of a known formula and another one. Where that is a chain its conjuncts are conjoined to the known one, the first
/// one first, so that what they share is multiplied with what is known.
pub(crate) fn put_first(
    alloc: Global,
    interner: &mut Interner,
    facts: &mut Facts,
    known: FormulaId,
    id: FormulaId,
) -> Result<FormulaId, AllocError>
    requires known { IsThere interner.old known }
    requires id { IsThere interner.old id }
    requires facts { AreFacts interner.old facts.old.facts.items }
    ensures kept { Extends interner.old interner.new }
    ensures there { IfOk result (IsThere interner.new) }
    ensures same { IfOk result (λ made. Same (And (formula_of interner.old known) (formula_of interner.old id)) (formula_of interner.new made)) }
    ensures facts { IfOk result (λ made. AreFacts interner.new facts.new.facts.items) }
{
    let chain = chain_of(alloc, interner, id)?;
    let made = conjoined_to(alloc, interner, facts, known, chain)?;
    Ok(made)
}

/// The same of a context and a formula; where nothing is known, the formula.
pub(crate) fn put_context_first(
    alloc: Global,
    interner: &mut Interner,
    facts: &mut Facts,
    context: Context,
    id: FormulaId,
) -> Result<FormulaId, AllocError>
    requires context { IsContext interner.old context }
    requires id { IsThere interner.old id }
    requires facts { AreFacts interner.old facts.old.facts.items }
    ensures kept { Extends interner.old interner.new }
    ensures there { IfOk result (IsThere interner.new) }
    ensures same { IfOk result (λ made. SameUnder (context_at interner.old context) (formula_of interner.old id) (formula_of interner.new made)) }
    ensures facts { IfOk result (λ made. AreFacts interner.new facts.new.facts.items) }
{
    match context {
        Some(known) => {
            let made = put_first(alloc, interner, facts, known, id)?;
            Ok(made)
        }
        None => Ok(id),
    }
}

/// A formula, and where it is a conjunction, its left half put in front of its right one.
pub(crate) fn left_first(
    alloc: Global,
    interner: &mut Interner,
    facts: &mut Facts,
    id: FormulaId,
) -> Result<FormulaId, AllocError>
    requires id { IsThere interner.old id }
    requires facts { AreFacts interner.old facts.old.facts.items }
    ensures kept { Extends interner.old interner.new }
    ensures there { IfOk result (IsThere interner.new) }
    ensures same { IfOk result (λ made. Same (formula_of interner.old id) (formula_of interner.new made)) }
{
    let Some(node) = interner.form(id) else {
        return Ok(id);
    };
    match node {
        Node::And(f, g) => {
            let made = put_first(alloc, interner, facts, f, g)?;
            Ok(made)
        }
        _ => Ok(id),
    }
}

/// The conjuncts of a formula: the left half of a conjunction is taken apart too, the right one isn't.
fn chain_of(alloc: Global, interner: &Interner, id: FormulaId) -> Result<Chain, AllocError>
    requires { IsThere interner.now id }
    ensures { IfOk result (λ chain. IsConjunction interner.now (formula_of interner.now id) (links chain)) }
{
    let mut chain = Chain {
        others: Vec::new(alloc),
        first: id,
    };
    'steps: for _ in 0..MANY_STEPS {
        if !go_left(interner, &mut chain)? {
            break 'steps;
        }
    }
    Ok(chain)
}

/// Takes the first one apart where it is a conjunction, and tells whether it was one.
fn go_left(interner: &Interner, chain: &mut Chain) -> Result<bool, AllocError>
    ensures { OnOk result ((f : Formula) → IsConjunction interner.now f (links chain.old) → IsConjunction interner.now f (links chain.new)) }
{
    let Some(node) = interner.form(chain.first) else {
        return Ok(false);
    };
    match node {
        Node::And(f, g) => {
            chain.others.push(g)?;
            chain.first = f;
            Ok(true)
        }
        _ => Ok(false),
    }
}

/// The known formula with the conjuncts after it.
fn conjoined_to(
    alloc: Global,
    interner: &mut Interner,
    facts: &mut Facts,
    known: FormulaId,
    chain: Chain,
) -> Result<FormulaId, AllocError>
    requires known { IsThere interner.old known }
    requires there { All (IsThere interner.old) (links chain) }
    requires facts { AreFacts interner.old facts.old.facts.items }
    ensures kept { Extends interner.old interner.new }
    ensures there { IfOk result (IsThere interner.new) }
    ensures same { IfOk result (λ made. (f : Formula) → IsConjunction interner.old f (links chain) →
        Same (And (formula_of interner.old known) f) (formula_of interner.new made)) }
    ensures facts { IfOk result (λ made. AreFacts interner.new facts.new.facts.items) }
{
    let Chain { mut others, first } = chain;
    let mut made = make(alloc, interner, facts, Node::And(known, first))?;
    while let Some(conjunct) = others.pop() {
        made = make(alloc, interner, facts, Node::And(made, conjunct))?;
    }
    Ok(made)
}
