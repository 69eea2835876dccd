//! A formula's conjuncts.

ghost use Rattle.std.specs.Prelude.{◌≡◌, List, [], ◌∷◌, All, IfOk, OnOk, IfSome};
ghost use Rattle.ws2s_core.specs.declared.formula.Formula.{Formula};
ghost use Rattle.ws2s_facts.specs.Conjuncts.{IsThere, formula_of};
ghost use Rattle.ws2s_lean.specs.Conjunctions.{IsConjunction};
ghost use Rattle.ws2s_plan.specs.Steps.{IsTaking, AreHalves};

use std::alloc::{AllocError, Global};
use std::collections::HashSet;
use ws2s_core::{FormulaId, Interner, Node};

/// How many formulas are looked at, at most.
const MANY_LOOKS: u32 = 100_000;

/// A conjunction that is taken apart.
#[derive(Drop)]
pub(crate) struct Taking {
    /// Conjuncts that may be conjunctions, the next one last.
    pub(crate) waiting: Vec<FormulaId>,
    /// Conjuncts that are none, each once.
    pub(crate) found: Vec<FormulaId>,
    /// Their numbers.
    pub(crate) known: HashSet<u32>,
}

/// The conjuncts of a formula from the left, each once; where there are too many the formula alone.
pub(crate) fn conjuncts_of(
    alloc: Global,
    interner: &Interner,
    id: FormulaId,
) -> Result<Vec<FormulaId>, AllocError>
    requires { IsThere interner.now id }
    ensures { IfOk result (λ found. IsConjunction interner.now (formula_of interner.now id) found.items) }
{
    let mut taking = Taking {
        waiting: Vec::new(alloc),
        found: Vec::new(alloc),
        known: HashSet::new(alloc),
    };
    taking.waiting.push(id)?;
    'looks: for _ in 0..MANY_LOOKS {
        let Some(next) = taking.waiting.pop() else {
            return Ok(taking.found);
        };
        look(interner, next, &mut taking)?;
    }
    let found = alone(alloc, id)?;
    Ok(found)
}

/// The formula alone.
fn alone(alloc: Global, id: FormulaId) -> Result<Vec<FormulaId>, AllocError>
    ensures { IfOk result (λ one. one.items ≡ id ∷ []) }
{
    let mut one = Vec::new(alloc);
    one.push(id)?;
    Ok(one)
}

/// The halves of a conjunction come to wait; what is no conjunction is found.
fn look(interner: &Interner, next: FormulaId, taking: &mut Taking) -> Result<(), AllocError>
    ensures { OnOk result ((f : Formula) → IsTaking interner.now f (next ∷ []) taking.old → IsTaking interner.now f [] taking.new) }
{
    let Some(halves) = halves_of(interner, next) else {
        find(next, taking)?;
        return Ok(());
    };
    taking.waiting.push(halves.1)?;
    taking.waiting.push(halves.0)?;
    Ok(())
}

/// A conjunct is found, unless it was.
fn find(next: FormulaId, taking: &mut Taking) -> Result<(), AllocError>
    ensures { OnOk result ((formulas : List Formula) (f : Formula) → IsTaking formulas f (next ∷ []) taking.old → IsTaking formulas f [] taking.new) }
{
    if taking.known.insert(next.0)? {
        taking.found.push(next)?;
    }
    Ok(())
}

/// The halves of a conjunction. `None` where the formula is none.
fn halves_of(interner: &Interner, id: FormulaId) -> Option<(FormulaId, FormulaId)>
    ensures { IfSome result (AreHalves interner.now id) }
{
    match interner.form(id) {
        Some(Node::And(f, g)) => Some((f, g)),
        _ => None,
    }
}
