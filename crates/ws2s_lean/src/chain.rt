//! Chains of conjunctions taken apart.

ghost use Rattle.std.specs.Prelude.{IfOk, OnOk};
ghost use Rattle.ws2s_core.specs.declared.formula.Formula.{Formula};
ghost use Rattle.ws2s_lean.specs.Conjunctions.{IsThere, IsConjunction, formula_of, members};

use std::alloc::{AllocError, Global};
use std::collections::HashSet;
use ws2s_core::{FormulaId, Interner, Node};

/// How many conjuncts of a chain are taken apart at most.
const MANY_STEPS: u32 = 100_000;

/// Conjuncts from the left, and what stands after them.
#[derive(Drop)]
pub(crate) struct Chain {
    pub(crate) conjuncts: Vec<FormulaId>,
    pub(crate) last: FormulaId,
}

/// The conjuncts of a formula from the left: the right half of a chain is taken apart too, other halves aren't.
pub(crate) fn conjuncts_of(
    alloc: Global,
    interner: &Interner,
    chains: &HashSet<FormulaId>,
    id: FormulaId,
) -> Result<Vec<FormulaId>, AllocError>
    ensures { IfOk result (λ ids. IsThere interner.now id → IsConjunction interner.now (formula_of interner.now id) ids.items) }
{
    let chain = chain_of(alloc, interner, chains, id)?;
    let Chain {
        mut conjuncts,
        last,
    } = chain;
    conjuncts.push(last)?;
    Ok(conjuncts)
}

/// The same, with the last one by itself.
fn chain_of(
    alloc: Global,
    interner: &Interner,
    chains: &HashSet<FormulaId>,
    id: FormulaId,
) -> Result<Chain, AllocError>
    ensures { IfOk result (λ chain. IsThere interner.now id → IsConjunction interner.now (formula_of interner.now id) (members chain)) }
{
    let mut chain = Chain {
        conjuncts: Vec::new(alloc),
        last: id,
    };
    'steps: for _ in 0..MANY_STEPS {
        if !go_on(interner, chains, &mut chain)? {
            break 'steps;
        }
    }
    Ok(chain)
}

/// Takes the last one apart where it is a conjunction, and tells whether its right half may be taken apart too.
fn go_on(
    interner: &Interner,
    chains: &HashSet<FormulaId>,
    chain: &mut Chain,
) -> Result<bool, AllocError>
    ensures { OnOk result ((f : Formula) → IsConjunction interner.now f (members chain.old) → IsConjunction interner.now f (members chain.new)) }
{
    let Some(node) = interner.form(chain.last) else {
        return Ok(false);
    };
    match node {
        Node::And(f, g) => {
            let goes_on = chains.contains(&chain.last);
            chain.conjuncts.push(f)?;
            chain.last = g;
            Ok(goes_on)
        }
        _ => Ok(false),
    }
}
