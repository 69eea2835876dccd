//! Conjunctions of formulas by their numbers.

ghost use Rattle.std.specs.Prelude.{◌≡◌, List, All, IfOk, Some, slice_get};
ghost use Rattle.ws2s_core.specs.Nodes.{Extends};
ghost use Rattle.ws2s_facts.specs.Conjuncts.{IsThere, formula_of};
ghost use Rattle.ws2s_facts.specs.Facts.{AreFacts};
ghost use Rattle.ws2s_lean.specs.Conjunctions.{IsFolded};

use std::alloc::{AllocError, Global};
use ws2s_core::{FormulaId, Interner, Node};
use ws2s_facts::{Facts, make};

/// The conjunction of the first formula and the others, from the left.
pub(crate) fn conjunction_of(
    alloc: Global,
    interner: &mut Interner,
    facts: &mut Facts,
    first: FormulaId,
    others: &[FormulaId],
) -> Result<FormulaId, AllocError>
    requires first { IsThere interner.old first }
    requires others { All (IsThere interner.old) others.now }
    requires facts { AreFacts interner.old facts.old.facts.items }
    ensures kept { Extends interner.old interner.new }
    ensures there { IfOk result (IsThere interner.new) }
    ensures folded { IfOk result (λ made. IsFolded interner.old (formula_of interner.old first) others.now (formula_of interner.new made)) }
    ensures facts { IfOk result (λ made. AreFacts interner.new facts.new.facts.items) }
{
    let mut made = first;
    let mut rest = others;
    while let Some((conjunct, more)) = rest.split_first() {
        made = make(alloc, interner, facts, Node::And(made, *conjunct))?;
        rest = more;
    }
    Ok(made)
}
