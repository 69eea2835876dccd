//! Conjuncts folded from the left, each once.

ghost use Rattle.std.specs.Prelude.{◌≡◌, List, true, All, Contains, IfOk, OnOk};
ghost use Rattle.ws2s_core.specs.declared.formula.Formula.{Formula};
ghost use Rattle.ws2s_core.specs.declared.formula.Formula.TheVariants.{And};
ghost use Rattle.ws2s_core.specs.Nodes.{Extends};
ghost use Rattle.ws2s_core.specs.Satisfaction.{Same};
ghost use Rattle.ws2s_lean.specs.Conjunctions.{IsThere, IsConjunction, IsLeaned, AreLeaned, IsFold, IsFolded, formula_of};

use crate::leaned::Leaned;
use std::alloc::{AllocError, Global};
use std::collections::HashMap;
use ws2s_core::{FormulaId, Interner, Node, intern_form};

/// A conjunction, and the conjuncts that were folded into it.
#[derive(Drop)]
pub(crate) struct Fold {
    pub(crate) whole: FormulaId,
    pub(crate) conjuncts: Vec<FormulaId>,
    /// Where a conjunct stands.
    places: HashMap<FormulaId, usize>,
}

impl Fold {
    /// One conjunct.
    fn of_one(alloc: Global, first: FormulaId) -> Result<Fold, AllocError>
        ensures whole { IfOk result (λ fold. fold.whole ≡ first) }
        ensures fold { IfOk result (λ fold. (formulas : List Formula) → IsThere formulas first → IsFold formulas fold) }
    {
        let mut places = HashMap::new(alloc);
        places.insert(first, 0)?;
        let mut conjuncts = Vec::new(alloc);
        conjuncts.push(first)?;
        Ok(Fold {
            whole: first,
            conjuncts,
            places,
        })
    }

    /// Whether the conjunct was folded.
    fn has(&self, conjunct: FormulaId) -> bool
        ensures { result ≡ true → Contains self.now.conjuncts.items conjunct }
    {
        let Some(place) = self.places.get(&conjunct) else {
            return false;
        };
        let Some(found) = self.conjuncts.get(*place) else {
            return false;
        };
        if *found == conjunct {
            return true;
        }
        false
    }

    /// Folds a conjunct, unless it was folded before.
    fn add(&mut self, interner: &mut Interner, conjunct: FormulaId) -> Result<(), AllocError>
        requires fold { IsFold interner.old self.old }
        requires there { IsThere interner.old conjunct }
        ensures kept { Extends interner.old interner.new }
        ensures fold { OnOk result (IsFold interner.new self.new) }
        ensures both { OnOk result (Same (And (formula_of interner.old self.old.whole) (formula_of interner.old conjunct))
            (formula_of interner.new self.new.whole)) }
    {
        if self.has(conjunct) {
            return Ok(());
        }
        let whole = intern_form(interner, Node::And(self.whole, conjunct))?;
        self.places.insert(conjunct, self.conjuncts.len())?;
        self.conjuncts.push(conjunct)?;
        self.whole = whole;
        Ok(())
    }
}

/// What the conjuncts were refolded to is folded after what was folded before.
fn fold_all(
    interner: &mut Interner,
    leaned: &Leaned,
    conjuncts: &[FormulaId],
    fold: &mut Fold,
) -> Result<(), AllocError>
    requires fold { IsFold interner.old fold.old }
    requires there { All (IsThere interner.old) conjuncts.now }
    requires leaned { AreLeaned interner.old leaned.now.made.items }
    ensures kept { Extends interner.old interner.new }
    ensures fold { OnOk result (IsFold interner.new fold.new) }
    ensures folded { OnOk result (IsFolded interner.old (formula_of interner.old fold.old.whole) conjuncts.now
        (formula_of interner.new fold.new.whole)) }
{
    let mut rest = conjuncts;
    while let Some((conjunct, more)) = rest.split_first() {
        fold.add(interner, leaned.to(*conjunct))?;
        rest = more;
    }
    Ok(())
}

/// The conjunction of what a formula's conjuncts were refolded to.
pub(crate) fn refolded(
    alloc: Global,
    interner: &mut Interner,
    leaned: &Leaned,
    id: FormulaId,
    conjuncts: &[FormulaId],
) -> Result<FormulaId, AllocError>
    requires there { IsThere interner.old id }
    requires conjunction { IsConjunction interner.old (formula_of interner.old id) conjuncts.now }
    requires leaned { AreLeaned interner.old leaned.now.made.items }
    ensures kept { Extends interner.old interner.new }
    ensures leaned { IfOk result (IsLeaned interner.new id) }
{
    let Some((first, more)) = conjuncts.split_first() else {
        return Ok(id);
    };
    let mut fold = Fold::of_one(alloc, leaned.to(*first))?;
    fold_all(interner, leaned, more, &mut fold)?;
    Ok(fold.whole)
}
