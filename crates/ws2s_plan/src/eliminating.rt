//! One track eliminated.

ghost use Rattle.std.specs.Prelude.{◌≡◌, List, [], ◌∷◌, All, IfOk, OnOk, IfSome};
ghost use Rattle.ws2s_core.specs.declared.formula.Formula.{Formula};
ghost use Rattle.ws2s_core.specs.declared.node.FormulaId.{FormulaId};
ghost use Rattle.ws2s_core.specs.Nodes.{Extends};
ghost use Rattle.ws2s_facts.specs.Conjuncts.{IsThere};
ghost use Rattle.ws2s_facts.specs.Facts.{AreFacts};
ghost use Rattle.ws2s_plan.specs.Steps.{IsParted, IsEliminatedBy};

use crate::conjunctions::conjunction_of;
use std::alloc::{AllocError, Global};
use ws2s_core::{FormulaId, Interner, Node, Track};
use ws2s_facts::{Facts, make};

/// Conjuncts parted by whether they have a track.
#[derive(Drop)]
pub(crate) struct Parted {
    /// Those that may have it.
    pub(crate) members: Vec<FormulaId>,
    /// Those that are known not to have it free.
    pub(crate) others: Vec<FormulaId>,
    /// How many of the others stand before the last member.
    pub(crate) place: usize,
}

/// What a track was eliminated by, and what is left.
#[derive(Drop)]
pub(crate) struct Eliminated {
    pub(crate) bucket: FormulaId,
    pub(crate) left: Vec<FormulaId>,
}

/// Puts the quantified conjunction of the conjuncts that have the track in the place of the last of them. `None` where none has it.
pub(crate) fn eliminate_from(
    alloc: Global,
    interner: &mut Interner,
    facts: &mut Facts,
    units: &[FormulaId],
    t: Track,
) -> Result<Option<Eliminated>, AllocError>
    requires there { All (IsThere interner.old) units.now }
    requires facts { AreFacts interner.old facts.old.facts.items }
    ensures kept { Extends interner.old interner.new }
    ensures value { IfOk result (λ made. IfSome made (IsEliminatedBy interner.new t units.now)) }
    ensures facts { IfOk result (λ made. AreFacts interner.new facts.new.facts.items) }
{
    let Parted {
        members,
        mut others,
        place,
    } = parts_of(alloc, facts, units, t)?;
    let Some((first, more)) = members.as_slice().split_first() else {
        return Ok(None);
    };
    let bucket = conjunction_of(alloc, interner, facts, *first, more)?;
    let quantified = make(alloc, interner, facts, Node::Ex2(t, bucket))?;
    others.insert(place, quantified)?;
    Ok(Some(Eliminated {
        bucket,
        left: others,
    }))
}

/// The conjuncts parted by whether they have the track.
fn parts_of(
    alloc: Global,
    facts: &Facts,
    units: &[FormulaId],
    t: Track,
) -> Result<Parted, AllocError>
    ensures { IfOk result (λ parted. (formulas : List Formula) → AreFacts formulas facts.now.facts.items →
        All (IsThere formulas) units.now → IsParted formulas t units.now [] parted) }
{
    let mut parted = Parted {
        members: Vec::new(alloc),
        others: Vec::new(alloc),
        place: 0,
    };
    let mut rest = units;
    while let Some((unit, more)) = rest.split_first() {
        part(facts, *unit, t, &mut parted)?;
        rest = more;
    }
    Ok(parted)
}

/// One more conjunct comes to the members or to the others.
fn part(facts: &Facts, unit: FormulaId, t: Track, parted: &mut Parted) -> Result<(), AllocError>
    ensures { OnOk result ((formulas : List Formula) (units rest : List FormulaId) → AreFacts formulas facts.now.facts.items →
        IsParted formulas t units (unit ∷ rest) parted.old → IsParted formulas t units rest parted.new) }
{
    if facts.lacks(unit, t) {
        parted.others.push(unit)?;
    } else {
        parted.members.push(unit)?;
        parted.place = parted.others.len();
    }
    Ok(())
}
