//! A formula refolded, part by part.

ghost use Rattle.std.specs.Prelude.{◌≡◌, ◌<◌, length, IfOk, OnOk, Some, slice_get};
ghost use Rattle.ws2s_core.specs.declared.formula.Formula.{Formula};
ghost use Rattle.ws2s_core.specs.declared.formula.Formula.TheVariants.{Not, Ex2};
ghost use Rattle.ws2s_core.specs.Nodes.{Extends, HasPartsBelow, formula_of_node};
ghost use Rattle.ws2s_core.specs.Satisfaction.{Same};
ghost use Rattle.ws2s_lean.specs.Conjunctions.{IsThere, IsLeaned, AreLeaned, formula_of};

use crate::chain::conjuncts_of;
use crate::fold::refolded;
use crate::leaned::Leaned;
use std::alloc::{AllocError, Global};
use std::collections::HashSet;
use ws2s_core::{FormulaId, Interner, Node, Track, intern_form};

/// The number of a formula with the same satisfying assignments, whose conjunctions are folded to the left: of a conjunction among the
/// chains the right half is taken apart too, and each conjunct comes once.
///
/// # Errors
///
/// Want of memory.
pub fn lean_left(
    alloc: Global,
    interner: &mut Interner,
    id: FormulaId,
    chains: &HashSet<FormulaId>,
) -> Result<FormulaId, AllocError>
    requires { (f : Formula) × (slice_get interner.old id.0 ≡ Some f) }
    ensures value { IfOk result (λ made. (f : Formula) → slice_get interner.old id.0 ≡ Some f →
        (g : Formula) × (slice_get interner.new made.0 ≡ Some g) × Same f g) }
    ensures kept { Extends interner.old interner.new }
{
    let parts = interner.parts(alloc, id)?;
    let wanted = wanted_of(alloc, interner, chains, id, parts.as_slice())?;
    let mut leaned = Leaned::new(alloc);
    lean_all(
        alloc,
        interner,
        chains,
        &wanted,
        parts.as_slice(),
        &mut leaned,
    )?;
    Ok(leaned.to(id))
}

/// Those of the parts that the refolded formula needs; the parts of each stand before it.
fn wanted_of(
    alloc: Global,
    interner: &Interner,
    chains: &HashSet<FormulaId>,
    id: FormulaId,
    parts: &[FormulaId],
) -> Result<HashSet<FormulaId>, AllocError> {
    let mut wanted = HashSet::new(alloc);
    want(&mut wanted, id)?;
    for part in parts.iter().rev() {
        if wanted.contains(part) {
            want_parts(alloc, interner, chains, *part, &mut wanted)?;
        }
    }
    Ok(wanted)
}

/// The formula is needed.
fn want(wanted: &mut HashSet<FormulaId>, id: FormulaId) -> Result<(), AllocError> {
    match wanted.insert(id) {
        Ok(_) => Ok(()),
        Err(_) => Err(AllocError),
    }
}

/// What a formula is made of again is needed.
fn want_parts(
    alloc: Global,
    interner: &Interner,
    chains: &HashSet<FormulaId>,
    id: FormulaId,
    wanted: &mut HashSet<FormulaId>,
) -> Result<(), AllocError> {
    match interner.form(id) {
        Some(Node::And(_, _)) => want_conjuncts(alloc, interner, chains, id, wanted),
        Some(Node::Not(f) | Node::Ex2(_, f)) => want(wanted, f),
        _ => Ok(()),
    }
}

/// The conjuncts of a formula are needed.
fn want_conjuncts(
    alloc: Global,
    interner: &Interner,
    chains: &HashSet<FormulaId>,
    id: FormulaId,
    wanted: &mut HashSet<FormulaId>,
) -> Result<(), AllocError> {
    for conjunct in &conjuncts_of(alloc, interner, chains, id)? {
        want(wanted, *conjunct)?;
    }
    Ok(())
}

/// Refolds those of the parts that are needed, in their order.
fn lean_all(
    alloc: Global,
    interner: &mut Interner,
    chains: &HashSet<FormulaId>,
    wanted: &HashSet<FormulaId>,
    parts: &[FormulaId],
    leaned: &mut Leaned,
) -> Result<(), AllocError>
    requires { AreLeaned interner.old leaned.old.made.items }
    ensures kept { Extends interner.old interner.new }
    ensures leaned { OnOk result (AreLeaned interner.new leaned.new.made.items) }
{
    for part in parts {
        lean(alloc, interner, chains, wanted, *part, leaned)?;
    }
    Ok(())
}

/// Refolds a formula if it is needed; its parts were, as far as they are.
fn lean(
    alloc: Global,
    interner: &mut Interner,
    chains: &HashSet<FormulaId>,
    wanted: &HashSet<FormulaId>,
    id: FormulaId,
    leaned: &mut Leaned,
) -> Result<(), AllocError>
    requires { AreLeaned interner.old leaned.old.made.items }
    ensures kept { Extends interner.old interner.new }
    ensures leaned { OnOk result (AreLeaned interner.new leaned.new.made.items) }
{
    if !wanted.contains(&id) {
        return Ok(());
    }
    let Some(node) = interner.form(id) else {
        return Ok(());
    };
    let to = leaned_form(alloc, interner, chains, leaned, id, node)?;
    leaned.add(id, to)?;
    Ok(())
}

/// What a formula is refolded to, by its form.
fn leaned_form(
    alloc: Global,
    interner: &mut Interner,
    chains: &HashSet<FormulaId>,
    leaned: &Leaned,
    id: FormulaId,
    node: Node,
) -> Result<FormulaId, AllocError>
    requires there { IsThere interner.old id }
    requires is { formula_of interner.old id ≡ formula_of_node interner.old node }
    requires parts { HasPartsBelow (length interner.old) node }
    requires leaned { AreLeaned interner.old leaned.now.made.items }
    ensures kept { Extends interner.old interner.new }
    ensures leaned { IfOk result (IsLeaned interner.new id) }
{
    match node {
        Node::And(_, _) => leaned_conjunction(alloc, interner, chains, leaned, id),
        Node::Not(f) => leaned_negation(interner, leaned, id, f),
        Node::Ex2(t, f) => leaned_quantifier(interner, leaned, id, t, f),
        _ => Ok(id),
    }
}

/// What a conjunction is refolded to.
fn leaned_conjunction(
    alloc: Global,
    interner: &mut Interner,
    chains: &HashSet<FormulaId>,
    leaned: &Leaned,
    id: FormulaId,
) -> Result<FormulaId, AllocError>
    requires there { IsThere interner.old id }
    requires leaned { AreLeaned interner.old leaned.now.made.items }
    ensures kept { Extends interner.old interner.new }
    ensures leaned { IfOk result (IsLeaned interner.new id) }
{
    let conjuncts = conjuncts_of(alloc, interner, chains, id)?;
    let made = refolded(alloc, interner, leaned, id, conjuncts.as_slice())?;
    Ok(made)
}

/// What a negation is refolded to.
fn leaned_negation(
    interner: &mut Interner,
    leaned: &Leaned,
    id: FormulaId,
    f: FormulaId,
) -> Result<FormulaId, AllocError>
    requires there { IsThere interner.old id }
    requires inner { IsThere interner.old f }
    requires is { formula_of interner.old id ≡ Not (formula_of interner.old f) }
    requires leaned { AreLeaned interner.old leaned.now.made.items }
    ensures kept { Extends interner.old interner.new }
    ensures leaned { IfOk result (IsLeaned interner.new id) }
{
    let inner = leaned.to(f);
    let made = intern_form(interner, Node::Not(inner))?;
    Ok(made)
}

/// What a formula under a quantifier is refolded to.
fn leaned_quantifier(
    interner: &mut Interner,
    leaned: &Leaned,
    id: FormulaId,
    t: Track,
    f: FormulaId,
) -> Result<FormulaId, AllocError>
    requires there { IsThere interner.old id }
    requires inner { IsThere interner.old f }
    requires is { formula_of interner.old id ≡ Ex2 t (formula_of interner.old f) }
    requires leaned { AreLeaned interner.old leaned.now.made.items }
    ensures kept { Extends interner.old interner.new }
    ensures leaned { IfOk result (IsLeaned interner.new id) }
{
    let inner = leaned.to(f);
    let made = intern_form(interner, Node::Ex2(t, inner))?;
    Ok(made)
}
