//! Conjunctions taken apart.

ghost use Rattle.std.specs.Prelude.{All, List, [], ◌∷◌, ◌<◌, IfOk, IfSome, OnOk};
ghost use Rattle.ws2s_core.specs.declared.formula.Formula.{Formula};
ghost use Rattle.ws2s_facts.specs.Conjuncts.{IsThere, IsConjunct, AreConjuncts, formula_of};

use std::alloc::{AllocError, Global};
use ws2s_core::{FormulaId, Interner, Node, Track};

/// How many conjunctions and conjuncts are looked at for conjuncts, at most.
const MANY_PARTS: u32 = 2_048;

/// How many parts are looked at for a step, at most.
const MANY_LOOKS: u32 = 512;

/// The conjuncts of a formula from the left, as far as they are looked for.
pub(crate) fn conjuncts_of(
    alloc: Global,
    interner: &Interner,
    id: FormulaId,
) -> Result<Vec<FormulaId>, AllocError>
    requires { IsThere interner.now id }
    ensures { IfOk result (λ conjuncts. All (IsConjunct interner.now (formula_of interner.now id ∷ [])) conjuncts.items) }
{
    let mut waiting = Vec::new(alloc);
    waiting.push(id)?;
    let mut found = Vec::new(alloc);
    'looks: for _ in 0..MANY_PARTS {
        let Some(next) = waiting.pop() else {
            break 'looks;
        };
        look(interner, next, &mut waiting, &mut found)?;
    }
    Ok(found)
}

/// The halves of a conjunction come to wait; what is no conjunction is found.
fn look(
    interner: &Interner,
    next: FormulaId,
    waiting: &mut Vec<FormulaId>,
    found: &mut Vec<FormulaId>,
) -> Result<(), AllocError>
    ensures { OnOk result ((context : List Formula) → IsConjunct interner.now context next →
        AreConjuncts interner.now context waiting.old.items found.old.items →
        AreConjuncts interner.now context waiting.new.items found.new.items) }
{
    let Some(halves) = halves_of(interner, next) else {
        found.push(next)?;
        return Ok(());
    };
    waiting.push(halves.1)?;
    waiting.push(halves.0)?;
    Ok(())
}

/// The halves of a conjunction. `None` where the formula is none.
fn halves_of(interner: &Interner, id: FormulaId) -> Option<(FormulaId, FormulaId)>
    ensures { IfSome result (λ halves. (context : List Formula) → IsConjunct interner.now context id →
        IsConjunct interner.now context halves.0 × IsConjunct interner.now context halves.1) }
{
    let Some(node) = interner.form(id) else {
        return None;
    };
    match node {
        Node::And(f, g) => Some((f, g)),
        Node::Sub(_, _)
        | Node::Single(_)
        | Node::Succ0(_, _)
        | Node::Succ1(_, _)
        | Node::Root(_)
        | Node::Not(_)
        | Node::Ex2(_, _) => None,
    }
}

/// Whether the formula says of two positions that one is a step below the other, beside other conjuncts and under
/// quantifiers, as far as it is looked for.
pub(crate) fn has_step(
    alloc: Global,
    interner: &Interner,
    id: FormulaId,
) -> Result<bool, AllocError> {
    let mut waiting = Vec::new(alloc);
    waiting.push(id)?;
    for _ in 0..MANY_LOOKS {
        let Some(next) = waiting.pop() else {
            return Ok(false);
        };
        if look_for_step(interner, next, &mut waiting)? {
            return Ok(true);
        }
    }
    Ok(false)
}

/// Whether the formula is a step. What a conjunction or a quantifier has comes to wait.
fn look_for_step(
    interner: &Interner,
    next: FormulaId,
    waiting: &mut Vec<FormulaId>,
) -> Result<bool, AllocError> {
    match interner.form(next) {
        Some(Node::Succ0(_, _) | Node::Succ1(_, _)) => return Ok(true),
        Some(Node::And(f, g)) => {
            waiting.push(g)?;
            waiting.push(f)?;
        }
        Some(Node::Ex2(_, f)) => waiting.push(f)?,
        Some(Node::Sub(_, _) | Node::Single(_) | Node::Root(_) | Node::Not(_)) | None => (),
    }
    Ok(false)
}

/// The track of which the formula says that it has one position. `None` where it says something else.
pub(crate) fn single_of(interner: &Interner, id: FormulaId) -> Option<Track> {
    match interner.form(id) {
        Some(Node::Single(x)) => Some(x),
        _ => None,
    }
}

/// Whether the formula says, beside other conjuncts, that the track has one position, as far as it is looked for.
pub(crate) fn is_position(
    alloc: Global,
    interner: &Interner,
    t: Track,
    id: FormulaId,
) -> Result<bool, AllocError>
    requires { IsThere interner.now id }
{
    let conjuncts = conjuncts_of(alloc, interner, id)?;
    Ok(
        conjuncts
            .iter()
            .any(|conjunct| single_of(interner, *conjunct) == Some(t)),
    )
}

/// Whether the formula is a conjunction.
pub(crate) fn is_conjunction(interner: &Interner, id: FormulaId) -> bool {
    matches!(interner.form(id), Some(Node::And(_, _)))
}

/// Whether the formula is an atom.
pub(crate) fn is_atom(interner: &Interner, id: FormulaId) -> bool {
    !matches!(
        interner.form(id),
        Some(Node::And(_, _) | Node::Not(_) | Node::Ex2(_, _))
    )
}
