//! A formula rewritten in the empty context.

ghost use Rattle.std.specs.Prelude.{◌≡◌, ◌<◌, IfOk, Some, slice_get};
ghost use Rattle.ws2s_core.specs.declared.formula.Formula.{Formula};
ghost use Rattle.ws2s_core.specs.Nodes.{Extends, IsOnceEach};
ghost use Rattle.ws2s_core.specs.Satisfaction.{Same};
ghost use Rattle.ws2s_facts.specs.Conjuncts.{IsThere, formula_of};
ghost use Rattle.ws2s_facts.specs.Facts.{AreFacts};
ghost use Rattle.ws2s_context.specs.Going.{IsPlace, IsGoing};

use crate::choice::Choice;
use crate::fronting::left_first;
use crate::machine::{Machine, run};
use crate::rewritings::Rewritings;
use crate::task::{Place, Task};
use crate::uses::Uses;
use plain_data::Stack;
use std::alloc::{AllocError, Global};
use std::collections::HashSet;
use ws2s_core::{FormulaId, Interner, TrackList};
use ws2s_facts::Facts;
use ws2s_lean::lean_left;

/// The number of a formula with the same satisfying assignments, in which what holds around a part is conjoined inside it.
/// Definitions are conjoined as projections too: to their own tracks and those that are weighed.
///
/// # Errors
///
/// Want of memory.
pub fn in_context(
    alloc: Global,
    interner: &mut Interner,
    id: FormulaId,
    weigh: &TrackList,
) -> Result<FormulaId, AllocError>
    requires { (f : Formula) × (slice_get interner.old id.0 ≡ Some f) }
    ensures value { IfOk result (λ made. (f : Formula) → slice_get interner.old id.0 ≡ Some f →
        (g : Formula) × (slice_get interner.new made.0 ≡ Some g) × Same f g) }
    ensures kept { Extends interner.old interner.new }
    ensures once { IsOnceEach interner.new }
{
    let made = rewritten(alloc, interner, id, weigh);
    // Only for its clause `once`.
    let _ = interner.form(id);
    made
}

/// The same, with formulas by their places.
fn rewritten(
    alloc: Global,
    interner: &mut Interner,
    id: FormulaId,
    weigh: &TrackList,
) -> Result<FormulaId, AllocError>
    requires { IsThere interner.old id }
    ensures there { IfOk result (IsThere interner.new) }
    ensures same { IfOk result (λ made. Same (formula_of interner.old id) (formula_of interner.new made)) }
    ensures kept { Extends interner.old interner.new }
{
    let mut facts = Facts::of_parts(alloc, interner, id)?;
    let choice = Choice::of_formula(alloc, interner, &facts, id, weigh)?;
    let place = Place { context: None, id };
    let mut machine = first_machine(alloc, interner, place, choice)?;
    run(alloc, interner, &mut facts, &mut machine)?;
    let made = machine.rewritings.to(place);
    let folded = folded_left(alloc, interner, &mut facts, &machine, made)?;
    Ok(folded)
}

/// What was rewritten, its chains of conjunctions folded to the left, and what the left half of the whole says in front of the conjuncts of
/// the right one. Contexts and what stands beside them stay apart, since contexts are shared.
fn folded_left(
    alloc: Global,
    interner: &mut Interner,
    facts: &mut Facts,
    machine: &Machine,
    made: FormulaId,
) -> Result<FormulaId, AllocError>
    requires there { IsThere interner.old made }
    requires facts { AreFacts interner.old facts.old.facts.items }
    ensures there { IfOk result (IsThere interner.new) }
    ensures same { IfOk result (λ id. Same (formula_of interner.old made) (formula_of interner.new id)) }
    ensures kept { Extends interner.old interner.new }
{
    if !machine.choice.is_whole() {
        return Ok(made);
    }
    let fronted = left_first(alloc, interner, facts, made)?;
    let id = lean_left(alloc, interner, fronted, &machine.chains)?;
    Ok(id)
}

/// The machine that is to rewrite a formula.
fn first_machine(
    alloc: Global,
    interner: &Interner,
    place: Place,
    choice: Choice,
) -> Result<Machine, AllocError>
    requires { IsPlace interner.now place }
    ensures { IfOk result (λ machine. IsGoing interner.now machine.tasks machine.rewritings.made.items) }
{
    let mut tasks = Stack::new(alloc);
    tasks.push(Task::Visit(place))?;
    let rewritings = Rewritings::new(alloc);
    Ok(Machine {
        tasks,
        rewritings,
        choice,
        uses: Uses::new(alloc),
        chains: HashSet::new(alloc),
    })
}
