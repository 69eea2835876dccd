//! Formulas rewritten in their contexts, task by task.

ghost use Rattle.std.specs.Prelude.{◌≡◌, ◌<◌, ◌∷◌, length, List, OnOk};
ghost use Rattle.ws2s_core.specs.declared.formula.Formula.{Formula};
ghost use Rattle.ws2s_core.specs.Nodes.{Extends};
ghost use Rattle.ws2s_facts.specs.Facts.{AreFacts};
ghost use Rattle.ws2s_context.specs.Going.{IsPlace, IsSound, IsGoing};

use crate::choice::Choice;
use crate::making::{make_conjunction, make_negation, make_quantified};
use crate::rewritings::Rewritings;
use crate::task::Task;
use crate::uses::Uses;
use crate::visiting::{turn, visit};
use plain_data::Stack;
use std::alloc::{AllocError, Global};
use std::collections::HashSet;
use ws2s_core::{FormulaId, Interner};
use ws2s_facts::Facts;

/// What is still to be done, the next task on top, and what was rewritten.
#[derive(Drop)]
pub(crate) struct Machine {
    pub(crate) tasks: Stack<Task>,
    pub(crate) rewritings: Rewritings,
    pub(crate) choice: Choice,
    pub(crate) uses: Uses,
    /// Conjunctions whose right half was one before it was rewritten.
    pub(crate) chains: HashSet<FormulaId>,
}

/// Does a task.
fn step(
    alloc: Global,
    interner: &mut Interner,
    facts: &mut Facts,
    task: Task,
    machine: &mut Machine,
) -> Result<(), AllocError>
    requires facts { AreFacts interner.old facts.old.facts.items }
    requires going { IsGoing interner.old (task ∷ machine.old.tasks) machine.old.rewritings.made.items }
    ensures kept { Extends interner.old interner.new }
    ensures ok { OnOk result (IsGoing interner.new machine.new.tasks machine.new.rewritings.made.items) }
    ensures facts { OnOk result (AreFacts interner.new facts.new.facts.items) }
{
    match task {
        Task::Visit(place) => visit(alloc, interner, facts, place, machine),
        Task::Turn(place, left, right) => turn(alloc, interner, facts, place, left, right, machine),
        Task::Conjoin(place, left, right) => make_conjunction(
            alloc, interner, facts, place, left, right, machine,
        ),
        Task::Negate(place, inner) => make_negation(alloc, interner, facts, place, inner, machine),
        Task::Quantify(place, t, inner) => make_quantified(
            alloc, interner, facts, place, t, inner, machine,
        ),
    }
}

/// How many tasks are done at most.
const MANY_TASKS: u32 = 400_000;

/// Does all tasks, as far as they are many.
pub(crate) fn run(
    alloc: Global,
    interner: &mut Interner,
    facts: &mut Facts,
    machine: &mut Machine,
) -> Result<(), AllocError>
    requires facts { AreFacts interner.old facts.old.facts.items }
    requires going { IsGoing interner.old machine.old.tasks machine.old.rewritings.made.items }
    ensures kept { Extends interner.old interner.new }
    ensures ok { OnOk result (IsGoing interner.new machine.new.tasks machine.new.rewritings.made.items) }
    ensures facts { OnOk result (AreFacts interner.new facts.new.facts.items) }
{
    'tasks: for _ in 0..MANY_TASKS {
        let Some(task) = machine.tasks.pop() else {
            break 'tasks;
        };
        step(alloc, interner, facts, task, machine)?;
    }
    Ok(())
}
