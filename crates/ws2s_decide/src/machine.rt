//! The minimal automaton of a formula, task by task.

ghost use Rattle.std.specs.Prelude.{◌≡◌, ◌<◌, ℕ, List, [], ◌∷◌, Some, Err, IsTrue, IfOk, OnOk, OnErr, slice_get};
ghost use Rattle.bdd_nodes.specs.Shelf.{limit_of};
ghost use Rattle.gta_theory.specs.Guides.{IsGuide};
ghost use Rattle.ws2s_core.specs.declared.formula.Formula.{Formula};
ghost use Rattle.ws2s_theory.specs.Peaks.{HasPeak};
ghost use Rattle.ws2s_decide.specs.declared.task.Task.TheVariants as task;
ghost use Rattle.gta_keep.specs.Holding.{IsMinimalFor};
ghost use Rattle.ws2s_decide.specs.Counting.{ArePast};
ghost use Rattle.ws2s_decide.specs.Going.{moment, Rests, IsGoing, Advances, EndsWith, NeedsMore};

use crate::making::{make_conjunction, make_negation, make_quantified};
use crate::task::Task;
use crate::uses::Uses;
use crate::visiting::visit;
use crate::waiting::Waiting;
use crate::way::Way;
use bdd_nodes::Shelf;
use bdd_walk::{NoMemory, Stop};
use gta_core::Auto;
use gta_keep::Kept;
use plain_data::Stack;
use std::alloc::Global;
use ws2s_core::{FormulaId, Guide, Interner};

/// How many places the automata that wait may have together, for each node that the shelf may have, where all tasks are tried.
const PLACES_A_NODE: u64 = 16;

/// What is still to be done, the next task on top, and the automata that wait for it.
#[derive(Drop)]
pub(crate) struct Machine {
    pub(crate) tasks: Stack<Task>,
    pub(crate) automata: Waiting,
    /// How often formulas still come, where no other formula is decided afterwards.
    pub(crate) uses: Option<Uses>,
}

/// Does a task.
fn step(
    alloc: Global,
    g: &Guide,
    interner: &Interner,
    task: Task,
    machine: &mut Machine,
    kept: &mut Kept,
    shelf: &mut Shelf,
) -> Result<(), Stop>
    requires guide { IsGuide g.now }
    requires going { IsGoing g.now interner.now (moment shelf.old (task ∷ machine.old.tasks) machine.old.automata kept.old) }
    ensures ok { OnOk result (Advances g.now interner.now (moment shelf.old (task ∷ machine.old.tasks) machine.old.automata kept.old)
        (moment shelf.new machine.new.tasks machine.new.automata kept.new)) }
    ensures err { OnErr result (Rests g.now interner.now shelf.new machine.new.automata kept.new) }
    ensures limit { result ≡ Err Stop.Limit →
        NeedsMore g.now interner.now (moment shelf.old (task ∷ machine.old.tasks) machine.old.automata kept.old) }
    ensures same_limit { limit_of shelf.new ≡ limit_of shelf.old }
{
    match task {
        Task::Visit(id) => visit(alloc, g, interner, id, machine, kept, shelf),
        Task::Negate => make_negation(g, interner, machine, kept, shelf),
        Task::Conjoin(id) => make_conjunction(alloc, g, interner, id, machine, kept, shelf),
        Task::Quantify(t, id) => make_quantified(alloc, g, interner, t, id, machine, kept, shelf),
    }
}

/// Whether a limit is answered: the automata that wait have more pairs of child states than there may be nodes. The way to the
/// end goes on even then, unless they have too many places, so that what waits has a bound.
fn gives_up(way: Way, automata: &Waiting, limit: u32) -> bool
    ensures { IsTrue result → ArePast automata.now limit }
{
    let limit = u64::from(limit);
    automata.pairs() > limit
        && (way.stops_early || automata.places() > limit.saturating_mul(PLACES_A_NODE))
}

/// Does all tasks, unless the automata that wait become too large for the shelf's limit: then a limit is answered.
fn run(
    alloc: Global,
    g: &Guide,
    interner: &Interner,
    way: Way,
    machine: &mut Machine,
    kept: &mut Kept,
    shelf: &mut Shelf,
) -> Result<(), Stop>
    requires guide { IsGuide g.now }
    requires going { IsGoing g.now interner.now (moment shelf.old machine.old.tasks machine.old.automata kept.old) }
    ensures ok { OnOk result (EndsWith g.now interner.now (moment shelf.old machine.old.tasks machine.old.automata kept.old)
        (moment shelf.new machine.new.tasks machine.new.automata kept.new)) }
    ensures err { OnErr result (Rests g.now interner.now shelf.new machine.new.automata kept.new) }
    ensures limit { result ≡ Err Stop.Limit →
        NeedsMore g.now interner.now (moment shelf.old machine.old.tasks machine.old.automata kept.old) }
    ensures same_limit { limit_of shelf.new ≡ limit_of shelf.old }
{
    while let Some(task) = machine.tasks.pop() {
        step(alloc, g, interner, task, machine, kept, shelf)?;
        if gives_up(way, &machine.automata, shelf.limit()) {
            return Err(Stop::Limit);
        }
        kept.sweep(shelf);
    }
    Ok(())
}

/// The minimal automaton of the formula with the number.
///
/// # Errors
///
/// `Limit` only where the formula's Peak exceeds the shelf's limit; want of memory.
pub(crate) fn automaton_of(
    alloc: Global,
    g: &Guide,
    interner: &Interner,
    id: FormulaId,
    way: Way,
    kept: &mut Kept,
    shelf: &mut Shelf,
) -> Result<Auto, Stop>
    requires there { (f : Formula) × (slice_get interner.now id.0 ≡ Some f) }
    requires rests { Rests g.now interner.now shelf.old [] kept.old }
    ensures ok { IfOk result (λ auto. Rests g.now interner.now shelf.new (auto ∷ []) kept.new) }
    ensures minimal { IfOk result (λ auto. (f : Formula) → slice_get interner.now id.0 ≡ Some f → IsMinimalFor g.now shelf.new auto f) }
    ensures err { OnErr result (Rests g.now interner.now shelf.new [] kept.new) }
    ensures limit { result ≡ Err Stop.Limit → (f : Formula) (p : ℕ) → slice_get interner.now id.0 ≡ Some f → HasPeak g.now f p →
        limit_of shelf.old < p }
    ensures same_limit { limit_of shelf.new ≡ limit_of shelf.old }
    ensures guide { IsGuide g.now }
{
    // Only for its clause `guide`.
    let _ = g.spaces();
    let mut machine = Machine {
        tasks: Stack::new(alloc),
        automata: Waiting::new(alloc),
        uses: uses_of(alloc, interner, id, way)?,
    };
    machine.tasks.push(Task::Visit(id))?;
    let ended = run(alloc, g, interner, way, &mut machine, kept, shelf);
    let last = match ended {
        Ok(()) => Ok(machine.automata.pop().unwrap()),
        Err(stop) => {
            machine.automata.release_all(shelf);
            Err(stop)
        }
    };
    drop(machine);
    last
}

/// How often formulas come on the way to the automaton of the formula, where no other is decided afterwards.
fn uses_of(
    alloc: Global,
    interner: &Interner,
    id: FormulaId,
    way: Way,
) -> Result<Option<Uses>, NoMemory> {
    if way.once {
        Ok(Some(Uses::new(alloc, interner, id)?))
    } else {
        Ok(None)
    }
}
