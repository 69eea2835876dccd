//! What is still to be done for the automaton of a formula.

ghost use Rattle.std.specs.Prelude.{◌≡◌, OnOk};
ghost use Rattle.ws2s_decide.specs.Tasks.{tasks_for};

use bdd_walk::NoMemory;
use plain_data::Stack;
use ws2s_core::{FormulaId, Node, Track};

/// A task on the automata that wait.
#[derive(Clone, Copy, Debug)]
pub(crate) enum Task {
    /// The automaton of the formula is to wait.
    Visit(FormulaId),
    /// The last one is to be turned over.
    Negate,
    /// The last two are to be conjoined, which gives that of the formula.
    Conjoin(FormulaId),
    /// The track of the last one is to be dropped, which gives that of the formula.
    Quantify(Track, FormulaId),
}

/// Puts first what a formula that is no atom needs: visits of its parts, and then what makes it of them.
pub(crate) fn take_apart(id: FormulaId, node: Node, tasks: &mut Stack<Task>) -> Result<(), NoMemory>
    ensures { OnOk result (tasks.new ≡ tasks_for id node tasks.old) }
{
    match node {
        Node::And(f, h) => {
            tasks.push(Task::Conjoin(id))?;
            tasks.push(Task::Visit(h))?;
            tasks.push(Task::Visit(f))
        }
        Node::Not(f) => {
            tasks.push(Task::Negate)?;
            tasks.push(Task::Visit(f))
        }
        Node::Ex2(t, f) => {
            tasks.push(Task::Quantify(t, id))?;
            tasks.push(Task::Visit(f))
        }
        Node::Sub(_, _) | Node::Single(_) | Node::Succ0(_, _) | Node::Succ1(_, _) | Node::Root(_) =>
            Ok(()),
    }
}
