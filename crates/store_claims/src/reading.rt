//! Formulas that are read on trees, by automata.

ghost use Rattle.std.specs.Prelude.{◌↔◌, IsTrue, IfOk};
ghost use Rattle.ws2s_core.specs.LabelTrees.{assignment_of};
ghost use Rattle.ws2s_core.specs.Satisfaction.{WSat};

use bdd_nodes::Shelf;
use bdd_walk::Stop;
use gta_core::{accepts, release};
use std::alloc::Global;
use ws2s_core::{Formula, Guide, LabelTree};
use ws2s_decide::automaton;

/// How many nodes the automata on the way to that of a claim may have.
const MOST_NODES: u32 = 2_000_000;

/// Whether the tree satisfies the formula: its minimal automaton under the guide reads the tree. Time and memory alone depend on the guide.
///
/// # Errors
///
/// `Limit` where the automata on the way have too many nodes; want of memory, also where a projection has no room for its sets.
pub(crate) fn satisfies(
    alloc: Global,
    g: &Guide,
    formula: &Formula,
    tree: &LabelTree,
) -> Result<bool, Stop>
    ensures { IfOk result (λ answer. IsTrue answer ↔ WSat formula.now (assignment_of tree.now)) }
{
    let mut shelf = Shelf::open(alloc, MOST_NODES)?;
    let auto = automaton(alloc, formula, g, &mut shelf)?;
    let answer = accepts(alloc, &auto, &shelf, tree)?;
    release(auto, &mut shelf);
    Ok(answer)
}
