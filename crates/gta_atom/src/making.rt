//! Atoms.

ghost use Rattle.std.specs.Prelude.{◌≡◌, ◌+◌, ◌<◌, ◌≤◌, ◌⊎◌, ℕ, Err, IfOk, OnErr, Some, length, slice_get};
ghost use Rattle.bdd_nodes.specs.declared.node_ref.NodeRef.{NodeRef};
ghost use Rattle.bdd_nodes.specs.Shelf.{IsShelf, IsValid, count_of, limit_of};
ghost use Rattle.bdd_nodes.specs.Changes.{Keeps, SameTables};
ghost use Rattle.gta_theory.specs.Guides.{IsSpace, left, right};
ghost use Rattle.gta_theory.specs.Numbered.{Below};
ghost use Rattle.ws2s_core.specs.Recognising.{IsMinimalOf};
ghost use Rattle.ws2s_theory.specs.Peaks.{HasMinimalSize};
ghost use Rattle.gta_core.specs.declared.build.SpacePart.{SpacePart};
ghost use Rattle.gta_core.specs.Auto.{states_of, automaton_of, IsAuto};
ghost use Rattle.gta_core.specs.Changes.{RegistersTable};
ghost use Rattle.gta_atom.specs.Atom.{IsAtom};
ghost use Rattle.gta_atom.specs.Children.{test_of};
ghost use Rattle.gta_atom.specs.Automata.{counts_of, numbered_automaton, are_held};
ghost use Rattle.gta_room.specs.Progress.{Adds, IsStuck, IsUnderSomewhere};
ghost use Rattle.gta_atom.specs.Cells.{cell_of, AreRoots, IsPartIn};

use crate::child_test::ChildTest;
use crate::nodes::Cell;
use crate::plan::{Plan, plan_of};
use bdd_nodes::{RefList, Shelf};
use bdd_walk::{NoMemory, Stop};
use gta_core::{Auto, BoolList, SpacePart, SpacePartList};
use plain_data::Items;
use std::alloc::Global;
use ws2s_core::{Formula, Guide};

/// The minimal automaton of an atom, in a table that it registers.
///
/// # Errors
///
/// `Limit` only where the shelf has too little room for the automaton's Size beside what stands there; want of memory.
/// What stood is then as it was, but for nodes under no table.
pub fn atom(alloc: Global, g: &Guide, f: &Formula, shelf: &mut Shelf) -> Result<Auto, Stop>
    requires { IsAtom f.now }

    // The result.
    ensures auto { IfOk result (IsAuto g.now shelf.new) }
    ensures minimal { IfOk result (λ auto. IsMinimalOf g.now (automaton_of shelf.new auto) (Below (states_of auto)) f.now) }
    ensures table { IfOk result (λ auto. RegistersTable shelf.old shelf.new auto.table) }
    ensures limit { result ≡ Err Stop.Limit → (n : ℕ) → HasMinimalSize g.now f.now n →
        limit_of shelf.old < count_of shelf.old + n }

    // What the call leaves, whatever it answers.
    ensures kept { Keeps shelf.old shelf.new }
    ensures room { (n : ℕ) → HasMinimalSize g.now f.now n → count_of shelf.new ≤ count_of shelf.old + n }
    ensures same_limit { limit_of shelf.new ≡ limit_of shelf.old }
    ensures err { OnErr result (SameTables shelf.old shelf.new) }
    ensures shelf { IsShelf shelf.new }
{
    // Only for their clauses `shelf` and `guide`.
    let _ = (shelf.count(), g.children(0));
    let plan = plan_of(f);
    let test = ChildTest::new(alloc, g)?;
    let accepting = held(alloc, plan, &test)?;
    let spaces = parts(alloc, g, plan, &test, shelf)?;
    let auto = Auto::build(alloc, g, spaces, accepting, shelf)?;
    Ok(auto)
}

/// For each state of space 0 whether the atom holds in it.
fn held(alloc: Global, plan: Plan, test: &ChildTest) -> Result<BoolList, NoMemory>
    ensures { IfOk result (λ accepting. accepting ≡ are_held plan (test_of test.now)) }
{
    let kept = plan.kept(test, 0);
    let mut accepting = Items::new(alloc);
    for state in 0..kept.count() {
        accepting.push(plan.form.holds(kept.known(state)))?;
    }
    Ok(accepting)
}

/// The parts of all spaces.
fn parts(
    alloc: Global,
    g: &Guide,
    plan: Plan,
    test: &ChildTest,
    shelf: &mut Shelf,
) -> Result<SpacePartList, Stop>
    requires { IsShelf shelf.old }
    ensures many { IfOk result (λ spaces. length spaces ≡ length g.now) }
    ensures parts { IfOk result (λ spaces. (s : ℕ) (part : SpacePart) → slice_get spaces s ≡ Some part →
        IsPartIn g.now plan (test_of test.now) shelf.new s part) }
    ensures adds { Adds (IsUnderSomewhere g.now (numbered_automaton g.now plan (test_of test.now)) (Below (counts_of plan (test_of test.now))))
        shelf.old shelf.new }
    ensures stuck { result ≡ Err Stop.Limit →
        IsStuck (IsUnderSomewhere g.now (numbered_automaton g.now plan (test_of test.now)) (Below (counts_of plan (test_of test.now)))) shelf.new }
{
    let mut spaces = Items::new(alloc);
    for space in 0..g.spaces() {
        let part = part_in(alloc, g, plan, test, space, shelf)?;
        spaces.push(part)?;
    }
    Ok(spaces)
}

/// The part of a space.
fn part_in(
    alloc: Global,
    g: &Guide,
    plan: Plan,
    test: &ChildTest,
    space: u32,
    shelf: &mut Shelf,
) -> Result<SpacePart, Stop>
    requires shelf { IsShelf shelf.old }
    requires inside { IsSpace g.now space }
    ensures part { IfOk result (IsPartIn g.now plan (test_of test.now) shelf.new space) }
    ensures adds { Adds (IsUnderSomewhere g.now (numbered_automaton g.now plan (test_of test.now)) (Below (counts_of plan (test_of test.now))))
        shelf.old shelf.new }
    ensures stuck { result ≡ Err Stop.Limit →
        IsStuck (IsUnderSomewhere g.now (numbered_automaton g.now plan (test_of test.now)) (Below (counts_of plan (test_of test.now)))) shelf.new }
{
    let (left, right) = g.children(space).unwrap_or((0, 0));
    let at_left = plan.kept(test, left);
    let at_right = plan.kept(test, right);
    let kept = plan.kept(test, space);
    let columns = at_right.count();
    let mut roots = RefList::new(alloc);
    for pair in 0..at_left.count() * columns {
        let cell = Cell {
            form: plan.form,
            first: plan.first,
            second: plan.second,
            kept,
            left: at_left.known(pair / columns),
            right: at_right.known(pair % columns),
        };
        let root = cell.root(shelf)?;
        roots.push(root)?;
    }
    Ok(SpacePart {
        states: kept.count(),
        initial: 0,
        roots,
    })
}
