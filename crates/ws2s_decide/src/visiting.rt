//! Visits: the automaton of a formula is found, built, or taken apart into those of its parts.

ghost use Rattle.std.specs.Prelude.{◌≡◌, ◌<◌, [], ◌∷◌, List, None, Some, Err, IfOk, IfSome, OnOk, OnErr, MatchOption, option_map, slice_get};
ghost use Rattle.bdd_nodes.specs.Shelf.{limit_of};
ghost use Rattle.gta_theory.specs.Guides.{Spaces, IsGuide};
ghost use Rattle.gta_atom.specs.Atom.{IsAtom};
ghost use Rattle.ws2s_core.specs.declared.formula.Formula.{Formula};
ghost use Rattle.ws2s_core.specs.Nodes.{formula_of_node};
ghost use Rattle.ws2s_decide.specs.declared.task.Task.TheVariants as task;
ghost use Rattle.gta_keep.specs.Holding.{HoldsBeside, IsCopyOfKept, IsNotKept, Passes, as_list};
ghost use Rattle.ws2s_decide.specs.Tasks.{IsCompound};
ghost use Rattle.ws2s_decide.specs.Going.{moment, Rests, IsGoing, Advances, NeedsMore};

use crate::machine::Machine;
use crate::task::take_apart;
use crate::uses::Uses;
use bdd_nodes::Shelf;
use bdd_walk::{NoMemory, Stop};
use gta_core::Auto;
use gta_keep::{Kept, build_atom};
use std::alloc::Global;
use ws2s_core::{Formula, FormulaId, Guide, Interner, Node};

/// The automaton of the formula comes to wait, or what it needs comes first of what is still to be done.
pub(crate) fn visit(
    alloc: Global,
    g: &Guide,
    interner: &Interner,
    id: FormulaId,
    machine: &mut Machine,
    kept: &mut Kept,
    shelf: &mut Shelf,
) -> Result<(), Stop>
    requires guide { IsGuide g.now }
    requires going { IsGoing g.now interner.now (moment shelf.old (task.Visit id ∷ machine.old.tasks) machine.old.automata kept.old) }
    ensures ok { OnOk result (Advances g.now interner.now (moment shelf.old (task.Visit id ∷ machine.old.tasks) machine.old.automata kept.old)
        (moment shelf.new machine.new.tasks machine.new.automata kept.new)) }
    ensures err { OnErr result (Rests g.now interner.now shelf.new machine.new.automata kept.new) }
    ensures limit { result ≡ Err Stop.Limit →
        NeedsMore g.now interner.now (moment shelf.old (task.Visit id ∷ machine.old.tasks) machine.old.automata kept.old) }
    ensures same_limit { limit_of shelf.new ≡ limit_of shelf.old }
{
    match find(alloc, id, &mut machine.uses, kept, shelf)? {
        Some(copy) => Ok(machine.automata.push(copy, shelf)?),
        None => visit_anew(alloc, g, interner, id, machine, kept, shelf),
    }
}

/// The automaton that is kept for the formula: a copy where it may come again, else that one itself. `None` exactly where none
/// is kept.
///
/// # Errors
///
/// Want of memory.
fn find(
    alloc: Global,
    id: FormulaId,
    uses: &mut Option<Uses>,
    kept: &mut Kept,
    shelf: &mut Shelf,
) -> Result<Option<Auto>, NoMemory>
    requires { (g : Spaces) × HoldsBeside g shelf.old [] kept.old }
    ensures found { IfOk result (λ found. MatchOption found (IsNotKept id kept.old) (IsCopyOfKept shelf.old shelf.new id kept.old)) }
    ensures ok { IfOk result (λ found. (g : Spaces) → Passes g shelf.old shelf.new [] (as_list found) kept.old kept.new) }
    ensures err { OnErr result ((g : Spaces) → Passes g shelf.old shelf.new [] [] kept.old kept.new) }
{
    if is_last(id, uses) {
        Ok(kept.take(id))
    } else {
        kept.copy_of(alloc, id, shelf)
    }
}

/// The automaton of the formula is asked for; whether it isn't afterwards.
fn is_last(id: FormulaId, uses: &mut Option<Uses>) -> bool {
    match uses {
        Some(uses) => {
            uses.ask(id);
            !uses.may_come(id)
        }
        None => false,
    }
}

/// What [`visit`] does where no automaton is kept for the formula.
fn visit_anew(
    alloc: Global,
    g: &Guide,
    interner: &Interner,
    id: FormulaId,
    machine: &mut Machine,
    kept: &mut Kept,
    shelf: &mut Shelf,
) -> Result<(), Stop>
    requires guide { IsGuide g.now }
    requires going { IsGoing g.now interner.now (moment shelf.old (task.Visit id ∷ machine.old.tasks) machine.old.automata kept.old) }
    ensures ok { OnOk result (Advances g.now interner.now (moment shelf.old (task.Visit id ∷ machine.old.tasks) machine.old.automata kept.old)
        (moment shelf.new machine.new.tasks machine.new.automata kept.new)) }
    ensures err { OnErr result (Rests g.now interner.now shelf.new machine.new.automata kept.new) }
    ensures limit { result ≡ Err Stop.Limit →
        NeedsMore g.now interner.now (moment shelf.old (task.Visit id ∷ machine.old.tasks) machine.old.automata kept.old) }
    ensures same_limit { limit_of shelf.new ≡ limit_of shelf.old }
{
    let node = interner.form(id).unwrap();
    match atom_of(node) {
        Some(atom) => visit_atom(alloc, g, interner, id, &atom, machine, kept, shelf),
        None => Ok(take_apart(id, node, &mut machine.tasks)?),
    }
}

/// The automaton of an atom comes to wait.
fn visit_atom(
    alloc: Global,
    g: &Guide,
    interner: &Interner,
    id: FormulaId,
    atom: &Formula,
    machine: &mut Machine,
    kept: &mut Kept,
    shelf: &mut Shelf,
) -> Result<(), Stop>
    requires guide { IsGuide g.now }
    requires atom { IsAtom atom.now }
    requires there { slice_get interner.now id.0 ≡ Some atom.now }
    requires going { IsGoing g.now interner.now (moment shelf.old (task.Visit id ∷ machine.old.tasks) machine.old.automata kept.old) }
    ensures ok { OnOk result (Advances g.now interner.now (moment shelf.old (task.Visit id ∷ machine.old.tasks) machine.old.automata kept.old)
        (moment shelf.new machine.new.tasks machine.new.automata kept.new)) }
    ensures err { OnErr result (Rests g.now interner.now shelf.new machine.new.automata kept.new) }
    ensures limit { result ≡ Err Stop.Limit →
        NeedsMore g.now interner.now (moment shelf.old (task.Visit id ∷ machine.old.tasks) machine.old.automata kept.old) }
    ensures same_limit { limit_of shelf.new ≡ limit_of shelf.old }
{
    let auto = build_atom(alloc, g, atom, kept, shelf)?;
    machine.automata.push(auto, shelf)?;
    Ok(())
}

/// The atom of a node; `None` exactly where its formula is none.
fn atom_of(node: Node) -> Option<Formula>
    ensures atom { IfSome result IsAtom }
    ensures same { IfSome result (λ atom. (formulas : List Formula) → formula_of_node formulas node ≡ atom) }
    ensures none { result ≡ None → IsCompound node }
{
    match node {
        Node::Sub(x, y) => Some(Formula::Sub(x, y)),
        Node::Single(x) => Some(Formula::Single(x)),
        Node::Succ0(x, y) => Some(Formula::Succ0(x, y)),
        Node::Succ1(x, y) => Some(Formula::Succ1(x, y)),
        Node::Root(x) => Some(Formula::Root(x)),
        Node::And(_, _) | Node::Not(_) | Node::Ex2(_, _) => None,
    }
}
