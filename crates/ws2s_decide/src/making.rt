//! What is made of the automata that wait last.

ghost use Rattle.std.specs.Prelude.{◌≡◌, ◌<◌, [], ◌∷◌, List, Some, Err, OnOk, OnErr, slice_get};
ghost use Rattle.bdd_nodes.specs.Shelf.{limit_of};
ghost use Rattle.gta_theory.specs.Guides.{Spaces, IsGuide};
ghost use Rattle.ws2s_core.specs.declared.formula.Formula.{Formula};
ghost use Rattle.ws2s_decide.specs.declared.task.Task.TheVariants as task;
ghost use Rattle.gta_core.specs.Auto.{IsAuto};
ghost use Rattle.gta_keep.specs.Holding.{HoldsBeside, IsMinimalFor, TakesIn};
ghost use Rattle.ws2s_decide.specs.Going.{moment, Rests, IsGoing, Advances, KeepsTables, NeedsMore};

use crate::machine::Machine;
use crate::uses::{Uses, may_come};
use bdd_nodes::Shelf;
use bdd_walk::{NoMemory, Stop};
use gta_core::Auto;
use gta_keep::{Kept, conjoin, quantify};
use gta_product::complement;
use std::alloc::Global;
use ws2s_core::{FormulaId, Guide, Interner, Track};

/// The last automaton is turned over.
pub(crate) fn make_negation(
    g: &Guide,
    interner: &Interner,
    machine: &mut Machine,
    kept: &Kept,
    shelf: &mut Shelf,
) -> Result<(), Stop>
    requires guide { IsGuide g.now }
    requires going { IsGoing g.now interner.now (moment shelf.old (task.Negate ∷ machine.old.tasks) machine.old.automata kept.now) }
    ensures ok { OnOk result (Advances g.now interner.now (moment shelf.old (task.Negate ∷ machine.old.tasks) machine.old.automata kept.now)
        (moment shelf.new machine.new.tasks machine.new.automata kept.now)) }
    ensures err { OnErr result (Rests g.now interner.now shelf.new machine.new.automata kept.now) }
    ensures limit { result ≡ Err Stop.Limit →
        NeedsMore g.now interner.now (moment shelf.old (task.Negate ∷ machine.old.tasks) machine.old.automata kept.now) }
    ensures same_limit { limit_of shelf.new ≡ limit_of shelf.old }
{
    let auto = machine.automata.pop().unwrap();
    machine.automata.push(complement(auto), shelf)?;
    Ok(())
}

/// The last two are conjoined, which gives the automaton of the formula with the number.
pub(crate) fn make_conjunction(
    alloc: Global,
    g: &Guide,
    interner: &Interner,
    id: FormulaId,
    machine: &mut Machine,
    kept: &mut Kept,
    shelf: &mut Shelf,
) -> Result<(), Stop>
    requires guide { IsGuide g.now }
    requires going { IsGoing g.now interner.now (moment shelf.old (task.Conjoin id ∷ machine.old.tasks) machine.old.automata kept.old) }
    ensures ok { OnOk result (Advances g.now interner.now (moment shelf.old (task.Conjoin id ∷ machine.old.tasks) machine.old.automata kept.old)
        (moment shelf.new machine.new.tasks machine.new.automata kept.new)) }
    ensures err { OnErr result (Rests g.now interner.now shelf.new machine.new.automata kept.new) }
    ensures limit { result ≡ Err Stop.Limit →
        NeedsMore g.now interner.now (moment shelf.old (task.Conjoin id ∷ machine.old.tasks) machine.old.automata kept.old) }
    ensures same_limit { limit_of shelf.new ≡ limit_of shelf.old }
{
    let b = machine.automata.pop().unwrap();
    let a = machine.automata.pop().unwrap();
    let auto = conjoin(alloc, g, a, b, kept, shelf)?;
    come(alloc, id, auto, machine, kept, shelf)?;
    Ok(())
}

/// The track of the last one is dropped, which gives the automaton of the formula with the number.
pub(crate) fn make_quantified(
    alloc: Global,
    g: &Guide,
    interner: &Interner,
    t: Track,
    id: FormulaId,
    machine: &mut Machine,
    kept: &mut Kept,
    shelf: &mut Shelf,
) -> Result<(), Stop>
    requires guide { IsGuide g.now }
    requires going { IsGoing g.now interner.now (moment shelf.old (task.Quantify t id ∷ machine.old.tasks) machine.old.automata kept.old) }
    ensures ok { OnOk result (Advances g.now interner.now (moment shelf.old (task.Quantify t id ∷ machine.old.tasks) machine.old.automata kept.old)
        (moment shelf.new machine.new.tasks machine.new.automata kept.new)) }
    ensures err { OnErr result (Rests g.now interner.now shelf.new machine.new.automata kept.new) }
    ensures limit { result ≡ Err Stop.Limit →
        NeedsMore g.now interner.now (moment shelf.old (task.Quantify t id ∷ machine.old.tasks) machine.old.automata kept.old) }
    ensures same_limit { limit_of shelf.new ≡ limit_of shelf.old }
{
    let a = machine.automata.pop().unwrap();
    let auto = quantify(alloc, g, a, t, kept, shelf)?;
    come(alloc, id, auto, machine, kept, shelf)?;
    Ok(())
}

/// The automaton of the formula with the number comes to wait, and a copy of it is kept where it may come again.
///
/// # Errors
///
/// Want of memory; the automaton is released where it can't wait.
fn come(
    alloc: Global,
    id: FormulaId,
    auto: Auto,
    machine: &mut Machine,
    kept: &mut Kept,
    shelf: &mut Shelf,
) -> Result<(), NoMemory>
    requires { (g : Spaces) × (formulas : List Formula) × Rests g formulas shelf.old (auto ∷ machine.old.automata) kept.old }
    ensures ok { OnOk result (machine.new.automata ≡ auto ∷ machine.old.automata) }
    ensures tables { OnOk result ((g : Spaces) (formulas : List Formula) → Rests g formulas shelf.old (auto ∷ machine.old.automata) kept.old →
        KeepsTables shelf.old shelf.new (auto ∷ machine.old.automata)) }
    ensures rests { (g : Spaces) (formulas : List Formula) (f : Formula) → Rests g formulas shelf.old (auto ∷ machine.old.automata) kept.old →
        IsMinimalFor g shelf.old auto f → slice_get formulas id.0 ≡ Some f →
        Rests g formulas shelf.new machine.new.automata kept.new }
    ensures tasks { machine.new.tasks ≡ machine.old.tasks }
    ensures same_limit { limit_of shelf.new ≡ limit_of shelf.old }
{
    let keeping = keep(alloc, id, &auto, &machine.uses, kept, shelf);
    machine.automata.push(auto, shelf)?;
    keeping
}

/// A copy of the automaton is kept for the formula where it may come again.
///
/// # Errors
///
/// Want of memory. What was kept is kept.
fn keep(
    alloc: Global,
    id: FormulaId,
    auto: &Auto,
    uses: &Option<Uses>,
    kept: &mut Kept,
    shelf: &mut Shelf,
) -> Result<(), NoMemory>
    requires { (g : Spaces) × HoldsBeside g shelf.old (auto.now ∷ []) kept.old }
    ensures { (g : Spaces) → IsAuto g shelf.old auto.now → TakesIn g shelf.old shelf.new id auto.now kept.old kept.new }
{
    if may_come(id, uses) {
        kept.keep(alloc, id, auto, shelf)
    } else {
        Ok(())
    }
}
