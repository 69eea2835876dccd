//! Minimisation.

ghost use Rattle.std.specs.Prelude.{◌≡◌, ◌+◌, ◌<◌, ◌≤◌, ◌↔◌, ℕ, Err, length, IfOk, OnErr, slice_index_or, map, false};
ghost use Rattle.bdd_nodes.specs.Shelf.{IsShelf, count_of, limit_of};
ghost use Rattle.bdd_nodes.specs.Changes.{Keeps, SameTables};
ghost use Rattle.gta_theory.specs.Assignments.{Assignment};
ghost use Rattle.gta_theory.specs.Automata.{Accepts};
ghost use Rattle.gta_theory.specs.Minimal.{IsMinimal};
ghost use Rattle.gta_theory.specs.Numbered.{Below};
ghost use Rattle.gta_core.specs.Auto.{states_of, automaton_of, IsAuto};
ghost use Rattle.gta_core.specs.Changes.{RegistersTable};
ghost use Rattle.gta_room.specs.Progress.{Adds, IsStuck};
ghost use Rattle.gta_reach.specs.Form.{guide_of, IsForm};
ghost use Rattle.gta_refine.specs.Refined.{IsRefined};
ghost use Rattle.gta_minimise.specs.Quotient.{IsUnderClasses, IsPutBehind, AreQuotientSpaces};
ghost use Rattle.gta_minimise.specs.Minimised.{HasMinimisedSize};

use crate::quotient::{QuotientSpace, quotient_space};
use bdd_nodes::{RefList, Shelf};
use bdd_walk::{NoMemory, Stop};
use gta_core::{Auto, BoolList, Part};
use gta_form::form_of;
use gta_reach::Form;
use gta_refine::{SpaceClasses, refine};
use plain_data::Items;
use std::alloc::{AllocError, Global};
use ws2s_core::Guide;

/// The minimal automaton that accepts the same: its states are the classes of reached states that can't be told apart.
///
/// # Errors
///
/// `Limit` only where the nodes at the call and the Size of the result are more than the limit; want of memory. After a
/// stop no table is left.
pub fn minimise(alloc: Global, g: &Guide, a: &Auto, shelf: &mut Shelf) -> Result<Auto, Stop>
    requires { IsAuto g.now shelf.old a.now }

    // The result.
    ensures auto { IfOk result (IsAuto g.now shelf.new) }
    ensures accepts { IfOk result (λ m. (assignment : Assignment) → Accepts g.now (automaton_of shelf.new m) assignment
        ↔ Accepts g.now (automaton_of shelf.old a.now) assignment) }
    ensures minimal { IfOk result (λ m. IsMinimal g.now (automaton_of shelf.new m) (Below (states_of m))) }
    ensures table { IfOk result (λ m. RegistersTable shelf.old shelf.new m.table) }
    ensures limit { result ≡ Err Stop.Limit → (n : ℕ) → HasMinimisedSize g.now (automaton_of shelf.old a.now) n →
        limit_of shelf.old < count_of shelf.old + n }

    // What the call leaves, whatever it answers.
    ensures kept { Keeps shelf.old shelf.new }
    ensures room { (n : ℕ) → HasMinimisedSize g.now (automaton_of shelf.old a.now) n →
        count_of shelf.new ≤ count_of shelf.old + n }
    ensures same_limit { limit_of shelf.new ≡ limit_of shelf.old }
    ensures tables { OnErr result (SameTables shelf.old shelf.new) }
    ensures shelf { IsShelf shelf.new }
{
    // Only for its clause `shelf`.
    let _ = shelf.count();
    let form = form_of(alloc, g, a, shelf)?;
    let classes = refine(alloc, &form)?;
    let table = quotient_spaces(alloc, g, &form, classes.as_slice(), shelf)?;
    let representatives = classes.as_slice()[0].representatives.as_slice();
    let accepting = accepting_classes(alloc, form.accepting.as_slice(), representatives)?;
    let minimal = Auto::from_parts(table.parts, accepting, table.roots, shelf)?;
    Ok(minimal)
}

/// The parts of all spaces of an automaton, and the roots of its table.
#[derive(Drop)]
struct QuotientTable {
    parts: Items<Part>,
    roots: RefList,
}

/// The parts of all spaces of the automaton of classes.
fn quotient_spaces(
    alloc: Global,
    g: &Guide,
    form: &Form,
    classes: &[SpaceClasses],
    shelf: &mut Shelf,
) -> Result<QuotientTable, Stop>
    requires shelf { IsShelf shelf.old }
    requires form { IsForm form.now }
    requires guide { guide_of form.now ≡ g.now }
    requires refined { IsRefined form.now classes.now }
    ensures parts { IfOk result (λ made. AreQuotientSpaces shelf.new form.now classes.now made.parts made.roots (length g.now)) }
    ensures adds { Adds (IsUnderClasses form.now classes.now) shelf.old shelf.new }
    ensures stuck { result ≡ Err Stop.Limit → IsStuck (IsUnderClasses form.now classes.now) shelf.new }
{
    let mut parts = Items::new(alloc);
    let mut roots = RefList::new(alloc);
    for space in 0..g.spaces() {
        let made = quotient_space(alloc, form, space, classes, shelf)?;
        let part = put_behind(made, &mut roots)?;
        parts.push(part)?;
    }
    Ok(QuotientTable { parts, roots })
}

/// The part of a space, with its roots behind those of the spaces before.
fn put_behind(space: QuotientSpace, roots: &mut RefList) -> Result<Part, AllocError>
    ensures { IfOk result (IsPutBehind roots.old space.roots roots.new space.part) }
{
    if roots.len() > u32::MAX as usize {
        return Err(AllocError);
    }
    let first = roots.len() as u32;
    let QuotientSpace {
        mut part,
        roots: own,
    } = space;
    part.first = first;
    roots.append(own)?;
    Ok(part)
}

/// For each class of space 0 whether its states are accepting.
fn accepting_classes(
    alloc: Global,
    accepting: &[bool],
    representatives: &[u32],
) -> Result<BoolList, NoMemory>
    ensures { IfOk result (λ flags. flags ≡ map (λ state. slice_index_or accepting.now state false) representatives.now) }
{
    let mut flags = Items::from_vec(Vec::with_capacity(alloc, representatives.len())?);
    for state in representatives {
        flags.push(accepting.get(*state as usize).copied().unwrap_or(false))?;
    }
    Ok(flags)
}
