//! The loop that builds a formula's reduction, however deep it is.

ghost use Rattle.std.specs.Prelude.{◌≡◌, ℕ, ◌+◌, ◌<◌, ◌≤◌, List, [], ◌∷◌, ◌++◌, Some, IsSome, IfOk, OnOk, length, map, reverse, drop, take, slice_get};
ghost use Rattle.ws2s_core.specs.declared.formula.Formula.{Formula};
ghost use Rattle.ws2s_syntax.specs.declared.declaration.Predicate.{Predicate};
ghost use Rattle.ws2s_syntax.specs.declared.formula.Atom.{Atom};
ghost use Rattle.ws2s_syntax.specs.declared.name.Argument.{Argument};
ghost use Rattle.ws2s_syntax.specs.Sentences.{sentence_of};
ghost use Rattle.ws2s_reduce.specs.Reducing.{is_at, used, reduced, atom_at, no_reductions, reductions_from};
ghost use Rattle.ws2s_reduce.specs.Building.{to_apply, step_of, steps_of, applied, finished, reductions_to, works_to, atom_work, formula_work};
ghost use Rattle.ws2s_reduce.specs.Building.{step_work, steps_work};
ghost use Rattle.ws2s_reduce.specs.Machines.{IsPassed, IsBuilt};
ghost use Rattle.std.specs.Option.{option_copied};

use crate::forms::{joined, wrapped};
use crate::task::{Op, Place, Task};
use crate::tasks::{push_build, push_chain, push_quantified, push_then};
use crate::term::{in_at, is_at, plain_name, same_at, track_of};
use std::alloc::{AllocError, Global};
use ws2s_core::{Formula, Track};
use ws2s_forms::{bound, empty_at, equal, false_at, imp, later, true_at};
use ws2s_syntax::{Argument, Atom, Name, Predicate, Term, TextFormula};

/// What is left to do, the last task next; the tracks of the names that it may use; and the formulas that are
/// finished.
#[derive(Drop)]
pub struct Machine<'t> {
    pub tasks: Vec<Task<'t>>,
    pub tracks: Vec<u32>,
    pub parts: Vec<Formula>,
}

/// Makes one formula of the last ones.
fn apply(alloc: Global, parts: &mut Vec<Formula>, op: Op) -> Result<(), AllocError>
    requires { IsSome (applied op (reverse parts.old.items)) }
    ensures { OnOk result (applied op (reverse parts.old.items) ≡ Some (reverse parts.new.items)) }
{
    let made = match op {
        Op::Negate => {
            let inner = parts.pop().unwrap();
            Formula::not(alloc, inner)?
        }
        Op::Imply => {
            let right = parts.pop().unwrap();
            let left = parts.pop().unwrap();
            imp(alloc, left, right)?
        }
        Op::Join(connective) => {
            let right = parts.pop().unwrap();
            let left = parts.pop().unwrap();
            joined(alloc, connective, left, right)?
        }
        Op::Wrap(quantifier, first, names) => {
            let inner = parts.pop().unwrap();
            wrapped(alloc, quantifier, first, names, inner)?
        }
        Op::Bind(own) => {
            let rest = parts.pop().unwrap();
            let position = parts.pop().unwrap();
            bound(alloc, own, position, rest)?
        }
    };
    parts.push(made)?;
    Ok(())
}

/// The predicate with a number, among the first so many.
fn visible(predicates: &[Predicate], rank: usize, predicate: u32) -> Option<&Predicate>
    ensures { option_copied result ≡ slice_get (take rank predicates.now) predicate }
{
    if predicate as usize >= rank {
        return None;
    }
    predicates.get(predicate as usize)
}

/// A term that isn't a name is bound around the rest.
fn bind_term(
    alloc: Global,
    machine: &mut Machine<'_>,
    frame: &[u32],
    term: &Term,
    next: u32,
) -> Result<u32, AllocError>
    ensures tasks { OnOk result (steps_of machine.new.tasks.items ≡ to_apply (Op.Bind next) ∷ steps_of machine.old.tasks.items) }
    ensures tracks { OnOk result (machine.new.tracks.items ≡ machine.old.tracks.items ++ next ∷ []) }
    ensures parts { OnOk result (reverse machine.new.parts.items
        ≡ is_at (next + 1) frame.now term.now next ∷ reverse machine.old.parts.items) }
    ensures value { IfOk result (λ inner. inner ≡ next + 1) }
{
    let inner = later(next, 1)?;
    let position = is_at(alloc, inner, frame, term, next)?;
    machine.parts.push(position)?;
    machine.tasks.push(Task::Apply(Op::Bind(next)))?;
    machine.tracks.push(next)?;
    Ok(inner)
}

/// An argument for a parameter: a name's track is put in, and another term bound around the rest.
fn pass_argument(
    alloc: Global,
    machine: &mut Machine<'_>,
    frame: &[u32],
    argument: &Argument,
    next: u32,
) -> Result<u32, AllocError>
    ensures { IfOk result (λ after. IsPassed frame.now (argument.now ∷ []) next machine.old after machine.new) }
{
    match argument {
        Argument::Set(name) => machine.tracks.push(track_of(frame, *name))?,
        Argument::Position(term) => match plain_name(term) {
            Some(name) => machine.tracks.push(track_of(frame, name))?,
            None => return bind_term(alloc, machine, frame, term, next),
        },
    }
    Ok(next)
}

/// The arguments for a predicate's parameters, from the left.
fn pass_arguments(
    alloc: Global,
    machine: &mut Machine<'_>,
    frame: &[u32],
    arguments: &[Argument],
    next: u32,
) -> Result<u32, AllocError>
    ensures { IfOk result (λ after. IsPassed frame.now arguments.now next machine.old after machine.new) }
{
    let mut after = next;
    for argument in arguments {
        after = pass_argument(alloc, machine, frame, argument, after)?;
    }
    Ok(after)
}

/// The body of a predicate is reduced for the tracks after the first so many, which are then forgotten.
fn enter<'t>(
    alloc: Global,
    machine: &mut Machine<'t>,
    body: Option<&'t Predicate>,
    place: Place,
) -> Result<(), AllocError>
    requires { place.start ≤ length machine.old.tracks.items }
    ensures same { OnOk result ((predicates : List Predicate) (rank : ℕ) →
        option_copied body.entry ≡ slice_get (take rank predicates) place.rank →
        finished predicates (steps_of machine.new.tasks.items) machine.new.tracks.items (reverse machine.new.parts.items)
        ≡ finished predicates (steps_of machine.old.tasks.items) (take place.start machine.old.tracks.items)
        (reductions_to predicates rank place.rank place.next (drop place.start machine.old.tracks.items)
        ∷ reverse machine.old.parts.items)) }
    ensures work { OnOk result ((predicates : List Predicate) (rank : ℕ) →
        option_copied body.entry ≡ slice_get (take rank predicates) place.rank →
        steps_work predicates (steps_of machine.new.tasks.items)
        ≤ works_to predicates rank place.rank + 1 + steps_work predicates (steps_of machine.old.tasks.items)) }
{
    machine.tasks.push(Task::Forget(place.start))?;
    match body {
        Some(predicate) => push_build(&mut machine.tasks, &predicate.body, place),
        None => {
            let made = true_at(alloc, place.next)?;
            machine.parts.push(made)?;
            Ok(())
        }
    }
}

/// The tracks of the names that a formula may use.
fn frame_of(alloc: Global, tracks: &[u32], start: usize) -> Result<Vec<u32>, AllocError>
    requires { start ≤ length tracks.now }
    ensures { IfOk result (λ frame. frame.items ≡ drop start tracks.now) }
{
    Vec::from_slice(alloc, &tracks[start..])
}

fn build_use<'t>(
    alloc: Global,
    machine: &mut Machine<'t>,
    predicates: &'t [Predicate],
    predicate: u32,
    arguments: &'t [Argument],
    place: Place,
) -> Result<(), AllocError>
    requires { place.start ≤ length machine.old.tracks.items }
    ensures { OnOk result (IsBuilt predicates.now
        (used (reductions_to predicates.now place.rank predicate) place.next
        (drop place.start machine.old.tracks.items) arguments.now [])
        (works_to predicates.now place.rank predicate + length arguments.now + 3) machine.old machine.new) }
{
    let kept = machine.tracks.len();
    let tracks = machine.tracks.as_slice();
    let frame = frame_of(alloc, tracks, place.start)?;
    let next = pass_arguments(alloc, machine, frame.as_slice(), arguments, place.next)?;
    let inside = Place {
        rank: predicate as usize,
        start: kept,
        next,
    };
    enter(
        alloc,
        machine,
        visible(predicates, place.rank, predicate),
        inside,
    )
}

fn build_atom<'t>(
    alloc: Global,
    machine: &mut Machine<'t>,
    predicates: &'t [Predicate],
    atom: &'t Atom,
    place: Place,
) -> Result<(), AllocError>
    requires { place.start ≤ length machine.old.tracks.items }
    ensures { OnOk result (IsBuilt predicates.now
        (atom_at (reductions_to predicates.now place.rank) place.next (drop place.start machine.old.tracks.items) atom.now)
        (atom_work (works_to predicates.now place.rank) atom.now) machine.old machine.new) }
{
    let next = place.next;
    let frame = &machine.tracks[place.start..];
    let made = match atom {
        Atom::Truth(true) => true_at(alloc, next)?,
        Atom::Truth(false) => false_at(alloc, next)?,
        Atom::Empty(name) => empty_at(alloc, next, Track(track_of(frame, *name)))?,
        Atom::In(term, name) => in_at(alloc, next, frame, term, *name)?,
        Atom::SamePosition(left, right) => same_at(alloc, next, frame, left, right)?,
        Atom::SameSet(left, right) => equal(
            alloc,
            Track(track_of(frame, *left)),
            Track(track_of(frame, *right)),
        )?,
        Atom::Sub(left, right) => Formula::Sub(
            Track(track_of(frame, *left)),
            Track(track_of(frame, *right)),
        ),
        Atom::Use(predicate, arguments) => {
            return build_use(
                alloc,
                machine,
                predicates,
                *predicate,
                arguments.as_slice(),
                place,
            );
        }
    };
    machine.parts.push(made)?;
    Ok(())
}

fn build<'t>(
    alloc: Global,
    machine: &mut Machine<'t>,
    predicates: &'t [Predicate],
    formula: &'t TextFormula,
    place: Place,
) -> Result<(), AllocError>
    requires { place.start ≤ length machine.old.tracks.items }
    ensures { OnOk result (IsBuilt predicates.now
        (reduced (reductions_to predicates.now place.rank) place.next (drop place.start machine.old.tracks.items)
        (sentence_of formula.now))
        (formula_work (works_to predicates.now place.rank) formula.now) machine.old machine.new) }
{
    let tasks = &mut machine.tasks;
    match formula {
        TextFormula::Atom(atom) => build_atom(alloc, machine, predicates, atom, place),
        TextFormula::Not(inner) => push_then(tasks, inner.get(), place, Op::Negate),
        TextFormula::Implies(left, right) => {
            push_then(tasks, right.get(), place, Op::Imply)?;
            push_build(tasks, left.get(), place)
        }
        TextFormula::Chain(connective, first, others) => {
            push_chain(tasks, *connective, first.get(), others.as_slice(), place)
        }
        TextFormula::Quantified(quantifier, names, inner) => {
            push_quantified(
                tasks,
                &mut machine.tracks,
                *quantifier,
                *names,
                inner.get(),
                place,
            )
        }
    }
}

fn step<'t>(
    alloc: Global,
    machine: &mut Machine<'t>,
    predicates: &'t [Predicate],
    task: Task<'t>,
) -> Result<(), AllocError>
    requires { IsSome (finished predicates.now (step_of task ∷ steps_of machine.old.tasks.items) machine.old.tracks.items
        (reverse machine.old.parts.items)) }
    ensures same { OnOk result (
        finished predicates.now (steps_of machine.new.tasks.items) machine.new.tracks.items (reverse machine.new.parts.items)
        ≡ finished predicates.now (step_of task.entry ∷ steps_of machine.old.tasks.items) machine.old.tracks.items
        (reverse machine.old.parts.items)) }
    ensures less { OnOk result (steps_work predicates.now (steps_of machine.new.tasks.items)
        < step_work predicates.now (step_of task.entry) + steps_work predicates.now (steps_of machine.old.tasks.items)) }
{
    match task {
        Task::Build(formula, place) => build(alloc, machine, predicates, formula, place),
        Task::Forget(count) => {
            machine.tracks.truncate(count);
            Ok(())
        }
        Task::Apply(op) => apply(alloc, &mut machine.parts, op),
    }
}

/// A formula's reduction, where the text has these predicates and so many free variables.
///
/// # Errors
///
/// Want of memory.
pub fn reduced<'t>(
    alloc: Global,
    predicates: &'t [Predicate],
    formula: &'t TextFormula,
    next: u32,
) -> Result<Formula, AllocError>
    ensures { IfOk result (λ made. made ≡ reduced (reductions_from no_reductions 0
        (map (λ p. sentence_of p.body) predicates.now)) next [] (sentence_of formula.now)) }
{
    let mut machine = Machine {
        tasks: Vec::new(alloc),
        tracks: Vec::new(alloc),
        parts: Vec::new(alloc),
    };
    let place = Place {
        rank: predicates.len(),
        start: 0,
        next,
    };
    machine.tasks.push(Task::Build(formula, place))?;
    while let Some(task) = machine.tasks.pop() {
        step(alloc, &mut machine, predicates, task)?;
    }
    let made = machine.parts.pop().unwrap();
    Ok(made)
}
