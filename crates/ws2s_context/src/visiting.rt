//! Visits: a formula is taken apart, and its parts are to be rewritten in contexts of their own.

ghost use Rattle.std.specs.Prelude.{◌≡◌, ◌<◌, length, IfOk, OnOk};
ghost use Rattle.ws2s_core.specs.declared.formula.Formula.TheVariants.{And, Not, Ex2};
ghost use Rattle.ws2s_core.specs.Nodes.{Extends, HasPartsBelow, formula_of_node};
ghost use Rattle.ws2s_facts.specs.Conjuncts.{IsThere, formula_of};
ghost use Rattle.ws2s_facts.specs.Facts.{AreFacts};
ghost use Rattle.ws2s_context.specs.Going.{IsPlace, IsSame, IsTurning, IsConjoining, IsGoing, whole};

use crate::choice::Choice;
use crate::context::{Context, beside, inside, narrowed, projected};
use crate::machine::Machine;
use crate::task::{Place, Task};
use std::alloc::{AllocError, Global};
use ws2s_core::{FormulaId, Interner, Node, Track};
use ws2s_facts::Facts;

/// The formula is taken apart, unless it was rewritten in its context before.
pub(crate) fn visit(
    alloc: Global,
    interner: &mut Interner,
    facts: &mut Facts,
    place: Place,
    machine: &mut Machine,
) -> Result<(), AllocError>
    requires facts { AreFacts interner.old facts.old.facts.items }
    requires place { IsPlace interner.old place }
    requires going { IsGoing interner.old machine.old.tasks machine.old.rewritings.made.items }
    ensures kept { Extends interner.old interner.new }
    ensures ok { OnOk result (IsGoing interner.new machine.new.tasks machine.new.rewritings.made.items) }
    ensures facts { OnOk result (AreFacts interner.new facts.new.facts.items) }
{
    if machine.rewritings.get(place).is_some() {
        return Ok(());
    }
    match interner.form(place.id) {
        Some(node) => take_apart(alloc, interner, facts, place, node, machine),
        None => Ok(()),
    }
}

/// The parts of a formula that is no atom are to be rewritten.
fn take_apart(
    alloc: Global,
    interner: &mut Interner,
    facts: &mut Facts,
    place: Place,
    node: Node,
    machine: &mut Machine,
) -> Result<(), AllocError>
    requires facts { AreFacts interner.old facts.old.facts.items }
    requires place { IsPlace interner.old place }
    requires is { whole interner.old place ≡ formula_of_node interner.old node }
    requires parts { HasPartsBelow (length interner.old) node }
    requires going { IsGoing interner.old machine.old.tasks machine.old.rewritings.made.items }
    ensures kept { Extends interner.old interner.new }
    ensures ok { OnOk result (IsGoing interner.new machine.new.tasks machine.new.rewritings.made.items) }
    ensures facts { OnOk result (AreFacts interner.new facts.new.facts.items) }
{
    match node {
        Node::And(f, g) => divide(alloc, interner, facts, place, f, g, machine),
        Node::Not(f) => enter_negation(place, f, interner, machine),
        Node::Ex2(t, f) => enter_quantifier(alloc, interner, facts, place, t, f, machine),
        Node::Sub(_, _) | Node::Single(_) | Node::Succ0(_, _) | Node::Succ1(_, _) | Node::Root(_) =>
            Ok(()),
    }
}

/// The left half of a conjunction is to be rewritten, and after it the right one.
fn divide(
    alloc: Global,
    interner: &mut Interner,
    facts: &mut Facts,
    place: Place,
    f: FormulaId,
    g: FormulaId,
    machine: &mut Machine,
) -> Result<(), AllocError>
    requires facts { AreFacts interner.old facts.old.facts.items }
    requires place { IsPlace interner.old place }
    requires left { IsThere interner.old f }
    requires right { IsThere interner.old g }
    requires is { whole interner.old place ≡ And (formula_of interner.old f) (formula_of interner.old g) }
    requires going { IsGoing interner.old machine.old.tasks machine.old.rewritings.made.items }
    ensures kept { Extends interner.old interner.new }
    ensures ok { OnOk result (IsGoing interner.new machine.new.tasks machine.new.rewritings.made.items) }
    ensures facts { OnOk result (AreFacts interner.new facts.new.facts.items) }
{
    let around = narrowed(alloc, interner, facts, place.context, f)?;
    let left = Place {
        context: around,
        id: f,
    };
    machine.tasks.push(Task::Turn(place, left, g))?;
    machine.tasks.push(Task::Visit(left))?;
    Ok(())
}

/// The right half of a conjunction is to be rewritten, with what holds by the left one in its context.
pub(crate) fn turn(
    alloc: Global,
    interner: &mut Interner,
    facts: &mut Facts,
    place: Place,
    left: Place,
    g: FormulaId,
    machine: &mut Machine,
) -> Result<(), AllocError>
    requires facts { AreFacts interner.old facts.old.facts.items }
    requires place { IsTurning interner.old place left g }
    requires going { IsGoing interner.old machine.old.tasks machine.old.rewritings.made.items }
    ensures kept { Extends interner.old interner.new }
    ensures ok { OnOk result (IsGoing interner.new machine.new.tasks machine.new.rewritings.made.items) }
    ensures facts { OnOk result (AreFacts interner.new facts.new.facts.items) }
{
    let first = machine.rewritings.to(left);
    machine.choice.take(alloc, interner, facts, left.id, first)?;
    let around = right_context(
        alloc,
        interner,
        facts,
        &machine.choice,
        place,
        left,
        first,
        g,
    )?;
    let right = Place {
        context: around,
        id: g,
    };
    machine.tasks.push(Task::Conjoin(place, left, right))?;
    machine.tasks.push(Task::Visit(right))?;
    Ok(())
}

/// The context of the right half of a conjunction, the left one having been rewritten to the first formula.
fn right_context(
    alloc: Global,
    interner: &mut Interner,
    facts: &mut Facts,
    choice: &Choice,
    place: Place,
    left: Place,
    first: FormulaId,
    g: FormulaId,
) -> Result<Context, AllocError>
    requires facts { AreFacts interner.old facts.old.facts.items }
    requires place { IsTurning interner.old place left g }
    requires first { IsSame interner.old left first }
    ensures kept { Extends interner.old interner.new }
    ensures right { IfOk result (λ around. IsConjoining interner.new place left (record { context = around; id = g })) }
    ensures facts { IfOk result (λ around. AreFacts interner.new facts.new.facts.items) }
{
    let strangers = choice.strangers(alloc, facts, left.id, first)?;
    let projection = projected(alloc, interner, facts, first, strangers.as_slice())?;
    let around = beside(
        alloc,
        interner,
        facts,
        choice,
        place.context,
        first,
        projection,
        g,
    )?;
    Ok(around)
}

/// What is negated is to be rewritten in the same context.
fn enter_negation(
    place: Place,
    f: FormulaId,
    interner: &Interner,
    machine: &mut Machine,
) -> Result<(), AllocError>
    requires place { IsPlace interner.now place }
    requires inner { IsThere interner.now f }
    requires is { whole interner.now place ≡ Not (formula_of interner.now f) }
    requires going { IsGoing interner.now machine.old.tasks machine.old.rewritings.made.items }
    ensures ok { OnOk result (IsGoing interner.now machine.new.tasks machine.new.rewritings.made.items) }
{
    machine.choice.enter_negation()?;
    let inner = Place {
        context: place.context,
        id: f,
    };
    machine.tasks.push(Task::Negate(place, inner))?;
    machine.tasks.push(Task::Visit(inner))?;
    Ok(())
}

/// What stands under a quantifier is to be rewritten in the context that hasn't its track free.
fn enter_quantifier(
    alloc: Global,
    interner: &mut Interner,
    facts: &mut Facts,
    place: Place,
    t: Track,
    f: FormulaId,
    machine: &mut Machine,
) -> Result<(), AllocError>
    requires facts { AreFacts interner.old facts.old.facts.items }
    requires place { IsPlace interner.old place }
    requires inner { IsThere interner.old f }
    requires is { whole interner.old place ≡ Ex2 t (formula_of interner.old f) }
    requires going { IsGoing interner.old machine.old.tasks machine.old.rewritings.made.items }
    ensures kept { Extends interner.old interner.new }
    ensures ok { OnOk result (IsGoing interner.new machine.new.tasks machine.new.rewritings.made.items) }
    ensures facts { OnOk result (AreFacts interner.new facts.new.facts.items) }
{
    machine.choice.enter_quantifier(alloc, interner, t, f)?;
    let around = inside(alloc, interner, facts, place.context, t, f)?;
    let inner = Place {
        context: around,
        id: f,
    };
    machine.tasks.push(Task::Quantify(place, t, inner))?;
    machine.tasks.push(Task::Visit(inner))?;
    Ok(())
}
