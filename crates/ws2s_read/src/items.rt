//! Items of a text, and the text.

ghost use Rattle.std.specs.Prelude.{◌≡◌, IfOk, IfErr, OnOk};
ghost use Rattle.ws2s_read.specs.Resolving.{IsStop, classes_of, with_variable, with_variables, resolved_body, with_predicate, with_formula};
ghost use Rattle.ws2s_read.specs.Resolving.{with_item, resolved};

use crate::formulas::{bind_parameters, resolve_formula};
use crate::names::{Meaning, Names, number};
use pale_text::TextStop;
use plain_data::Items;
use std::alloc::{AllocError, Global};
use ws2s_syntax::{
    Class, ClassList, Free, FreeList, Name, Predicate, PredicateList, Source, SourceFormula,
    SourceItem, SourceName, SourceParameter, TextFormula, TextFormulaList, Ws2sText,
};

/// A text of fewer than 2^32 bytes has no more variables.
const MOST_VARIABLES: usize = 2_147_483_648;

/// What the items so far declare and state.
#[derive(Drop)]
struct Stage {
    names: Names,
    free: FreeList,
    predicates: PredicateList,
    formulas: TextFormulaList,
}

/// Declares a free variable.
#[tactic(auto, unfolding(crate::specs::Resolving::with_variable))]
fn add_variable(
    alloc: Global,
    stage: &mut Stage,
    class: Class,
    name: &SourceName,
) -> Result<(), TextStop>
    ensures stage { OnOk result (with_variable class name.now stage.old ≡ Ok stage.new) }
    ensures stop { IfErr result (IsStop (with_variable class name.now stage.old)) }
{
    let variable = Name::Free(number(stage.free.len())?);
    stage
        .names
        .declare(name, Meaning::Variable(variable, class))?;
    let name = Items::from_slice(alloc, name.bytes.as_slice())?;
    stage.free.push(Free {
        name,
        set: class == Class::Set,
    })?;
    Ok(())
}

fn add_variables(
    alloc: Global,
    stage: &mut Stage,
    class: Class,
    names: &[SourceName],
) -> Result<(), TextStop>
    ensures stage { OnOk result (with_variables class names.now stage.old ≡ Ok stage.new) }
    ensures stop { IfErr result (IsStop (with_variables class names.now stage.old)) }
{
    for name in names {
        add_variable(alloc, stage, class, name)?;
    }
    Ok(())
}

/// The classes of parameters.
fn classes_of(alloc: Global, parameters: &[SourceParameter]) -> Result<ClassList, AllocError>
    ensures { IfOk result (λ classes. classes ≡ classes_of parameters.now) }
{
    let mut classes = Items::new(alloc);
    for parameter in parameters {
        classes.push(parameter.class)?;
    }
    Ok(classes)
}

/// A predicate's body, where its parameters are visible.
#[tactic(auto, unfolding(crate::specs::Resolving::resolved_body))]
fn resolve_body(
    alloc: Global,
    names: &mut Names,
    parameters: &[SourceParameter],
    body: &SourceFormula,
) -> Result<TextFormula, TextStop>
    ensures formula { IfOk result (λ found. resolved_body parameters.now body.now names.old ≡ Ok found) }
    ensures stop { IfErr result (IsStop (resolved_body parameters.now body.now names.old)) }
    ensures names_stay { OnOk result (names.new ≡ names.old) }
{
    let outer = names.len();
    bind_parameters(names, outer, parameters)?;
    let formula = resolve_formula(alloc, names, outer, body)?;
    names.close(outer);
    Ok(formula)
}

/// Declares a predicate. Its name is looked at first, then its parameters and its body, where its name isn't visible.
fn add_predicate(
    alloc: Global,
    stage: &mut Stage,
    name: &SourceName,
    parameters: &[SourceParameter],
    body: &SourceFormula,
) -> Result<(), TextStop>
    ensures stage { OnOk result (with_predicate name.now parameters.now body.now stage.old ≡ Ok stage.new) }
    ensures stop { IfErr result (IsStop (with_predicate name.now parameters.now body.now stage.old)) }
{
    stage.names.check_new(name)?;
    let number = number(stage.predicates.len())?;
    let classes = classes_of(alloc, parameters)?;
    let params = classes_of(alloc, parameters)?;
    let body = resolve_body(alloc, &mut stage.names, parameters, body)?;
    stage.predicates.push(Predicate { params, body })?;
    stage.names.add(name, Meaning::Predicate(number, classes))?;
    Ok(())
}

#[tactic(auto, unfolding(crate::specs::Resolving::with_formula))]
fn add_formula(alloc: Global, stage: &mut Stage, formula: &SourceFormula) -> Result<(), TextStop>
    ensures stage { OnOk result (with_formula formula.now stage.old ≡ Ok stage.new) }
    ensures stop { IfErr result (IsStop (with_formula formula.now stage.old)) }
{
    let outer = stage.names.len();
    let formula = resolve_formula(alloc, &mut stage.names, outer, formula)?;
    stage.formulas.push(formula)?;
    Ok(())
}

fn add_item(alloc: Global, stage: &mut Stage, item: &SourceItem) -> Result<(), TextStop>
    ensures stage { OnOk result (with_item item.now stage.old ≡ Ok stage.new) }
    ensures stop { IfErr result (IsStop (with_item item.now stage.old)) }
{
    match item {
        SourceItem::Variables(class, names) => add_variables(
            alloc,
            stage,
            *class,
            names.as_slice(),
        ),
        SourceItem::Predicate(name, parameters, body) => {
            add_predicate(alloc, stage, name, parameters.as_slice(), body)
        }
        SourceItem::Formula(formula) => add_formula(alloc, stage, formula),
    }
}

/// The text that a source tree is, once its names are looked up.
///
/// # Errors
///
/// `Refused` is the first fault from the left: `duplicate` at a name that is declared or bound where it is visible,
/// `unknown` at one that is used where it isn't, `kind` at a name or a term of another class than its place needs, and
/// `arity` at the name of a predicate that is used with more or fewer arguments than it has parameters. `NoMemory` says
/// nothing of the tree. A name is found by a table, so the time is linear in the tree.
#[tactic(auto, unfolding(crate::specs::Resolving::resolved))]
pub fn resolve(alloc: Global, source: &Source) -> Result<Ws2sText, TextStop>
    ensures text { IfOk result (λ found. resolved source.now ≡ Ok found) }
    ensures stop { IfErr result (IsStop (resolved source.now)) }
{
    let mut stage = Stage {
        names: Names::new(alloc),
        free: Items::new(alloc),
        predicates: Items::new(alloc),
        formulas: Items::new(alloc),
    };
    for item in source.items.as_slice() {
        add_item(alloc, &mut stage, item)?;
    }
    let Stage {
        names: _,
        free,
        predicates,
        formulas,
    } = stage;
    if free.len() > MOST_VARIABLES {
        return Err(TextStop::NoMemory);
    }
    Ok(Ws2sText::new(free, predicates, formulas))
}
