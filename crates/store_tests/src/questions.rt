//! What is asked of a store over the variables of a program, with the answer that is wanted.

ghost use Rattle.store_core.specs.Stores.{Fits};

use crate::chains::judged;
use crate::cuts::{Cut, is_cut};
use crate::programs::{TYPES, pre_of, program_of, store_of};
use crate::regions::{On, is_true_on};
use crate::routes::form_of_copy;
use crate::told::is_told;
use crate::walks::leads;
use pale_typed::Typed;
use std::alloc::Global;
use std::test::Fail;
use store_core::{Store, TypeTable, VarTable};
use store_logic::Assertion;

/// A question, and the answer that is wanted.
#[derive(Clone, Copy)]
pub(crate) enum Question<'a> {
    /// What is written of the store and of its copy, and how many cells the copy has.
    Text(&'a str, usize),
    /// What is so of cuts, of what is reached, and of a set of cells.
    Cut(&'a Cut),
    /// Whether the precondition is true on a part of the store or on the rest.
    On(On, bool),
    /// Where the walk of an assertion leads from a cell.
    Walk(&'a str, u32, &'a str),
    /// The form of the copy of the route that the precondition walks.
    Copied(u32),
    /// Whether an assertion is true, and whether its negation is.
    Both(&'a Assertion, (bool, bool)),
}

/// Whether the answer of the store is the wanted one.
fn is_so(
    alloc: Global,
    types: &TypeTable,
    vars: &VarTable,
    pre: &Assertion,
    store: &Store,
    question: Question<'_>,
) -> Result<bool, Fail>
    requires { Fits types.now vars.now store.now }
{
    match question {
        Question::Text(text, cells) => Ok(is_told(alloc, types, vars, store, text, cells)?),
        Question::Cut(cut) => Ok(is_cut(alloc, types, vars, pre, store, cut)?),
        Question::On(on, truth) => Ok(is_true_on(alloc, types, store, pre, on)? == truth),
        Question::Walk(walk, from, wanted) => leads(alloc, types, store, walk, from, wanted),
        Question::Copied(form) => Ok(form_of_copy(alloc, pre)? == form),
        Question::Both(assertion, truths) => {
            Ok(judged(alloc, types, store, assertion)? == truths)
        }
    }
}

/// Whether the answer of the store of a text is the wanted one.
fn is_so_of(
    alloc: Global,
    types: &TypeTable,
    vars: &VarTable,
    pre: &Assertion,
    text: &str,
    question: Question<'_>,
) -> Result<bool, Fail> {
    let store = store_of(alloc, types, vars, text.as_bytes())?;
    is_so(alloc, types, vars, pre, &store, question)
}

/// Whether the answer of the store of a text over a program's tables is the wanted one.
fn is_so_over(
    alloc: Global,
    typed: &Typed,
    text: &str,
    question: Question<'_>,
) -> Result<bool, Fail> {
    let (Some(vars), Some(pre)) = (typed.vars(0), pre_of(typed)) else {
        return Ok(false);
    };
    is_so_of(alloc, typed.types(), vars, pre, text, question)
}

/// Whether the answer of the store of a text is the wanted one, over the variables and the precondition of a procedure.
pub(crate) fn answers(
    alloc: Global,
    vars: &[u8],
    pre: &str,
    text: &str,
    question: Question<'_>,
) -> Result<bool, Fail> {
    let typed = program_of(alloc, TYPES, vars, pre)?;
    is_so_over(alloc, &typed, text, question)
}
