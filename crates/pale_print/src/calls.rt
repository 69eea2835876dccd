//! Calls, and what is assigned.

ghost use Rattle.std.specs.Prelude.{◌≡◌, codes};
ghost use Rattle.pale_text.specs.declared.token.Mark.TheVariants as mark;
ghost use Rattle.pale_print.specs.Tokens.{separated};
ghost use Rattle.pale_print.specs.StatementTokens.{argument_tokens, new_variant_tokens, value_tokens, clause_tokens, call_result_tokens};
ghost use Rattle.pale_print.specs.StatementTokens.{logic_argument_tokens, call_tokens};
ghost use Rattle.pale_print.specs.Writing.{Writes, call_head, call_arguments};

use crate::assertions::push_bracketed;
use crate::conditions::push_condition;
use crate::names::{push_marked, push_name, push_names};
use crate::tightness::ConditionTightness;
use crate::tokens::{push_mark, push_word};
use pale_syntax::{Argument, Bracketed, Call, Name, Value};
use pale_text::Mark;
use plain_writer::Writer;

fn push_argument(text: &mut Writer, argument: &Argument)
    ensures { Writes (argument_tokens argument.now) text.old text.new }
{
    match argument {
        Argument::Name(name) => push_name(text, name),
        Argument::Null(_) => push_word(text, b"null"),
        Argument::Truth(_, true) => push_word(text, b"true"),
        Argument::Truth(_, false) => push_word(text, b"false"),
    }
}

/// Arguments with commas between them.
fn push_arguments(text: &mut Writer, arguments: &[Argument])
    ensures { Writes (separated mark.Comma argument_tokens arguments.now) text.old text.new }
{
    let Some((first, others)) = arguments.split_first() else {
        return;
    };
    push_argument(text, first);
    for argument in others {
        push_mark(text, Mark::Comma);
        push_argument(text, argument);
    }
}

/// `: v`, and nothing where there is no variant.
fn push_new_variant(text: &mut Writer, variant: &Option<Name>)
    ensures { Writes (new_variant_tokens variant.now) text.old text.new }
{
    match variant {
        Some(name) => push_marked(text, Mark::Colon, name),
        None => {}
    }
}

pub fn push_value(text: &mut Writer, value: &Value)
    ensures { Writes (value_tokens value.now) text.old text.new }
{
    match value {
        Value::New(_, ty, variant) => {
            push_word(text, b"new");
            push_name(text, ty);
            push_new_variant(text, variant)
        }
        Value::Condition(_, condition) => push_condition(
            text,
            condition,
            ConditionTightness::Disjunction,
        ),
    }
}

/// A word and the assertion in its brackets, and nothing where there is none.
pub fn push_clause(text: &mut Writer, word: &[u8], clause: &Option<Bracketed>)
    ensures { Writes (clause_tokens word.now clause.now) text.old text.new }
{
    match clause {
        Some(bracketed) => {
            push_word(text, word);
            push_bracketed(text, bracketed)
        }
        None => {}
    }
}

/// `r , s =`, and nothing where there are no results.
fn push_results(text: &mut Writer, results: &[Name])
    ensures { Writes (call_result_tokens results.now) text.old text.new }
{
    if results.split_first().is_none() {
        return;
    }
    push_names(text, results);
    push_mark(text, Mark::Equals)
}

/// `; S , true`, and nothing where there are no such arguments.
fn push_logics(text: &mut Writer, logics: &[Argument])
    ensures { Writes (logic_argument_tokens logics.now) text.old text.new }
{
    if logics.split_first().is_none() {
        return;
    }
    push_mark(text, Mark::Semicolon);
    push_arguments(text, logics)
}

/// `call r , s = p (`
fn push_call_head(text: &mut Writer, call: &Call)
    ensures { Writes (call_head call.now) text.old text.new }
{
    push_word(text, b"call");
    push_results(text, call.results.as_slice());
    push_name(text, &call.callee);
    push_mark(text, Mark::LeftParen)
}

/// `x , null ; S )`
fn push_call_arguments(text: &mut Writer, call: &Call)
    ensures { Writes (call_arguments call.now) text.old text.new }
{
    push_arguments(text, call.arguments.as_slice());
    push_logics(text, call.logics.as_slice());
    push_mark(text, Mark::RightParen)
}

/// `call r , s = p ( x , null ; S ) keep [ a ] ;`
pub fn push_call(text: &mut Writer, call: &Call)
    ensures { Writes (call_tokens call.now) text.old text.new }
{
    push_call_head(text, call);
    push_call_arguments(text, call);
    push_clause(text, b"keep", &call.keep);
    push_mark(text, Mark::Semicolon)
}
