//! Statements.

ghost use Rattle.std.specs.Prelude.{◌≡◌};
ghost use Rattle.pale_print.specs.StatementTokens.{statement_tokens};
ghost use Rattle.pale_print.specs.Writing.{Writes, tested, skipped, said, freed, assigned, statements_tokens, braced};

use crate::assertions::push_bracketed;
use crate::calls::{push_call, push_value};
use crate::conditions::push_condition;
use crate::names::{push_name, push_path};
use crate::tightness::ConditionTightness;
use crate::tokens::{push_mark, push_word};
use pale_syntax::{Bracketed, Condition, Name, Path, Statement, Value};
use pale_text::Mark;
use plain_writer::Writer;

/// `if ( c )` or `while ( c )`
fn push_test(text: &mut Writer, word: &[u8], condition: &Condition)
    ensures { Writes (tested word.now condition.now) text.old text.new }
{
    push_word(text, word);
    push_mark(text, Mark::LeftParen);
    push_condition(text, condition, ConditionTightness::Disjunction);
    push_mark(text, Mark::RightParen)
}

/// `skip ;`
fn push_skip(text: &mut Writer)
    ensures { Writes skipped text.old text.new }
{
    push_word(text, b"skip");
    push_mark(text, Mark::Semicolon)
}

/// `split [ a ] ;` or `assert [ a ] ;`
fn push_said(text: &mut Writer, word: &[u8], bracketed: &Bracketed)
    ensures { Writes (said word.now bracketed.now) text.old text.new }
{
    push_word(text, word);
    push_bracketed(text, bracketed);
    push_mark(text, Mark::Semicolon)
}

/// `free x ;`
fn push_free(text: &mut Writer, name: &Name)
    ensures { Writes (freed name.now) text.old text.new }
{
    push_word(text, b"free");
    push_name(text, name);
    push_mark(text, Mark::Semicolon)
}

/// `p = v ;`
fn push_assign(text: &mut Writer, path: &Path, value: &Value)
    ensures { Writes (assigned path.now value.now) text.old text.new }
{
    push_path(text, path);
    push_mark(text, Mark::Equals);
    push_value(text, value);
    push_mark(text, Mark::Semicolon)
}

#[cycle(statements)]
pub fn push_statements(text: &mut Writer, statements: &[Statement])
    ensures { Writes (statements_tokens statements.now) text.old text.new }
{
    for statement in statements {
        push_statement(text, statement);
    }
}

/// `{ .. }`
#[cycle(statements)]
fn push_block(text: &mut Writer, statements: &[Statement])
    ensures { Writes (braced statements.now) text.old text.new }
{
    push_mark(text, Mark::LeftBrace);
    push_statements(text, statements);
    push_mark(text, Mark::RightBrace)
}

#[cycle(statements)]
#[tactic(auto, using(crate::proofs::StatementLemmas::statement_forms))]
fn push_statement(text: &mut Writer, statement: &Statement)
    ensures { Writes (statement_tokens statement.now) text.old text.new }
{
    match statement {
        Statement::Skip(_) => push_skip(text),
        Statement::If(_, condition, then, otherwise) => {
            push_test(text, b"if", condition);
            push_block(text, then.as_slice());
            let Some(block) = otherwise else {
                return;
            };
            push_word(text, b"else");
            push_block(text, block.as_slice())
        }
        Statement::While(_, condition, invariant, body) => {
            push_test(text, b"while", condition);
            push_bracketed(text, invariant);
            push_block(text, body.as_slice())
        }
        Statement::Split(_, bracketed) => push_said(text, b"split", bracketed),
        Statement::Assert(_, bracketed) => push_said(text, b"assert", bracketed),
        Statement::Free(_, name) => push_free(text, name),
        Statement::Call(call) => push_call(text, call),
        Statement::Assign(path, _, value) => push_assign(text, path, value),
    }
}
