//! Declarations and programs.

ghost use Rattle.std.specs.Prelude.{◌≡◌, IfOk};
ghost use Rattle.pale_text.specs.declared.token.Mark.TheVariants as mark;
ghost use Rattle.pale_print.specs.Tokens.{each, each_behind, separated};
ghost use Rattle.pale_print.specs.DeclarationTokens.{field_tokens, fields_tokens, variant_tokens, type_tokens, predicate_parameter_tokens};
ghost use Rattle.pale_print.specs.DeclarationTokens.{predicate_tokens, parameter_tokens, parameters_tokens, results_tokens, logic_parameter_tokens};
ghost use Rattle.pale_print.specs.DeclarationTokens.{logics_tokens, local_tokens, procedure_tokens, declaration_tokens};
ghost use Rattle.pale_print.specs.Spelling.{spelling};
ghost use Rattle.pale_print.specs.Writing.{Writes, route_in_brackets, predicate_list, predicate_head, signature_tokens, body_tokens};

use crate::assertions::push_bracketed;
use crate::calls::push_clause;
use crate::names::{push_name, push_typed};
use crate::routes::push_route;
use crate::statements::push_statements;
use crate::tightness::RouteTightness;
use crate::tokens::{push_mark, push_word};
use pale_syntax::{
    Declaration, FieldDeclaration, FieldForm, LogicParameter, Parameter, PredicateDeclaration,
    PredicateParameter, Procedure, Program, Route, TypeDeclaration, VariantDeclaration,
};
use pale_text::Mark;
use plain_writer::Writer;
use std::alloc::{AllocError, Global};

/// `[ R ]`
fn push_route_in_brackets(text: &mut Writer, route: &Route)
    ensures { Writes (route_in_brackets route.now) text.old text.new }
{
    push_mark(text, Mark::LeftBracket);
    push_route(text, route, RouteTightness::Choice);
    push_mark(text, Mark::RightBracket)
}

/// `bool f ;`, `data f : T ;` or `pointer f : T [ R ] ;`
fn push_field(text: &mut Writer, field: &FieldDeclaration)
    ensures { Writes (field_tokens field.now) text.old text.new }
{
    match &field.form {
        FieldForm::Bool => {
            push_word(text, b"bool");
            push_name(text, &field.name);
            push_mark(text, Mark::Semicolon)
        }
        FieldForm::Data(ty) => {
            push_word(text, b"data");
            push_typed(text, &field.name, ty);
            push_mark(text, Mark::Semicolon)
        }
        FieldForm::Pointer(ty, _, route) => {
            push_word(text, b"pointer");
            push_typed(text, &field.name, ty);
            push_route_in_brackets(text, route);
            push_mark(text, Mark::Semicolon)
        }
    }
}

/// The fields one by one.
fn push_field_list(text: &mut Writer, fields: &[FieldDeclaration])
    ensures { Writes (each field_tokens fields.now) text.old text.new }
{
    for field in fields {
        push_field(text, field);
    }
}

/// `{ .. }`
fn push_fields(text: &mut Writer, fields: &[FieldDeclaration])
    ensures { Writes (fields_tokens fields.now) text.old text.new }
{
    push_mark(text, Mark::LeftBrace);
    push_field_list(text, fields);
    push_mark(text, Mark::RightBrace)
}

/// Variants, each behind a `|`.
fn push_variants(text: &mut Writer, variants: &[VariantDeclaration])
    ensures { Writes (each_behind mark.Bar variant_tokens variants.now) text.old text.new }
{
    for variant in variants {
        push_mark(text, Mark::Bar);
        push_name(text, &variant.name);
        push_fields(text, variant.fields.as_slice());
    }
}

/// `type T = { .. } | v { .. }`
fn push_type(text: &mut Writer, ty: &TypeDeclaration)
    ensures { Writes (type_tokens ty.now) text.old text.new }
{
    push_word(text, b"type");
    push_name(text, &ty.name);
    push_mark(text, Mark::Equals);
    push_fields(text, ty.fields.as_slice());
    push_variants(text, ty.variants.as_slice())
}

fn push_predicate_parameter(text: &mut Writer, parameter: &PredicateParameter)
    ensures { Writes (predicate_parameter_tokens parameter.now) text.old text.new }
{
    match parameter {
        PredicateParameter::Cell(name, ty) => push_typed(text, name, ty),
        PredicateParameter::Set(name, ty) => {
            push_word(text, b"set");
            push_typed(text, name, ty)
        }
        PredicateParameter::Bool(name) => {
            push_word(text, b"bool");
            push_name(text, name)
        }
    }
}

/// Parameters of a predicate with commas between them.
fn push_predicate_parameters(text: &mut Writer, parameters: &[PredicateParameter])
    ensures { Writes (separated mark.Comma predicate_parameter_tokens parameters.now) text.old text.new }
{
    let Some((first, others)) = parameters.split_first() else {
        return;
    };
    push_predicate_parameter(text, first);
    for parameter in others {
        push_mark(text, Mark::Comma);
        push_predicate_parameter(text, parameter);
    }
}

/// `( .. )` of a predicate
fn push_predicate_list(text: &mut Writer, parameters: &[PredicateParameter])
    ensures { Writes (predicate_list parameters.now) text.old text.new }
{
    push_mark(text, Mark::LeftParen);
    push_predicate_parameters(text, parameters);
    push_mark(text, Mark::RightParen)
}

/// `pred p ( .. )`
fn push_predicate_head(text: &mut Writer, predicate: &PredicateDeclaration)
    ensures { Writes (predicate_head predicate.now) text.old text.new }
{
    push_word(text, b"pred");
    push_name(text, &predicate.name);
    push_predicate_list(text, predicate.parameters.as_slice())
}

/// `pred p ( .. ) = [ a ] ;`
fn push_predicate(text: &mut Writer, predicate: &PredicateDeclaration)
    ensures { Writes (predicate_tokens predicate.now) text.old text.new }
{
    push_predicate_head(text, predicate);
    push_mark(text, Mark::Equals);
    push_bracketed(text, &predicate.body);
    push_mark(text, Mark::Semicolon)
}

fn push_parameter(text: &mut Writer, parameter: &Parameter)
    ensures { Writes (parameter_tokens parameter.now) text.old text.new }
{
    match parameter {
        Parameter::Data(name, ty) => {
            push_word(text, b"data");
            push_typed(text, name, ty)
        }
        Parameter::Pointer(name, ty) => {
            push_word(text, b"pointer");
            push_typed(text, name, ty)
        }
        Parameter::Bool(name) => {
            push_word(text, b"bool");
            push_name(text, name)
        }
    }
}

/// Parameters with commas between them.
fn push_separated(text: &mut Writer, parameters: &[Parameter])
    ensures { Writes (separated mark.Comma parameter_tokens parameters.now) text.old text.new }
{
    let Some((first, others)) = parameters.split_first() else {
        return;
    };
    push_parameter(text, first);
    for parameter in others {
        push_mark(text, Mark::Comma);
        push_parameter(text, parameter);
    }
}

/// `( .. )`
fn push_parameters(text: &mut Writer, parameters: &[Parameter])
    ensures { Writes (parameters_tokens parameters.now) text.old text.new }
{
    push_mark(text, Mark::LeftParen);
    push_separated(text, parameters);
    push_mark(text, Mark::RightParen)
}

/// `returns ( .. )`, and nothing where there are no results.
fn push_results(text: &mut Writer, results: &[Parameter])
    ensures { Writes (results_tokens results.now) text.old text.new }
{
    if results.split_first().is_none() {
        return;
    }
    push_word(text, b"returns");
    push_parameters(text, results)
}

fn push_logic(text: &mut Writer, logic: &LogicParameter)
    ensures { Writes (logic_parameter_tokens logic.now) text.old text.new }
{
    match logic {
        LogicParameter::Set(name, ty) => {
            push_word(text, b"set");
            push_typed(text, name, ty)
        }
        LogicParameter::Bool(name) => {
            push_word(text, b"bool");
            push_name(text, name)
        }
    }
}

/// Logic variables with commas between them.
fn push_logic_list(text: &mut Writer, logics: &[LogicParameter])
    ensures { Writes (separated mark.Comma logic_parameter_tokens logics.now) text.old text.new }
{
    let Some((first, others)) = logics.split_first() else {
        return;
    };
    push_logic(text, first);
    for logic in others {
        push_mark(text, Mark::Comma);
        push_logic(text, logic);
    }
}

/// `logic ..`, and nothing where there are no logic variables.
fn push_logics(text: &mut Writer, logics: &[LogicParameter])
    ensures { Writes (logics_tokens logics.now) text.old text.new }
{
    if logics.split_first().is_none() {
        return;
    }
    push_word(text, b"logic");
    push_logic_list(text, logics)
}

/// The variables that a body declares.
fn push_locals(text: &mut Writer, locals: &[Parameter])
    ensures { Writes (each local_tokens locals.now) text.old text.new }
{
    for local in locals {
        push_parameter(text, local);
        push_mark(text, Mark::Semicolon);
    }
}

/// `{ .. }`
fn push_body(text: &mut Writer, procedure: &Procedure)
    ensures { Writes (body_tokens procedure.now) text.old text.new }
{
    push_mark(text, Mark::LeftBrace);
    push_locals(text, procedure.locals.as_slice());
    push_statements(text, procedure.body.as_slice());
    push_mark(text, Mark::RightBrace)
}

/// `proc p ( .. ) returns ( .. ) logic ..`
fn push_signature(text: &mut Writer, procedure: &Procedure)
    ensures { Writes (signature_tokens procedure.now) text.old text.new }
{
    push_word(text, b"proc");
    push_name(text, &procedure.name);
    push_parameters(text, procedure.parameters.as_slice());
    push_results(text, procedure.results.as_slice());
    push_logics(text, procedure.logics.as_slice())
}

/// `proc p ( .. ) returns ( .. ) logic .. pre [ a ] post [ b ] { .. }`
fn push_procedure(text: &mut Writer, procedure: &Procedure)
    ensures { Writes (procedure_tokens procedure.now) text.old text.new }
{
    push_signature(text, procedure);
    push_clause(text, b"pre", &procedure.pre);
    push_clause(text, b"post", &procedure.post);
    push_body(text, procedure)
}

fn push_declaration(text: &mut Writer, declaration: &Declaration)
    ensures { Writes (declaration_tokens declaration.now) text.old text.new }
{
    match declaration {
        Declaration::Type(ty) => push_type(text, ty),
        Declaration::Predicate(predicate) => push_predicate(text, predicate),
        Declaration::Procedure(procedure) => push_procedure(text, procedure),
    }
}

fn push_declarations(text: &mut Writer, declarations: &[Declaration])
    ensures { Writes (each declaration_tokens declarations.now) text.old text.new }
{
    for declaration in declarations {
        push_declaration(text, declaration);
    }
}

/// The program in its canonical spelling. In time that is proportional to the text.
#[tactic(auto, unfolding(crate::specs::Spelling::spelling, crate::specs::DeclarationTokens::program_tokens, crate::specs::Spelling::spelled))]
pub fn print_program(alloc: Global, program: &Program) -> Result<Vec<u8>, AllocError>
    ensures value { IfOk result (λ printed. printed.items ≡ spelling program.now) }
{
    let mut text = Writer::new(alloc);
    push_declarations(&mut text, program.declarations.as_slice());
    text.finish()
}
