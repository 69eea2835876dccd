//! What is made so far.

ghost use Rattle.std.specs.Prelude.{◌≡◌};
ghost use Rattle.pale_syntax.specs.Making.{program_in};
ghost use Rattle.pale_syntax.specs.MakingParts.{nothing};
ghost use Rattle.pale_build.specs.Building.{parts_of};

use pale_syntax::{
    Argument, Assertion, Block, Bracketed, Condition, Declaration, FieldDeclaration,
    LogicParameter, Name, Parameter, Path, PredicateParameter, Program, Quantifier, Route,
    Statement, Term, Value, VariantDeclaration,
};
use pale_text::Pos;
use plain_data::{Items, Stack};
use std::alloc::Global;
use std::mem;

/// What is made so far, and is not yet part of something larger. `specs/MakingParts.antt` of `pale_syntax` says what each
/// is.
#[derive(Drop)]
pub struct Parts {
    pub alloc: Global,
    pub names: Stack<Name>,
    pub places: Stack<Pos>,
    pub paths: Stack<Path>,
    pub terms: Stack<Term>,
    pub routes: Stack<Route>,
    pub conditions: Stack<Condition>,
    pub assertions: Stack<Assertion>,
    pub quantifiers: Stack<Quantifier>,
    pub brackets: Stack<Bracketed>,
    pub blocks: Stack<Block>,
    pub elses: Stack<Option<Block>>,
    pub values: Stack<Value>,
    pub used: Items<Path>,
    pub call_results: Items<Name>,
    pub given: Items<Argument>,
    pub arguments: Items<Argument>,
    pub keep: Option<Bracketed>,
    pub variables: Items<Parameter>,
    pub parameters: Items<Parameter>,
    pub results: Items<Parameter>,
    pub logics: Items<LogicParameter>,
    pub pre: Option<Bracketed>,
    pub post: Option<Bracketed>,
    pub predicate_parameters: Items<PredicateParameter>,
    pub fields: Items<FieldDeclaration>,
    pub common: Items<FieldDeclaration>,
    pub variants: Items<VariantDeclaration>,
    pub declarations: Items<Declaration>,
}

/// Nothing. Takes no memory.
pub fn nothing(alloc: Global) -> Parts
    ensures { parts_of result ≡ nothing }
{
    Parts {
        alloc,
        names: Stack::new(alloc),
        places: Stack::new(alloc),
        paths: Stack::new(alloc),
        terms: Stack::new(alloc),
        routes: Stack::new(alloc),
        conditions: Stack::new(alloc),
        assertions: Stack::new(alloc),
        quantifiers: Stack::new(alloc),
        brackets: Stack::new(alloc),
        blocks: Stack::new(alloc),
        elses: Stack::new(alloc),
        values: Stack::new(alloc),
        used: Items::new(alloc),
        call_results: Items::new(alloc),
        given: Items::new(alloc),
        arguments: Items::new(alloc),
        keep: None,
        variables: Items::new(alloc),
        parameters: Items::new(alloc),
        results: Items::new(alloc),
        logics: Items::new(alloc),
        pre: None,
        post: None,
        predicate_parameters: Items::new(alloc),
        fields: Items::new(alloc),
        common: Items::new(alloc),
        variants: Items::new(alloc),
        declarations: Items::new(alloc),
    }
}

impl Parts {
    /// The program of all declarations that are whole. Takes no memory.
    pub fn into_program(mut self) -> Program
        ensures { result ≡ program_in (parts_of self) }
    {
        let declarations = mem::replace(&mut self.declarations, Items::new(self.alloc));
        drop(self);
        Program { declarations }
    }
}
