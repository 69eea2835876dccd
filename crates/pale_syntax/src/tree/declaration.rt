//! Programs and their declarations.

use crate::tree::assertion::Bracketed;
use crate::tree::names::Name;
use crate::tree::route::Route;
use crate::tree::statement::Block;
use pale_text::Pos;
use plain_data::Items;

/// A whole text: its declarations in order.
#[derive(Debug, Drop)]
pub struct Program {
    pub declarations: Items<Declaration>,
}

#[derive(Debug, Drop)]
pub enum Declaration {
    Type(TypeDeclaration),
    Predicate(PredicateDeclaration),
    Procedure(Procedure),
}

/// `type T = { .. } | v { .. } | w { .. }`
#[derive(Debug, Drop)]
pub struct TypeDeclaration {
    pub name: Name,
    /// The fields that every cell of the type has.
    pub fields: Items<FieldDeclaration>,
    /// The named variants, with their own fields.
    pub variants: Items<VariantDeclaration>,
}

/// `v { .. }` in a type.
#[derive(Debug, Drop)]
pub struct VariantDeclaration {
    pub name: Name,
    pub fields: Items<FieldDeclaration>,
}

/// A field and what it holds.
#[derive(Debug, Drop)]
pub struct FieldDeclaration {
    pub name: Name,
    pub form: FieldForm,
}

/// What a field holds.
#[derive(Debug, Drop)]
pub enum FieldForm {
    /// `bool f;`
    Bool,
    /// `data f: T;`
    Data(Name),
    /// `pointer f: T [R];`, with the place of the `[`.
    Pointer(Name, Pos, Route),
}

/// `pred p(x: T, set S: T, bool b) = [a];`
#[derive(Debug, Drop)]
pub struct PredicateDeclaration {
    pub name: Name,
    pub parameters: Items<PredicateParameter>,
    pub body: Bracketed,
}

/// A parameter of a predicate: its name, and the type of cells.
#[derive(Debug, Drop)]
pub enum PredicateParameter {
    /// `x: T`
    Cell(Name, Name),
    /// `set S: T`
    Set(Name, Name),
    /// `bool b`
    Bool(Name),
}

/// A procedure. Its parts that are left out are empty lists and `None`.
#[derive(Debug, Drop)]
pub struct Procedure {
    /// The place of `proc`.
    pub place: Pos,
    pub name: Name,
    pub parameters: Items<Parameter>,
    /// What follows `returns`.
    pub results: Items<Parameter>,
    /// What follows `logic`.
    pub logics: Items<LogicParameter>,
    pub pre: Option<Bracketed>,
    pub post: Option<Bracketed>,
    /// The variables that the body declares.
    pub locals: Items<Parameter>,
    pub body: Block,
    /// The place of the last `}`.
    pub end: Pos,
}

/// A parameter, a result or a local: its name, and the type of cells.
#[derive(Debug, Drop)]
pub enum Parameter {
    /// `data x: T`
    Data(Name, Name),
    /// `pointer x: T`
    Pointer(Name, Name),
    /// `bool b`
    Bool(Name),
}

/// A logic variable: its name, and the type of cells.
#[derive(Debug, Drop)]
pub enum LogicParameter {
    /// `set S: T`
    Set(Name, Name),
    /// `bool b`
    Bool(Name),
}
