//! The trees of program text. A tree has what its text says, in order, and the places that refusals and reports name;
//! marks, and parentheses that only group, leave no trace.
//!
//! A chain of one operator, as `a & b & c`, is its first operand, which is no such chain itself, and the list of the
//! others. So a tree is as deep as its text has levels, however long the text is.

mod assertion;
mod condition;
mod declaration;
mod names;
mod route;
mod statement;

pub use assertion::{Assertion, Bracketed, Quantifier, QuantifierKind};
pub use condition::Condition;
pub use declaration::{
    Declaration, FieldDeclaration, FieldForm, LogicParameter, Parameter, PredicateDeclaration,
    PredicateParameter, Procedure, Program, TypeDeclaration, VariantDeclaration,
};
pub use names::{Name, Path, Term};
pub use route::Route;
pub use statement::{Argument, Block, Call, Statement, Value};
