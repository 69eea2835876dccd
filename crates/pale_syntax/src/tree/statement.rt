//! Statements.

use crate::tree::assertion::Bracketed;
use crate::tree::condition::Condition;
use crate::tree::names::{Name, Path};
use pale_text::Pos;
use plain_data::Items;

/// `{ .. }`: statements in order.
pub type Block = Items<Statement>;

/// A statement. A place that stands first is that of the statement's keyword.
#[derive(Debug, Drop)]
pub enum Statement {
    Skip(Pos),
    /// `if (c) { .. } else { .. }`; the block of `else` where there is one.
    If(Pos, Condition, Block, Option<Block>),
    /// `while (c) [a] { .. }`, with its invariant.
    While(Pos, Condition, Bracketed, Block),
    Split(Pos, Bracketed),
    Assert(Pos, Bracketed),
    /// `free x;`
    Free(Pos, Name),
    Call(Call),
    /// `p = ..;`, with the place of the `=`.
    Assign(Path, Pos, Value),
}

/// What is assigned.
#[derive(Debug, Drop)]
pub enum Value {
    /// `new T` or `new T:v`: the place of `new`, the type and the variant.
    New(Pos, Name, Option<Name>),
    /// A condition, and the place of its first token.
    Condition(Pos, Condition),
}

/// `call r, s = p(x, null; S, true) keep [a];`
#[derive(Debug, Drop)]
pub struct Call {
    /// The place of `call`.
    pub place: Pos,
    /// The variables that take the results.
    pub results: Items<Name>,
    /// The procedure.
    pub callee: Name,
    /// What stands before the `;`.
    pub arguments: Items<Argument>,
    /// What stands behind the `;`, for the logic variables.
    pub logics: Items<Argument>,
    /// What follows `keep`.
    pub keep: Option<Bracketed>,
}

/// What is handed to a procedure.
#[derive(Debug, Drop)]
pub enum Argument {
    Name(Name),
    /// `null`, and its place.
    Null(Pos),
    /// `true` or `false`, and its place.
    Truth(Pos, bool),
}
