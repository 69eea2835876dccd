//! The parts of typed programs.

use pale_calls::ActualList;
use pale_text::{ByteList, Pos};
use plain_data::Items;
use store_core::VarTable;
use store_logic::{Act, Assertion, Cond, VarList};

/// `call r = p(x; S) keep [F];`
#[derive(Debug, Drop)]
pub struct CallParts {
    /// The number of the procedure, counted from 0 in order of the text.
    pub callee: u32,
    pub results: VarList,
    pub args: ActualList,
    pub logics: ActualList,
    /// What is left out is true.
    pub keep: Assertion,
}

/// Statements in order.
pub type StmtList = Items<Stmt>;

/// A statement with its names looked up and predicates put in. A number that stands first is its line, and a place that of its
/// keyword.
#[derive(Debug, Drop)]
pub enum Stmt {
    Skip,
    /// An assignment, `free` or `assert`.
    Do(u32, Act),
    /// A condition, and what is done where it is true and where it is false.
    If(u32, Cond, StmtList, StmtList),
    /// A condition, the invariant and the body.
    While(Pos, Cond, Assertion, StmtList),
    Split(Pos, Assertion),
    Call(Pos, CallParts),
}

/// A procedure with its names looked up and predicates put in.
#[derive(Debug, Drop)]
pub struct TypedProc {
    pub name: ByteList,
    /// The place of `proc`.
    pub place: Pos,
    /// The line of the last `}`.
    pub last: u32,
    pub params: VarList,
    pub results: VarList,
    pub locals: VarList,
    pub logics: VarList,
    /// What is left out is true.
    pub pre: Assertion,
    /// What is left out is true.
    pub post: Assertion,
    pub body: StmtList,
}

/// A procedure and the table of its variables.
#[derive(Drop)]
pub struct ProcEntry {
    pub vars: VarTable,
    pub proc: TypedProc,
}
