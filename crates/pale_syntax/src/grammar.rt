//! The grammar of programs, whose rows stand in `specs/ProgramGrammar.antt`: kinds of tokens, parts and acts.

mod act;
mod kind;
mod part;

pub use act::{
    Act, AtomAct, CallAct, ConditionAct, ConnectiveAct, PredicateAct, ProcedureAct, RouteAct,
    StatementAct, TypeAct, WordAct,
};
pub use kind::ProgramKind;
pub use part::ProgramPart;
