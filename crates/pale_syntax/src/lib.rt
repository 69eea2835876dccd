//! Programs: their trees, and the grammar by which tokens are one.
//!
//! `specs/ProgramGrammar.antt` has the grammar, row by row, with the acts that stand between its tokens;
//! `specs/Making.antt` says what each act makes, and `specs/ProgramReading.antt` which tokens are which program. Parser and
//! printer of programs stand on these types and definitions, and a crate that looks at programs needs no other.
#![tactic(auto)]

mod grammar;
mod tree;

pub use grammar::{
    Act, AtomAct, CallAct, ConditionAct, ConnectiveAct, PredicateAct, ProcedureAct, ProgramKind,
    ProgramPart, RouteAct, StatementAct, TypeAct, WordAct,
};
pub use tree::{
    Argument, Assertion, Block, Bracketed, Call, Condition, Declaration, FieldDeclaration,
    FieldForm, LogicParameter, Name, Parameter, Path, PredicateDeclaration, PredicateParameter,
    Procedure, Program, Quantifier, QuantifierKind, Route, Statement, Term, TypeDeclaration, Value,
    VariantDeclaration,
};
