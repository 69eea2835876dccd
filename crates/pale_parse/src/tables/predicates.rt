//! The rows of predicates.

use super::symbols::{
    COLON, COMMA, EQUALS, LEFT_PAREN, MARK_PLACE, NAME, PUSH_NAME, ProgramSymbol, RIGHT_PAREN,
    SEMICOLON,
};
use ll1_reader::Symbol;
use pale_syntax::{Act, ConnectiveAct, PredicateAct, ProgramKind, ProgramPart};
use pale_text::Mark;

pub(super) static PREDICATE_DECLARED: [ProgramSymbol; 10] = [
    Symbol::Read(ProgramKind::Pred),
    NAME,
    PUSH_NAME,
    LEFT_PAREN,
    Symbol::Maybe(ProgramPart::PredicateParameters),
    RIGHT_PAREN,
    EQUALS,
    Symbol::Once(ProgramPart::Bracketed),
    SEMICOLON,
    Symbol::Act(Act::Predicate(PredicateAct::AddPredicate)),
];

pub(super) static PREDICATE_PARAMETERS_IN_ORDER: [ProgramSymbol; 2] = [
    Symbol::Once(ProgramPart::PredicateParameter),
    Symbol::Many(ProgramPart::NextPredicateParameter),
];

pub(super) static PREDICATE_PARAMETER_AFTER_COMMA: [ProgramSymbol; 2] = [
    COMMA,
    Symbol::Once(ProgramPart::PredicateParameter),
];

pub(super) static CELL_DECLARED: [ProgramSymbol; 6] = [
    NAME,
    PUSH_NAME,
    COLON,
    NAME,
    PUSH_NAME,
    Symbol::Act(Act::Predicate(PredicateAct::CellParameter)),
];

pub(super) static SET_DECLARED: [ProgramSymbol; 7] = [
    Symbol::Read(ProgramKind::Set),
    NAME,
    PUSH_NAME,
    COLON,
    NAME,
    PUSH_NAME,
    Symbol::Act(Act::Predicate(PredicateAct::SetParameter)),
];

pub(super) static BOOL_DECLARED: [ProgramSymbol; 4] = [
    Symbol::Read(ProgramKind::Bool),
    NAME,
    PUSH_NAME,
    Symbol::Act(Act::Predicate(PredicateAct::BoolParameter)),
];

pub(super) static ASSERTION_IN_BRACKETS: [ProgramSymbol; 5] = [
    Symbol::Read(ProgramKind::Mark(Mark::LeftBracket)),
    MARK_PLACE,
    Symbol::Once(ProgramPart::Iff),
    Symbol::Read(ProgramKind::Mark(Mark::RightBracket)),
    Symbol::Act(Act::Connective(ConnectiveAct::Bracket)),
];
