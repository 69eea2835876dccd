//! The rows of procedures.

use super::symbols::{
    COLON, COMMA, LEFT_PAREN, MARK_PLACE, NAME, PUSH_NAME, ProgramSymbol, RIGHT_BRACE, RIGHT_PAREN,
    SEMICOLON,
};
use ll1_reader::Symbol;
use pale_syntax::{Act, ProcedureAct, ProgramKind, ProgramPart, StatementAct};
use pale_text::Mark;

pub(super) static PROCEDURE_DECLARED: [ProgramSymbol; 19] = [
    Symbol::Read(ProgramKind::Proc),
    MARK_PLACE,
    NAME,
    PUSH_NAME,
    LEFT_PAREN,
    Symbol::Maybe(ProgramPart::Parameters),
    RIGHT_PAREN,
    Symbol::Act(Act::Procedure(ProcedureAct::TakeParameters)),
    Symbol::Maybe(ProgramPart::Returns),
    Symbol::Maybe(ProgramPart::Logic),
    Symbol::Maybe(ProgramPart::Pre),
    Symbol::Maybe(ProgramPart::Post),
    Symbol::Open(ProgramKind::Mark(Mark::LeftBrace)),
    Symbol::Act(Act::Statement(StatementAct::BeginBlock)),
    Symbol::Many(ProgramPart::Local),
    Symbol::Many(ProgramPart::Statement),
    RIGHT_BRACE,
    MARK_PLACE,
    Symbol::Act(Act::Procedure(ProcedureAct::AddProcedure)),
];

pub(super) static RESULTS_DECLARED: [ProgramSymbol; 5] = [
    Symbol::Read(ProgramKind::Returns),
    LEFT_PAREN,
    Symbol::Once(ProgramPart::Parameters),
    RIGHT_PAREN,
    Symbol::Act(Act::Procedure(ProcedureAct::TakeResults)),
];

pub(super) static LOGIC_DECLARED: [ProgramSymbol; 3] = [
    Symbol::Read(ProgramKind::Logic),
    Symbol::Once(ProgramPart::LogicParameter),
    Symbol::Many(ProgramPart::NextLogicParameter),
];

pub(super) static LOGIC_PARAMETER_AFTER_COMMA: [ProgramSymbol; 2] = [
    COMMA,
    Symbol::Once(ProgramPart::LogicParameter),
];

pub(super) static LOGIC_SET_DECLARED: [ProgramSymbol; 7] = [
    Symbol::Read(ProgramKind::Set),
    NAME,
    PUSH_NAME,
    COLON,
    NAME,
    PUSH_NAME,
    Symbol::Act(Act::Procedure(ProcedureAct::LogicSet)),
];

pub(super) static LOGIC_BOOL_DECLARED: [ProgramSymbol; 4] = [
    Symbol::Read(ProgramKind::Bool),
    NAME,
    PUSH_NAME,
    Symbol::Act(Act::Procedure(ProcedureAct::LogicBool)),
];

pub(super) static PRE_DECLARED: [ProgramSymbol; 3] = [
    Symbol::Read(ProgramKind::Pre),
    Symbol::Once(ProgramPart::Bracketed),
    Symbol::Act(Act::Procedure(ProcedureAct::SetPre)),
];

pub(super) static POST_DECLARED: [ProgramSymbol; 3] = [
    Symbol::Read(ProgramKind::Post),
    Symbol::Once(ProgramPart::Bracketed),
    Symbol::Act(Act::Procedure(ProcedureAct::SetPost)),
];

pub(super) static PARAMETERS_IN_ORDER: [ProgramSymbol; 2] = [
    Symbol::Once(ProgramPart::Parameter),
    Symbol::Many(ProgramPart::NextParameter),
];

pub(super) static PARAMETER_AFTER_COMMA: [ProgramSymbol; 2] = [
    COMMA,
    Symbol::Once(ProgramPart::Parameter),
];

pub(super) static DATA_DECLARED: [ProgramSymbol; 7] = [
    Symbol::Read(ProgramKind::Data),
    NAME,
    PUSH_NAME,
    COLON,
    NAME,
    PUSH_NAME,
    Symbol::Act(Act::Procedure(ProcedureAct::DataParameter)),
];

pub(super) static POINTER_DECLARED: [ProgramSymbol; 7] = [
    Symbol::Read(ProgramKind::Pointer),
    NAME,
    PUSH_NAME,
    COLON,
    NAME,
    PUSH_NAME,
    Symbol::Act(Act::Procedure(ProcedureAct::PointerParameter)),
];

pub(super) static BOOL_VARIABLE_DECLARED: [ProgramSymbol; 4] = [
    Symbol::Read(ProgramKind::Bool),
    NAME,
    PUSH_NAME,
    Symbol::Act(Act::Procedure(ProcedureAct::BoolVariable)),
];

pub(super) static LOCAL_DECLARED: [ProgramSymbol; 2] = [
    Symbol::Once(ProgramPart::Parameter),
    SEMICOLON,
];
