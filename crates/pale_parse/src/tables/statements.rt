//! The rows of statements and calls.

use super::symbols::{
    COLON, COMMA, EQUALS, LEFT_PAREN, MARK_PLACE, NAME, PUSH_NAME, ProgramSymbol, RIGHT_BRACE,
    RIGHT_PAREN, SEMICOLON,
};
use ll1_reader::Symbol;
use pale_syntax::{Act, CallAct, ProgramKind, ProgramPart, StatementAct, WordAct};
use pale_text::Mark;

pub(super) static BLOCK_OF_STATEMENTS: [ProgramSymbol; 4] = [
    Symbol::Open(ProgramKind::Mark(Mark::LeftBrace)),
    Symbol::Act(Act::Statement(StatementAct::BeginBlock)),
    Symbol::Many(ProgramPart::Statement),
    RIGHT_BRACE,
];

pub(super) static SKIP: [ProgramSymbol; 4] = [
    Symbol::Read(ProgramKind::Skip),
    MARK_PLACE,
    Symbol::Act(Act::Statement(StatementAct::MakeSkip)),
    SEMICOLON,
];

pub(super) static IF: [ProgramSymbol; 9] = [
    Symbol::Read(ProgramKind::If),
    MARK_PLACE,
    LEFT_PAREN,
    Symbol::Once(ProgramPart::Condition),
    RIGHT_PAREN,
    Symbol::Once(ProgramPart::Block),
    Symbol::Act(Act::Statement(StatementAct::NoElse)),
    Symbol::Maybe(ProgramPart::Else),
    Symbol::Act(Act::Statement(StatementAct::MakeIf)),
];

pub(super) static WHILE: [ProgramSymbol; 8] = [
    Symbol::Read(ProgramKind::While),
    MARK_PLACE,
    LEFT_PAREN,
    Symbol::Once(ProgramPart::Condition),
    RIGHT_PAREN,
    Symbol::Once(ProgramPart::Bracketed),
    Symbol::Once(ProgramPart::Block),
    Symbol::Act(Act::Statement(StatementAct::MakeWhile)),
];

pub(super) static SPLIT: [ProgramSymbol; 5] = [
    Symbol::Read(ProgramKind::Split),
    MARK_PLACE,
    Symbol::Once(ProgramPart::Bracketed),
    SEMICOLON,
    Symbol::Act(Act::Statement(StatementAct::MakeSplit)),
];

pub(super) static ASSERT: [ProgramSymbol; 5] = [
    Symbol::Read(ProgramKind::Assert),
    MARK_PLACE,
    Symbol::Once(ProgramPart::Bracketed),
    SEMICOLON,
    Symbol::Act(Act::Statement(StatementAct::MakeAssert)),
];

pub(super) static FREE: [ProgramSymbol; 6] = [
    Symbol::Read(ProgramKind::Free),
    MARK_PLACE,
    NAME,
    PUSH_NAME,
    SEMICOLON,
    Symbol::Act(Act::Statement(StatementAct::MakeFree)),
];

pub(super) static CALL: [ProgramSymbol; 7] = [
    Symbol::Read(ProgramKind::Call),
    MARK_PLACE,
    NAME,
    PUSH_NAME,
    Symbol::Once(ProgramPart::CallRest),
    SEMICOLON,
    Symbol::Act(Act::Call(CallAct::MakeCall)),
];

pub(super) static ASSIGN: [ProgramSymbol; 6] = [
    Symbol::Once(ProgramPart::Path),
    EQUALS,
    MARK_PLACE,
    Symbol::Once(ProgramPart::Value),
    SEMICOLON,
    Symbol::Act(Act::Statement(StatementAct::MakeAssign)),
];

pub(super) static ELSE_BLOCK: [ProgramSymbol; 3] = [
    Symbol::Read(ProgramKind::Else),
    Symbol::Once(ProgramPart::Block),
    Symbol::Act(Act::Statement(StatementAct::SetElse)),
];

pub(super) static CALL_WITHOUT_RESULTS: [ProgramSymbol; 2] = [
    LEFT_PAREN,
    Symbol::Once(ProgramPart::Arguments),
];

pub(super) static CALL_WITH_RESULTS: [ProgramSymbol; 7] = [
    Symbol::Act(Act::Call(CallAct::TakeResult)),
    Symbol::Many(ProgramPart::NextResult),
    EQUALS,
    NAME,
    PUSH_NAME,
    LEFT_PAREN,
    Symbol::Once(ProgramPart::Arguments),
];

pub(super) static RESULT_AFTER_COMMA: [ProgramSymbol; 4] = [
    COMMA,
    NAME,
    PUSH_NAME,
    Symbol::Act(Act::Call(CallAct::TakeResult)),
];

pub(super) static ARGUMENTS_OF_BOTH_KINDS: [ProgramSymbol; 5] = [
    Symbol::Maybe(ProgramPart::Argued),
    Symbol::Act(Act::Call(CallAct::TakeArguments)),
    Symbol::Maybe(ProgramPart::LogicArguments),
    RIGHT_PAREN,
    Symbol::Maybe(ProgramPart::Keep),
];

pub(super) static ARGUMENTS_IN_ORDER: [ProgramSymbol; 2] = [
    Symbol::Once(ProgramPart::Argument),
    Symbol::Many(ProgramPart::NextArgument),
];

pub(super) static ARGUMENT_AFTER_COMMA: [ProgramSymbol; 2] = [
    COMMA,
    Symbol::Once(ProgramPart::Argument),
];

pub(super) static LOGIC_ARGUMENTS_IN_ORDER: [ProgramSymbol; 3] = [
    SEMICOLON,
    Symbol::Once(ProgramPart::Argument),
    Symbol::Many(ProgramPart::NextArgument),
];

pub(super) static A_NAME_ARGUMENT: [ProgramSymbol; 3] = [
    NAME,
    PUSH_NAME,
    Symbol::Act(Act::Call(CallAct::NameArgument)),
];

pub(super) static A_NULL_ARGUMENT: [ProgramSymbol; 2] = [
    Symbol::Read(ProgramKind::Null),
    Symbol::Act(Act::Call(CallAct::NullArgument)),
];

pub(super) static A_TRUE_ARGUMENT: [ProgramSymbol; 2] = [
    Symbol::Read(ProgramKind::True),
    Symbol::Act(Act::Call(CallAct::TrueArgument)),
];

pub(super) static A_FALSE_ARGUMENT: [ProgramSymbol; 2] = [
    Symbol::Read(ProgramKind::False),
    Symbol::Act(Act::Call(CallAct::FalseArgument)),
];

pub(super) static KEPT: [ProgramSymbol; 3] = [
    Symbol::Read(ProgramKind::Keep),
    Symbol::Once(ProgramPart::Bracketed),
    Symbol::Act(Act::Call(CallAct::SetKeep)),
];

pub(super) static NEW_CELL: [ProgramSymbol; 6] = [
    Symbol::Read(ProgramKind::New),
    MARK_PLACE,
    NAME,
    PUSH_NAME,
    Symbol::Act(Act::Statement(StatementAct::MakeNew)),
    Symbol::Maybe(ProgramPart::NewVariant),
];

pub(super) static CONDITION_VALUE: [ProgramSymbol; 3] = [
    Symbol::Act(Act::Word(WordAct::MarkNext)),
    Symbol::Once(ProgramPart::Condition),
    Symbol::Act(Act::Statement(StatementAct::MakeValue)),
];

pub(super) static VARIANT_OF_NEW: [ProgramSymbol; 4] = [
    COLON,
    NAME,
    PUSH_NAME,
    Symbol::Act(Act::Statement(StatementAct::NarrowNew)),
];
