//! The rows of declarations and types.

use super::symbols::{
    COLON, EQUALS, MARK_PLACE, NAME, PUSH_NAME, ProgramSymbol, RIGHT_BRACE, SEMICOLON,
};
use ll1_reader::Symbol;
use pale_syntax::{Act, ProgramKind, ProgramPart, TypeAct};
use pale_text::Mark;

pub(super) static A_TYPE_DECLARATION: [ProgramSymbol; 1] = [Symbol::Once(ProgramPart::Type)];

pub(super) static A_PREDICATE_DECLARATION: [ProgramSymbol; 1] = [Symbol::Once(
    ProgramPart::Predicate,
)];

pub(super) static A_PROCEDURE_DECLARATION: [ProgramSymbol; 1] = [Symbol::Once(
    ProgramPart::Procedure,
)];

pub(super) static TYPE_DECLARED: [ProgramSymbol; 10] = [
    Symbol::Read(ProgramKind::Type),
    NAME,
    PUSH_NAME,
    EQUALS,
    Symbol::Read(ProgramKind::Mark(Mark::LeftBrace)),
    Symbol::Many(ProgramPart::Field),
    Symbol::Act(Act::Type(TypeAct::EndCommon)),
    RIGHT_BRACE,
    Symbol::Many(ProgramPart::Variant),
    Symbol::Act(Act::Type(TypeAct::AddType)),
];

pub(super) static VARIANT_DECLARED: [ProgramSymbol; 7] = [
    Symbol::Read(ProgramKind::Mark(Mark::Bar)),
    NAME,
    PUSH_NAME,
    Symbol::Read(ProgramKind::Mark(Mark::LeftBrace)),
    Symbol::Many(ProgramPart::Field),
    RIGHT_BRACE,
    Symbol::Act(Act::Type(TypeAct::AddVariant)),
];

pub(super) static BOOL_FIELD_DECLARED: [ProgramSymbol; 5] = [
    Symbol::Read(ProgramKind::Bool),
    NAME,
    PUSH_NAME,
    Symbol::Act(Act::Type(TypeAct::BoolField)),
    SEMICOLON,
];

pub(super) static DATA_FIELD_DECLARED: [ProgramSymbol; 8] = [
    Symbol::Read(ProgramKind::Data),
    NAME,
    PUSH_NAME,
    COLON,
    NAME,
    PUSH_NAME,
    Symbol::Act(Act::Type(TypeAct::DataField)),
    SEMICOLON,
];

pub(super) static POINTER_FIELD_DECLARED: [ProgramSymbol; 12] = [
    Symbol::Read(ProgramKind::Pointer),
    NAME,
    PUSH_NAME,
    COLON,
    NAME,
    PUSH_NAME,
    Symbol::Read(ProgramKind::Mark(Mark::LeftBracket)),
    MARK_PLACE,
    Symbol::Once(ProgramPart::Route),
    Symbol::Read(ProgramKind::Mark(Mark::RightBracket)),
    Symbol::Act(Act::Type(TypeAct::PointerField)),
    SEMICOLON,
];
