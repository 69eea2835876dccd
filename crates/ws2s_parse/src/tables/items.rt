//! The rows of items.

use super::symbols::{COMMA, LEFT_PAREN, NAME, RIGHT_PAREN, SEMICOLON, SourceSymbol};
use crate::grammar::{ItemAct, SourceAct, SourceKind, SourcePart, TermAct};
use ll1_reader::Symbol;
use pale_text::Mark;

pub(super) static POSITIONS_DECLARED: [SourceSymbol; 4] = [
    Symbol::Read(SourceKind::Var1),
    Symbol::Once(SourcePart::Variables),
    Symbol::Act(SourceAct::Item(ItemAct::DeclarePositions)),
    SEMICOLON,
];

pub(super) static SETS_DECLARED: [SourceSymbol; 4] = [
    Symbol::Read(SourceKind::Var2),
    Symbol::Once(SourcePart::Variables),
    Symbol::Act(SourceAct::Item(ItemAct::DeclareSets)),
    SEMICOLON,
];

pub(super) static PREDICATE_DECLARED: [SourceSymbol; 10] = [
    Symbol::Read(SourceKind::Pred),
    NAME,
    Symbol::Act(SourceAct::Term(TermAct::PushName)),
    LEFT_PAREN,
    Symbol::Maybe(SourcePart::Parameters),
    RIGHT_PAREN,
    Symbol::Read(SourceKind::Mark(Mark::Equals)),
    Symbol::Once(SourcePart::Formula),
    SEMICOLON,
    Symbol::Act(SourceAct::Item(ItemAct::AddPredicate)),
];

pub(super) static FORMULA_STATED: [SourceSymbol; 3] = [
    Symbol::Once(SourcePart::Formula),
    SEMICOLON,
    Symbol::Act(SourceAct::Item(ItemAct::AddFormula)),
];

pub(super) static VARIABLES_IN_ORDER: [SourceSymbol; 3] = [
    NAME,
    Symbol::Act(SourceAct::Item(ItemAct::AddVariable)),
    Symbol::Many(SourcePart::NextVariable),
];

pub(super) static VARIABLE_AFTER_COMMA: [SourceSymbol; 3] = [
    COMMA,
    NAME,
    Symbol::Act(SourceAct::Item(ItemAct::AddVariable)),
];

pub(super) static PARAMETERS_IN_ORDER: [SourceSymbol; 2] = [
    Symbol::Once(SourcePart::Parameter),
    Symbol::Many(SourcePart::NextParameter),
];

pub(super) static PARAMETER_AFTER_COMMA: [SourceSymbol; 2] = [
    COMMA,
    Symbol::Once(SourcePart::Parameter),
];

pub(super) static POSITION_PARAMETER_DECLARED: [SourceSymbol; 3] = [
    Symbol::Read(SourceKind::Var1),
    NAME,
    Symbol::Act(SourceAct::Item(ItemAct::PositionParameter)),
];

pub(super) static SET_PARAMETER_DECLARED: [SourceSymbol; 3] = [
    Symbol::Read(SourceKind::Var2),
    NAME,
    Symbol::Act(SourceAct::Item(ItemAct::SetParameter)),
];
