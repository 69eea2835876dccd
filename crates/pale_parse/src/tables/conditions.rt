//! The rows of conditions.

use super::symbols::{COLON, DOT, MARK_PLACE, NAME, PUSH_NAME, ProgramSymbol, RIGHT_PAREN};
use ll1_reader::Symbol;
use pale_syntax::{Act, ConditionAct, ProgramKind, ProgramPart, WordAct};
use pale_text::Mark;

pub(super) static CONDITION_OF_CONJUNCTIONS: [ProgramSymbol; 2] = [
    Symbol::Once(ProgramPart::Conjunction),
    Symbol::Many(ProgramPart::NextConjunction),
];

pub(super) static CONJUNCTION_AFTER_OR: [ProgramSymbol; 3] = [
    Symbol::Read(ProgramKind::Mark(Mark::OrElse)),
    Symbol::Once(ProgramPart::Conjunction),
    Symbol::Act(Act::Condition(ConditionAct::JoinOrElse)),
];

pub(super) static CONJUNCTION_OF_LITERALS: [ProgramSymbol; 2] = [
    Symbol::Once(ProgramPart::Literal),
    Symbol::Many(ProgramPart::NextLiteral),
];

pub(super) static LITERAL_AFTER_AND: [ProgramSymbol; 3] = [
    Symbol::Read(ProgramKind::Mark(Mark::AndAlso)),
    Symbol::Once(ProgramPart::Literal),
    Symbol::Act(Act::Condition(ConditionAct::JoinAndAlso)),
];

pub(super) static NOT_LITERAL: [ProgramSymbol; 4] = [
    Symbol::Open(ProgramKind::Mark(Mark::Bang)),
    MARK_PLACE,
    Symbol::Once(ProgramPart::Literal),
    Symbol::Act(Act::Condition(ConditionAct::NotCondition)),
];

pub(super) static CONDITION_GROUP: [ProgramSymbol; 3] = [
    Symbol::Open(ProgramKind::Mark(Mark::LeftParen)),
    Symbol::Once(ProgramPart::Condition),
    RIGHT_PAREN,
];

pub(super) static TRUE_LITERAL: [ProgramSymbol; 2] = [
    Symbol::Read(ProgramKind::True),
    Symbol::Act(Act::Condition(ConditionAct::TrueCondition)),
];

pub(super) static FALSE_LITERAL: [ProgramSymbol; 2] = [
    Symbol::Read(ProgramKind::False),
    Symbol::Act(Act::Condition(ConditionAct::FalseCondition)),
];

pub(super) static TERM_LITERAL: [ProgramSymbol; 3] = [
    Symbol::Once(ProgramPart::Term),
    Symbol::Act(Act::Condition(ConditionAct::TermAlone)),
    Symbol::Maybe(ProgramPart::LiteralRelation),
];

pub(super) static SAME_LITERAL: [ProgramSymbol; 5] = [
    Symbol::Act(Act::Condition(ConditionAct::TakeTermBack)),
    Symbol::Read(ProgramKind::Mark(Mark::SameAs)),
    MARK_PLACE,
    Symbol::Once(ProgramPart::Term),
    Symbol::Act(Act::Condition(ConditionAct::SameAs)),
];

pub(super) static NOT_SAME_LITERAL: [ProgramSymbol; 5] = [
    Symbol::Act(Act::Condition(ConditionAct::TakeTermBack)),
    Symbol::Read(ProgramKind::Mark(Mark::NotSame)),
    MARK_PLACE,
    Symbol::Once(ProgramPart::Term),
    Symbol::Act(Act::Condition(ConditionAct::NotSameAs)),
];

pub(super) static VARIANT_LITERAL: [ProgramSymbol; 6] = [
    Symbol::Act(Act::Condition(ConditionAct::TakeTermBack)),
    COLON,
    MARK_PLACE,
    NAME,
    PUSH_NAME,
    Symbol::Act(Act::Condition(ConditionAct::OfVariant)),
];

pub(super) static NULL_TERM: [ProgramSymbol; 2] = [
    Symbol::Read(ProgramKind::Null),
    Symbol::Act(Act::Word(WordAct::PushNull)),
];

pub(super) static PATH_AS_TERM: [ProgramSymbol; 2] = [
    Symbol::Once(ProgramPart::Path),
    Symbol::Act(Act::Word(WordAct::PathTerm)),
];

pub(super) static PATH_OF_STEPS: [ProgramSymbol; 4] = [
    NAME,
    PUSH_NAME,
    Symbol::Act(Act::Word(WordAct::StartPath)),
    Symbol::Many(ProgramPart::PathStep),
];

pub(super) static NAME_AFTER_DOT: [ProgramSymbol; 4] = [
    DOT,
    NAME,
    PUSH_NAME,
    Symbol::Act(Act::Word(WordAct::ExtendPath)),
];
