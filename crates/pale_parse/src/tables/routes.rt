//! The rows of routes.

use super::symbols::{COLON, DOT, NAME, PUSH_NAME, ProgramSymbol, RIGHT_PAREN};
use ll1_reader::Symbol;
use pale_syntax::{Act, ProgramKind, ProgramPart, RouteAct};
use pale_text::Mark;

pub(super) static ROUTE_OF_SEQUENCES: [ProgramSymbol; 2] = [
    Symbol::Once(ProgramPart::Sequence),
    Symbol::Many(ProgramPart::NextAlternative),
];

pub(super) static ALTERNATIVE_AFTER_PLUS: [ProgramSymbol; 3] = [
    Symbol::Read(ProgramKind::Mark(Mark::Plus)),
    Symbol::Once(ProgramPart::Sequence),
    Symbol::Act(Act::Route(RouteAct::JoinOr)),
];

pub(super) static SEQUENCE_OF_REPEATED: [ProgramSymbol; 2] = [
    Symbol::Once(ProgramPart::Repeated),
    Symbol::Many(ProgramPart::NextRepeated),
];

pub(super) static REPEATED_AFTER_DOT: [ProgramSymbol; 3] = [
    DOT,
    Symbol::Once(ProgramPart::Repeated),
    Symbol::Act(Act::Route(RouteAct::JoinThen)),
];

pub(super) static STEP_WITH_STARS: [ProgramSymbol; 2] = [
    Symbol::Once(ProgramPart::Step),
    Symbol::Many(ProgramPart::Star),
];

pub(super) static ONE_STAR: [ProgramSymbol; 2] = [
    Symbol::Read(ProgramKind::Mark(Mark::Star)),
    Symbol::Act(Act::Route(RouteAct::AddStar)),
];

pub(super) static STEP_DOWN: [ProgramSymbol; 3] = [
    NAME,
    PUSH_NAME,
    Symbol::Act(Act::Route(RouteAct::Down)),
];

pub(super) static STEP_UP: [ProgramSymbol; 3] = [
    Symbol::Read(ProgramKind::Mark(Mark::Caret)),
    Symbol::Act(Act::Route(RouteAct::UpAny)),
    Symbol::Maybe(ProgramPart::UpName),
];

pub(super) static LEAF_TEST: [ProgramSymbol; 2] = [
    Symbol::Read(ProgramKind::Mark(Mark::Dollar)),
    Symbol::Act(Act::Route(RouteAct::Leaf)),
];

pub(super) static ROOT_TEST: [ProgramSymbol; 2] = [
    Symbol::Read(ProgramKind::Root),
    Symbol::Act(Act::Route(RouteAct::Root)),
];

pub(super) static TYPE_TEST: [ProgramSymbol; 5] = [
    Symbol::Read(ProgramKind::Mark(Mark::At)),
    NAME,
    PUSH_NAME,
    Symbol::Act(Act::Route(RouteAct::IsType)),
    Symbol::Maybe(ProgramPart::VariantTest),
];

pub(super) static TRUE_TEST: [ProgramSymbol; 4] = [
    Symbol::Read(ProgramKind::Mark(Mark::Question)),
    NAME,
    PUSH_NAME,
    Symbol::Act(Act::Route(RouteAct::IsTrue)),
];

pub(super) static FALSE_TEST: [ProgramSymbol; 4] = [
    Symbol::Read(ProgramKind::Mark(Mark::Bang)),
    NAME,
    PUSH_NAME,
    Symbol::Act(Act::Route(RouteAct::IsFalse)),
];

pub(super) static ROUTE_GROUP: [ProgramSymbol; 3] = [
    Symbol::Open(ProgramKind::Mark(Mark::LeftParen)),
    Symbol::Once(ProgramPart::Route),
    RIGHT_PAREN,
];

pub(super) static UP_BY_NAME: [ProgramSymbol; 3] = [
    NAME,
    PUSH_NAME,
    Symbol::Act(Act::Route(RouteAct::NameUp)),
];

pub(super) static TESTED_VARIANT: [ProgramSymbol; 4] = [
    COLON,
    NAME,
    PUSH_NAME,
    Symbol::Act(Act::Route(RouteAct::NarrowToVariant)),
];
