//! The rows of assertions.

use super::symbols::{
    COLON, COMMA, DOT, EQUALS, LEFT_PAREN, MARK_PLACE, NAME, PUSH_NAME, ProgramSymbol, RIGHT_PAREN,
};
use ll1_reader::Symbol;
use pale_syntax::{Act, AtomAct, ConnectiveAct, ProgramKind, ProgramPart, WordAct};
use pale_text::Mark;

pub(super) static IFF_OF_IMPLICATIONS: [ProgramSymbol; 2] = [
    Symbol::Once(ProgramPart::Implication),
    Symbol::Many(ProgramPart::NextImplication),
];

pub(super) static IMPLICATION_AFTER_IFF: [ProgramSymbol; 3] = [
    Symbol::Read(ProgramKind::Mark(Mark::Equivalent)),
    Symbol::Once(ProgramPart::Implication),
    Symbol::Act(Act::Connective(ConnectiveAct::JoinIff)),
];

pub(super) static IMPLICATION_OF_CHAIN: [ProgramSymbol; 2] = [
    Symbol::Once(ProgramPart::OrChain),
    Symbol::Maybe(ProgramPart::Implied),
];

pub(super) static IMPLICATION_AFTER_ARROW: [ProgramSymbol; 4] = [
    Symbol::Open(ProgramKind::Mark(Mark::Implies)),
    MARK_PLACE,
    Symbol::Once(ProgramPart::Implication),
    Symbol::Act(Act::Connective(ConnectiveAct::MakeImp)),
];

pub(super) static OR_OF_AND_CHAINS: [ProgramSymbol; 2] = [
    Symbol::Once(ProgramPart::AndChain),
    Symbol::Many(ProgramPart::NextAndChain),
];

pub(super) static AND_CHAIN_AFTER_BAR: [ProgramSymbol; 3] = [
    Symbol::Read(ProgramKind::Mark(Mark::Bar)),
    Symbol::Once(ProgramPart::AndChain),
    Symbol::Act(Act::Connective(ConnectiveAct::JoinOr)),
];

pub(super) static AND_OF_NEGATIONS: [ProgramSymbol; 2] = [
    Symbol::Once(ProgramPart::Negation),
    Symbol::Many(ProgramPart::NextNegation),
];

pub(super) static NEGATION_AFTER_AMPERSAND: [ProgramSymbol; 3] = [
    Symbol::Read(ProgramKind::Mark(Mark::Ampersand)),
    Symbol::Once(ProgramPart::Negation),
    Symbol::Act(Act::Connective(ConnectiveAct::JoinAnd)),
];

pub(super) static NOT_ASSERTION: [ProgramSymbol; 4] = [
    Symbol::Open(ProgramKind::Mark(Mark::Tilde)),
    MARK_PLACE,
    Symbol::Once(ProgramPart::Negation),
    Symbol::Act(Act::Connective(ConnectiveAct::MakeNot)),
];

pub(super) static EX_QUANTIFIED: [ProgramSymbol; 3] = [
    Symbol::Open(ProgramKind::Ex),
    Symbol::Act(Act::Connective(ConnectiveAct::BeginEx)),
    Symbol::Once(ProgramPart::Quantified),
];

pub(super) static ALL_QUANTIFIED: [ProgramSymbol; 3] = [
    Symbol::Open(ProgramKind::All),
    Symbol::Act(Act::Connective(ConnectiveAct::BeginAll)),
    Symbol::Once(ProgramPart::Quantified),
];

pub(super) static PRIMARY_ALONE: [ProgramSymbol; 1] = [Symbol::Once(ProgramPart::Primary)];

pub(super) static BOUND_WITH_BODY: [ProgramSymbol; 11] = [
    Symbol::Maybe(ProgramPart::SetWord),
    NAME,
    PUSH_NAME,
    Symbol::Act(Act::Connective(ConnectiveAct::AddBound)),
    Symbol::Many(ProgramPart::NextBound),
    COLON,
    NAME,
    PUSH_NAME,
    COLON,
    Symbol::Once(ProgramPart::Iff),
    Symbol::Act(Act::Connective(ConnectiveAct::MakeQuantified)),
];

pub(super) static OVER_SETS: [ProgramSymbol; 2] = [
    Symbol::Read(ProgramKind::Set),
    Symbol::Act(Act::Connective(ConnectiveAct::BindsSets)),
];

pub(super) static BOUND_AFTER_COMMA: [ProgramSymbol; 4] = [
    COMMA,
    NAME,
    PUSH_NAME,
    Symbol::Act(Act::Connective(ConnectiveAct::AddBound)),
];

pub(super) static ASSERTION_GROUP: [ProgramSymbol; 3] = [
    Symbol::Open(ProgramKind::Mark(Mark::LeftParen)),
    Symbol::Once(ProgramPart::Iff),
    RIGHT_PAREN,
];

pub(super) static TRUE_PRIMARY: [ProgramSymbol; 2] = [
    Symbol::Read(ProgramKind::True),
    Symbol::Act(Act::Atom(AtomAct::TrueAssertion)),
];

pub(super) static FALSE_PRIMARY: [ProgramSymbol; 2] = [
    Symbol::Read(ProgramKind::False),
    Symbol::Act(Act::Atom(AtomAct::FalseAssertion)),
];

pub(super) static NULL_PRIMARY: [ProgramSymbol; 3] = [
    Symbol::Read(ProgramKind::Null),
    Symbol::Act(Act::Word(WordAct::PushNull)),
    Symbol::Once(ProgramPart::Relation),
];

pub(super) static NAME_PRIMARY: [ProgramSymbol; 5] = [
    NAME,
    PUSH_NAME,
    Symbol::Act(Act::Word(WordAct::StartPath)),
    Symbol::Act(Act::Atom(AtomAct::PathAlone)),
    Symbol::Maybe(ProgramPart::NameRest),
];

pub(super) static USE_OF_NAME: [ProgramSymbol; 4] = [
    LEFT_PAREN,
    Symbol::Maybe(ProgramPart::UsedPaths),
    RIGHT_PAREN,
    Symbol::Act(Act::Atom(AtomAct::MakeUse)),
];

pub(super) static LONGER_PATH: [ProgramSymbol; 3] = [
    Symbol::Once(ProgramPart::PathAloneStep),
    Symbol::Many(ProgramPart::PathAloneStep),
    Symbol::Maybe(ProgramPart::NameRelation),
];

pub(super) static RELATION_OF_NAME: [ProgramSymbol; 1] = [Symbol::Once(ProgramPart::NameRelation)];

pub(super) static USED_PATHS_IN_ORDER: [ProgramSymbol; 3] = [
    Symbol::Once(ProgramPart::Path),
    Symbol::Act(Act::Atom(AtomAct::AddUsedPath)),
    Symbol::Many(ProgramPart::NextUsedPath),
];

pub(super) static USED_PATH_AFTER_COMMA: [ProgramSymbol; 3] = [
    COMMA,
    Symbol::Once(ProgramPart::Path),
    Symbol::Act(Act::Atom(AtomAct::AddUsedPath)),
];

pub(super) static PATH_ALONE_AFTER_DOT: [ProgramSymbol; 4] = [
    DOT,
    NAME,
    PUSH_NAME,
    Symbol::Act(Act::Atom(AtomAct::ExtendPathAlone)),
];

pub(super) static RELATION_OF_PATH: [ProgramSymbol; 2] = [
    Symbol::Act(Act::Atom(AtomAct::TakePathBack)),
    Symbol::Once(ProgramPart::Relation),
];

pub(super) static SAME_TERM: [ProgramSymbol; 4] = [
    EQUALS,
    MARK_PLACE,
    Symbol::Once(ProgramPart::Term),
    Symbol::Act(Act::Atom(AtomAct::MakeSame)),
];

pub(super) static DIFFERENT_TERM: [ProgramSymbol; 4] = [
    Symbol::Read(ProgramKind::Mark(Mark::NotEqual)),
    MARK_PLACE,
    Symbol::Once(ProgramPart::Term),
    Symbol::Act(Act::Atom(AtomAct::MakeDiffer)),
];

pub(super) static MEMBER_OF_SET: [ProgramSymbol; 5] = [
    Symbol::Read(ProgramKind::In),
    MARK_PLACE,
    NAME,
    PUSH_NAME,
    Symbol::Act(Act::Atom(AtomAct::MakeMember)),
];

pub(super) static SUBSET_OF_SET: [ProgramSymbol; 5] = [
    Symbol::Read(ProgramKind::Sub),
    MARK_PLACE,
    NAME,
    PUSH_NAME,
    Symbol::Act(Act::Atom(AtomAct::MakeSubset)),
];

pub(super) static WALK_TO_TERM: [ProgramSymbol; 6] = [
    Symbol::Read(ProgramKind::Mark(Mark::Less)),
    MARK_PLACE,
    Symbol::Once(ProgramPart::Route),
    Symbol::Read(ProgramKind::Mark(Mark::Greater)),
    Symbol::Once(ProgramPart::Term),
    Symbol::Act(Act::Atom(AtomAct::MakeWalk)),
];

pub(super) static OF_THIS_VARIANT: [ProgramSymbol; 5] = [
    COLON,
    MARK_PLACE,
    NAME,
    PUSH_NAME,
    Symbol::Act(Act::Atom(AtomAct::MakeIs)),
];
