//! The rows of formulas and terms.

use super::symbols::{COMMA, LEFT_PAREN, NAME, RIGHT_PAREN, SourceSymbol};
use crate::grammar::{AtomAct, ConnectiveAct, SourceAct, SourceKind, SourcePart, TermAct};
use ll1_reader::Symbol;
use pale_text::Mark;

pub(super) static IFF_OF_IMPLICATIONS: [SourceSymbol; 2] = [
    Symbol::Once(SourcePart::Implication),
    Symbol::Many(SourcePart::NextImplication),
];

pub(super) static IMPLICATION_AFTER_IFF: [SourceSymbol; 3] = [
    Symbol::Read(SourceKind::Mark(Mark::Equivalent)),
    Symbol::Once(SourcePart::Implication),
    Symbol::Act(SourceAct::Connective(ConnectiveAct::JoinIff)),
];

pub(super) static IMPLICATION_OF_CHAIN: [SourceSymbol; 2] = [
    Symbol::Once(SourcePart::OrChain),
    Symbol::Maybe(SourcePart::Implied),
];

pub(super) static IMPLICATION_AFTER_ARROW: [SourceSymbol; 3] = [
    Symbol::Open(SourceKind::Mark(Mark::Implies)),
    Symbol::Once(SourcePart::Implication),
    Symbol::Act(SourceAct::Connective(ConnectiveAct::MakeImplies)),
];

pub(super) static OR_OF_AND_CHAINS: [SourceSymbol; 2] = [
    Symbol::Once(SourcePart::AndChain),
    Symbol::Many(SourcePart::NextAndChain),
];

pub(super) static AND_CHAIN_AFTER_BAR: [SourceSymbol; 3] = [
    Symbol::Read(SourceKind::Mark(Mark::Bar)),
    Symbol::Once(SourcePart::AndChain),
    Symbol::Act(SourceAct::Connective(ConnectiveAct::JoinOr)),
];

pub(super) static AND_OF_NEGATIONS: [SourceSymbol; 2] = [
    Symbol::Once(SourcePart::Negation),
    Symbol::Many(SourcePart::NextNegation),
];

pub(super) static NEGATION_AFTER_AMPERSAND: [SourceSymbol; 3] = [
    Symbol::Read(SourceKind::Mark(Mark::Ampersand)),
    Symbol::Once(SourcePart::Negation),
    Symbol::Act(SourceAct::Connective(ConnectiveAct::JoinAnd)),
];

pub(super) static NOT_FORMULA: [SourceSymbol; 3] = [
    Symbol::Open(SourceKind::Mark(Mark::Tilde)),
    Symbol::Once(SourcePart::Negation),
    Symbol::Act(SourceAct::Connective(ConnectiveAct::MakeNot)),
];

pub(super) static EX1_BOUND: [SourceSymbol; 3] = [
    Symbol::Open(SourceKind::Ex1),
    Symbol::Act(SourceAct::Connective(ConnectiveAct::BeginEx1)),
    Symbol::Once(SourcePart::Bound),
];

pub(super) static ALL1_BOUND: [SourceSymbol; 3] = [
    Symbol::Open(SourceKind::All1),
    Symbol::Act(SourceAct::Connective(ConnectiveAct::BeginAll1)),
    Symbol::Once(SourcePart::Bound),
];

pub(super) static EX2_BOUND: [SourceSymbol; 3] = [
    Symbol::Open(SourceKind::Ex2),
    Symbol::Act(SourceAct::Connective(ConnectiveAct::BeginEx2)),
    Symbol::Once(SourcePart::Bound),
];

pub(super) static ALL2_BOUND: [SourceSymbol; 3] = [
    Symbol::Open(SourceKind::All2),
    Symbol::Act(SourceAct::Connective(ConnectiveAct::BeginAll2)),
    Symbol::Once(SourcePart::Bound),
];

pub(super) static PRIMARY_ALONE: [SourceSymbol; 1] = [Symbol::Once(SourcePart::Primary)];

pub(super) static BOUND_WITH_BODY: [SourceSymbol; 6] = [
    NAME,
    Symbol::Act(SourceAct::Connective(ConnectiveAct::AddBound)),
    Symbol::Many(SourcePart::NextBound),
    Symbol::Read(SourceKind::Mark(Mark::Colon)),
    Symbol::Once(SourcePart::Formula),
    Symbol::Act(SourceAct::Connective(ConnectiveAct::MakeQuantified)),
];

pub(super) static BOUND_AFTER_COMMA: [SourceSymbol; 3] = [
    COMMA,
    NAME,
    Symbol::Act(SourceAct::Connective(ConnectiveAct::AddBound)),
];

pub(super) static FORMULA_GROUP: [SourceSymbol; 3] = [
    Symbol::Open(SourceKind::Mark(Mark::LeftParen)),
    Symbol::Once(SourcePart::Formula),
    RIGHT_PAREN,
];

pub(super) static TRUE_PRIMARY: [SourceSymbol; 2] = [
    Symbol::Read(SourceKind::True),
    Symbol::Act(SourceAct::Atom(AtomAct::TrueFormula)),
];

pub(super) static FALSE_PRIMARY: [SourceSymbol; 2] = [
    Symbol::Read(SourceKind::False),
    Symbol::Act(SourceAct::Atom(AtomAct::FalseFormula)),
];

pub(super) static EMPTY_PRIMARY: [SourceSymbol; 5] = [
    Symbol::Read(SourceKind::Empty),
    LEFT_PAREN,
    NAME,
    Symbol::Act(SourceAct::Atom(AtomAct::MakeEmpty)),
    RIGHT_PAREN,
];

pub(super) static ROOT_PRIMARY: [SourceSymbol; 4] = [
    Symbol::Read(SourceKind::Root),
    Symbol::Act(SourceAct::Term(TermAct::StartRoot)),
    Symbol::Many(SourcePart::Successor),
    Symbol::Once(SourcePart::Relation),
];

pub(super) static NAME_PRIMARY: [SourceSymbol; 3] = [
    NAME,
    Symbol::Act(SourceAct::Term(TermAct::PushName)),
    Symbol::Once(SourcePart::NameRest),
];

pub(super) static USE_OF_NAME: [SourceSymbol; 4] = [
    LEFT_PAREN,
    Symbol::Maybe(SourcePart::Arguments),
    RIGHT_PAREN,
    Symbol::Act(SourceAct::Atom(AtomAct::MakeUse)),
];

pub(super) static TERM_OF_NAME: [SourceSymbol; 3] = [
    Symbol::Act(SourceAct::Term(TermAct::StartName)),
    Symbol::Many(SourcePart::Successor),
    Symbol::Once(SourcePart::Relation),
];

pub(super) static ARGUMENTS_IN_ORDER: [SourceSymbol; 3] = [
    Symbol::Once(SourcePart::Term),
    Symbol::Act(SourceAct::Term(TermAct::AddArgument)),
    Symbol::Many(SourcePart::NextArgument),
];

pub(super) static ARGUMENT_AFTER_COMMA: [SourceSymbol; 3] = [
    COMMA,
    Symbol::Once(SourcePart::Term),
    Symbol::Act(SourceAct::Term(TermAct::AddArgument)),
];

pub(super) static ROOT_TERM: [SourceSymbol; 3] = [
    Symbol::Read(SourceKind::Root),
    Symbol::Act(SourceAct::Term(TermAct::StartRoot)),
    Symbol::Many(SourcePart::Successor),
];

pub(super) static NAME_TERM: [SourceSymbol; 4] = [
    NAME,
    Symbol::Act(SourceAct::Term(TermAct::PushName)),
    Symbol::Act(SourceAct::Term(TermAct::StartName)),
    Symbol::Many(SourcePart::Successor),
];

pub(super) static SUCCESSOR_AFTER_DOT: [SourceSymbol; 2] = [
    Symbol::Read(SourceKind::Mark(Mark::Dot)),
    Symbol::Once(SourcePart::Child),
];

pub(super) static ZERO_CHILD: [SourceSymbol; 2] = [
    Symbol::Read(SourceKind::Zero),
    Symbol::Act(SourceAct::Term(TermAct::AddZero)),
];

pub(super) static ONE_CHILD: [SourceSymbol; 2] = [
    Symbol::Read(SourceKind::One),
    Symbol::Act(SourceAct::Term(TermAct::AddOne)),
];

pub(super) static SAME_TERM: [SourceSymbol; 3] = [
    Symbol::Read(SourceKind::Mark(Mark::Equals)),
    Symbol::Once(SourcePart::Term),
    Symbol::Act(SourceAct::Atom(AtomAct::MakeSame)),
];

pub(super) static DIFFERENT_TERM: [SourceSymbol; 3] = [
    Symbol::Read(SourceKind::Mark(Mark::NotEqual)),
    Symbol::Once(SourcePart::Term),
    Symbol::Act(SourceAct::Atom(AtomAct::MakeDiffer)),
];

pub(super) static MEMBER_OF_SET: [SourceSymbol; 3] = [
    Symbol::Read(SourceKind::In),
    NAME,
    Symbol::Act(SourceAct::Atom(AtomAct::MakeIn)),
];

pub(super) static NO_MEMBER_OF_SET: [SourceSymbol; 3] = [
    Symbol::Read(SourceKind::NotIn),
    NAME,
    Symbol::Act(SourceAct::Atom(AtomAct::MakeNotIn)),
];

pub(super) static WITHIN_SET: [SourceSymbol; 3] = [
    Symbol::Read(SourceKind::Sub),
    NAME,
    Symbol::Act(SourceAct::Atom(AtomAct::MakeSub)),
];
