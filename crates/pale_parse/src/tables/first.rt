//! The FIRST sets: the tokens with which each row may begin.

ghost use Rattle.std.specs.Prelude.{◌≡◌};
ghost use Rattle.pale_parse.specs.ParseTable.{first_set};

use super::production::ProgramProduction;
use pale_syntax::ProgramKind;
use pale_text::Mark;

/// The FIRST set of a row.
#[tactic(auto, unfolding(crate::specs::ParseTable::first_set))]
pub(crate) fn first_set(production: ProgramProduction) -> &'static [ProgramKind]
    ensures { result.now ≡ first_set production }
{
    match production {
        ProgramProduction::ATypeDeclaration | ProgramProduction::TypeDeclared => &[
            ProgramKind::Type,
        ],
        ProgramProduction::APredicateDeclaration | ProgramProduction::PredicateDeclared => &[
            ProgramKind::Pred,
        ],
        ProgramProduction::AProcedureDeclaration | ProgramProduction::ProcedureDeclared => &[
            ProgramKind::Proc,
        ],
        ProgramProduction::VariantDeclared | ProgramProduction::AndChainAfterBar => &[
            ProgramKind::Mark(Mark::Bar),
        ],
        ProgramProduction::BoolFieldDeclared
        | ProgramProduction::BoolDeclared
        | ProgramProduction::LogicBoolDeclared
        | ProgramProduction::BoolVariableDeclared => &[ProgramKind::Bool],
        ProgramProduction::DataFieldDeclared | ProgramProduction::DataDeclared => &[
            ProgramKind::Data,
        ],
        ProgramProduction::PointerFieldDeclared | ProgramProduction::PointerDeclared => &[
            ProgramKind::Pointer,
        ],
        ProgramProduction::RouteOfSequences
        | ProgramProduction::SequenceOfRepeated
        | ProgramProduction::StepWithStars => &[
            ProgramKind::Name,
            ProgramKind::Mark(Mark::Caret),
            ProgramKind::Mark(Mark::Dollar),
            ProgramKind::Root,
            ProgramKind::Mark(Mark::At),
            ProgramKind::Mark(Mark::Question),
            ProgramKind::Mark(Mark::Bang),
            ProgramKind::Mark(Mark::LeftParen),
        ],
        ProgramProduction::AlternativeAfterPlus => &[ProgramKind::Mark(Mark::Plus)],
        ProgramProduction::RepeatedAfterDot
        | ProgramProduction::NameAfterDot
        | ProgramProduction::LongerPath
        | ProgramProduction::PathAloneAfterDot => &[ProgramKind::Mark(Mark::Dot)],
        ProgramProduction::OneStar => &[ProgramKind::Mark(Mark::Star)],
        ProgramProduction::StepDown
        | ProgramProduction::UpByName
        | ProgramProduction::CellDeclared
        | ProgramProduction::Assign
        | ProgramProduction::ANameArgument
        | ProgramProduction::PathAsTerm
        | ProgramProduction::PathOfSteps
        | ProgramProduction::NamePrimary
        | ProgramProduction::UsedPathsInOrder => &[ProgramKind::Name],
        ProgramProduction::StepUp => &[ProgramKind::Mark(Mark::Caret)],
        ProgramProduction::LeafTest => &[ProgramKind::Mark(Mark::Dollar)],
        ProgramProduction::RootTest => &[ProgramKind::Root],
        ProgramProduction::TypeTest => &[ProgramKind::Mark(Mark::At)],
        ProgramProduction::TrueTest => &[ProgramKind::Mark(Mark::Question)],
        ProgramProduction::FalseTest | ProgramProduction::NotLiteral => &[ProgramKind::Mark(
            Mark::Bang,
        )],
        ProgramProduction::RouteGroup
        | ProgramProduction::CallWithoutResults
        | ProgramProduction::ConditionGroup
        | ProgramProduction::AssertionGroup
        | ProgramProduction::UseOfName => &[ProgramKind::Mark(Mark::LeftParen)],
        ProgramProduction::TestedVariant
        | ProgramProduction::VariantOfNew
        | ProgramProduction::VariantLiteral
        | ProgramProduction::OfThisVariant => &[ProgramKind::Mark(Mark::Colon)],
        ProgramProduction::PredicateParametersInOrder => &[
            ProgramKind::Name,
            ProgramKind::Set,
            ProgramKind::Bool,
        ],
        ProgramProduction::PredicateParameterAfterComma
        | ProgramProduction::LogicParameterAfterComma
        | ProgramProduction::ParameterAfterComma
        | ProgramProduction::ResultAfterComma
        | ProgramProduction::ArgumentAfterComma
        | ProgramProduction::BoundAfterComma
        | ProgramProduction::UsedPathAfterComma => &[ProgramKind::Mark(Mark::Comma)],
        ProgramProduction::SetDeclared
        | ProgramProduction::LogicSetDeclared
        | ProgramProduction::OverSets => &[ProgramKind::Set],
        ProgramProduction::AssertionInBrackets => &[ProgramKind::Mark(Mark::LeftBracket)],
        ProgramProduction::ResultsDeclared => &[ProgramKind::Returns],
        ProgramProduction::LogicDeclared => &[ProgramKind::Logic],
        ProgramProduction::PreDeclared => &[ProgramKind::Pre],
        ProgramProduction::PostDeclared => &[ProgramKind::Post],
        ProgramProduction::ParametersInOrder | ProgramProduction::LocalDeclared => &[
            ProgramKind::Data,
            ProgramKind::Pointer,
            ProgramKind::Bool,
        ],
        ProgramProduction::BlockOfStatements => &[ProgramKind::Mark(Mark::LeftBrace)],
        ProgramProduction::Skip => &[ProgramKind::Skip],
        ProgramProduction::If => &[ProgramKind::If],
        ProgramProduction::While => &[ProgramKind::While],
        ProgramProduction::Split => &[ProgramKind::Split],
        ProgramProduction::Assert => &[ProgramKind::Assert],
        ProgramProduction::Free => &[ProgramKind::Free],
        ProgramProduction::Call => &[ProgramKind::Call],
        ProgramProduction::ElseBlock => &[ProgramKind::Else],
        ProgramProduction::CallWithResults => &[
            ProgramKind::Mark(Mark::Comma),
            ProgramKind::Mark(Mark::Equals),
        ],
        ProgramProduction::ArgumentsOfBothKinds => &[
            ProgramKind::Name,
            ProgramKind::Null,
            ProgramKind::True,
            ProgramKind::False,
            ProgramKind::Mark(Mark::Semicolon),
            ProgramKind::Mark(Mark::RightParen),
        ],
        ProgramProduction::ArgumentsInOrder => &[
            ProgramKind::Name,
            ProgramKind::Null,
            ProgramKind::True,
            ProgramKind::False,
        ],
        ProgramProduction::LogicArgumentsInOrder => &[ProgramKind::Mark(Mark::Semicolon)],
        ProgramProduction::ANullArgument
        | ProgramProduction::NullTerm
        | ProgramProduction::NullPrimary => &[ProgramKind::Null],
        ProgramProduction::ATrueArgument
        | ProgramProduction::TrueLiteral
        | ProgramProduction::TruePrimary => &[ProgramKind::True],
        ProgramProduction::AFalseArgument
        | ProgramProduction::FalseLiteral
        | ProgramProduction::FalsePrimary => &[ProgramKind::False],
        ProgramProduction::Kept => &[ProgramKind::Keep],
        ProgramProduction::NewCell => &[ProgramKind::New],
        ProgramProduction::ConditionValue
        | ProgramProduction::ConditionOfConjunctions
        | ProgramProduction::ConjunctionOfLiterals => &[
            ProgramKind::Mark(Mark::Bang),
            ProgramKind::Mark(Mark::LeftParen),
            ProgramKind::True,
            ProgramKind::False,
            ProgramKind::Null,
            ProgramKind::Name,
        ],
        ProgramProduction::ConjunctionAfterOr => &[ProgramKind::Mark(Mark::OrElse)],
        ProgramProduction::LiteralAfterAnd => &[ProgramKind::Mark(Mark::AndAlso)],
        ProgramProduction::TermLiteral => &[ProgramKind::Null, ProgramKind::Name],
        ProgramProduction::SameLiteral => &[ProgramKind::Mark(Mark::SameAs)],
        ProgramProduction::NotSameLiteral => &[ProgramKind::Mark(Mark::NotSame)],
        ProgramProduction::IffOfImplications
        | ProgramProduction::ImplicationOfChain
        | ProgramProduction::OrOfAndChains
        | ProgramProduction::AndOfNegations => &[
            ProgramKind::Mark(Mark::Tilde),
            ProgramKind::Ex,
            ProgramKind::All,
            ProgramKind::Mark(Mark::LeftParen),
            ProgramKind::True,
            ProgramKind::False,
            ProgramKind::Null,
            ProgramKind::Name,
        ],
        ProgramProduction::ImplicationAfterIff => &[ProgramKind::Mark(Mark::Equivalent)],
        ProgramProduction::ImplicationAfterArrow => &[ProgramKind::Mark(Mark::Implies)],
        ProgramProduction::NegationAfterAmpersand => &[ProgramKind::Mark(Mark::Ampersand)],
        ProgramProduction::NotAssertion => &[ProgramKind::Mark(Mark::Tilde)],
        ProgramProduction::ExQuantified => &[ProgramKind::Ex],
        ProgramProduction::AllQuantified => &[ProgramKind::All],
        ProgramProduction::PrimaryAlone => &[
            ProgramKind::Mark(Mark::LeftParen),
            ProgramKind::True,
            ProgramKind::False,
            ProgramKind::Null,
            ProgramKind::Name,
        ],
        ProgramProduction::BoundWithBody => &[ProgramKind::Set, ProgramKind::Name],
        ProgramProduction::RelationOfName | ProgramProduction::RelationOfPath => &[
            ProgramKind::Mark(Mark::Equals),
            ProgramKind::Mark(Mark::NotEqual),
            ProgramKind::In,
            ProgramKind::Sub,
            ProgramKind::Mark(Mark::Less),
            ProgramKind::Mark(Mark::Colon),
        ],
        ProgramProduction::SameTerm => &[ProgramKind::Mark(Mark::Equals)],
        ProgramProduction::DifferentTerm => &[ProgramKind::Mark(Mark::NotEqual)],
        ProgramProduction::MemberOfSet => &[ProgramKind::In],
        ProgramProduction::SubsetOfSet => &[ProgramKind::Sub],
        ProgramProduction::WalkToTerm => &[ProgramKind::Mark(Mark::Less)],
    }
}
