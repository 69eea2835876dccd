//! The FIRST sets: the tokens with which each row may begin.

ghost use Rattle.std.specs.Prelude.{◌≡◌};
ghost use Rattle.ws2s_parse.specs.ParseTable.{first_set};

use super::production::SourceProduction;
use crate::grammar::SourceKind;
use pale_text::Mark;

/// The FIRST set of a row.
#[tactic(auto, unfolding(crate::specs::ParseTable::first_set))]
pub(crate) fn first_set(production: SourceProduction) -> &'static [SourceKind]
    ensures { result.now ≡ first_set production }
{
    match production {
        SourceProduction::PositionsDeclared | SourceProduction::PositionParameterDeclared => &[
            SourceKind::Var1,
        ],
        SourceProduction::SetsDeclared | SourceProduction::SetParameterDeclared => &[
            SourceKind::Var2,
        ],
        SourceProduction::PredicateDeclared => &[SourceKind::Pred],
        SourceProduction::FormulaStated
        | SourceProduction::IffOfImplications
        | SourceProduction::ImplicationOfChain
        | SourceProduction::OrOfAndChains
        | SourceProduction::AndOfNegations => &[
            SourceKind::Mark(Mark::Tilde),
            SourceKind::Ex1,
            SourceKind::All1,
            SourceKind::Ex2,
            SourceKind::All2,
            SourceKind::Mark(Mark::LeftParen),
            SourceKind::True,
            SourceKind::False,
            SourceKind::Empty,
            SourceKind::Root,
            SourceKind::Name,
        ],
        SourceProduction::VariablesInOrder
        | SourceProduction::BoundWithBody
        | SourceProduction::NamePrimary
        | SourceProduction::NameTerm => &[SourceKind::Name],
        SourceProduction::VariableAfterComma
        | SourceProduction::ParameterAfterComma
        | SourceProduction::BoundAfterComma
        | SourceProduction::ArgumentAfterComma => &[SourceKind::Mark(Mark::Comma)],
        SourceProduction::ParametersInOrder => &[SourceKind::Var1, SourceKind::Var2],
        SourceProduction::ImplicationAfterIff => &[SourceKind::Mark(Mark::Equivalent)],
        SourceProduction::ImplicationAfterArrow => &[SourceKind::Mark(Mark::Implies)],
        SourceProduction::AndChainAfterBar => &[SourceKind::Mark(Mark::Bar)],
        SourceProduction::NegationAfterAmpersand => &[SourceKind::Mark(Mark::Ampersand)],
        SourceProduction::NotFormula => &[SourceKind::Mark(Mark::Tilde)],
        SourceProduction::Ex1Bound => &[SourceKind::Ex1],
        SourceProduction::All1Bound => &[SourceKind::All1],
        SourceProduction::Ex2Bound => &[SourceKind::Ex2],
        SourceProduction::All2Bound => &[SourceKind::All2],
        SourceProduction::PrimaryAlone => &[
            SourceKind::Mark(Mark::LeftParen),
            SourceKind::True,
            SourceKind::False,
            SourceKind::Empty,
            SourceKind::Root,
            SourceKind::Name,
        ],
        SourceProduction::FormulaGroup | SourceProduction::UseOfName => &[SourceKind::Mark(
            Mark::LeftParen,
        )],
        SourceProduction::TruePrimary => &[SourceKind::True],
        SourceProduction::FalsePrimary => &[SourceKind::False],
        SourceProduction::EmptyPrimary => &[SourceKind::Empty],
        SourceProduction::RootPrimary | SourceProduction::RootTerm => &[SourceKind::Root],
        SourceProduction::TermOfName => &[
            SourceKind::Mark(Mark::Dot),
            SourceKind::Mark(Mark::Equals),
            SourceKind::Mark(Mark::NotEqual),
            SourceKind::In,
            SourceKind::NotIn,
            SourceKind::Sub,
        ],
        SourceProduction::ArgumentsInOrder => &[SourceKind::Root, SourceKind::Name],
        SourceProduction::SuccessorAfterDot => &[SourceKind::Mark(Mark::Dot)],
        SourceProduction::ZeroChild => &[SourceKind::Zero],
        SourceProduction::OneChild => &[SourceKind::One],
        SourceProduction::SameTerm => &[SourceKind::Mark(Mark::Equals)],
        SourceProduction::DifferentTerm => &[SourceKind::Mark(Mark::NotEqual)],
        SourceProduction::MemberOfSet => &[SourceKind::In],
        SourceProduction::NoMemberOfSet => &[SourceKind::NotIn],
        SourceProduction::WithinSet => &[SourceKind::Sub],
    }
}
