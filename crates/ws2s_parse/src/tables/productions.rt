//! The rows of each part.

ghost use Rattle.std.specs.Prelude.{◌≡◌};
ghost use Rattle.ws2s_parse.specs.Productions.{productions_of};

use super::production::SourceProduction;
use crate::grammar::SourcePart;

/// The rows of a part.
#[tactic(auto, unfolding(crate::specs::Productions::productions_of))]
pub(crate) fn productions_of(part: SourcePart) -> &'static [SourceProduction]
    ensures { result.now ≡ productions_of part }
{
    match part {
        SourcePart::Item => &[
            SourceProduction::PositionsDeclared,
            SourceProduction::SetsDeclared,
            SourceProduction::PredicateDeclared,
            SourceProduction::FormulaStated,
        ],
        SourcePart::Variables => &[SourceProduction::VariablesInOrder],
        SourcePart::NextVariable => &[SourceProduction::VariableAfterComma],
        SourcePart::Parameters => &[SourceProduction::ParametersInOrder],
        SourcePart::NextParameter => &[SourceProduction::ParameterAfterComma],
        SourcePart::Parameter => &[
            SourceProduction::PositionParameterDeclared,
            SourceProduction::SetParameterDeclared,
        ],
        SourcePart::Formula => &[SourceProduction::IffOfImplications],
        SourcePart::NextImplication => &[SourceProduction::ImplicationAfterIff],
        SourcePart::Implication => &[SourceProduction::ImplicationOfChain],
        SourcePart::Implied => &[SourceProduction::ImplicationAfterArrow],
        SourcePart::OrChain => &[SourceProduction::OrOfAndChains],
        SourcePart::NextAndChain => &[SourceProduction::AndChainAfterBar],
        SourcePart::AndChain => &[SourceProduction::AndOfNegations],
        SourcePart::NextNegation => &[SourceProduction::NegationAfterAmpersand],
        SourcePart::Negation => &[
            SourceProduction::NotFormula,
            SourceProduction::Ex1Bound,
            SourceProduction::All1Bound,
            SourceProduction::Ex2Bound,
            SourceProduction::All2Bound,
            SourceProduction::PrimaryAlone,
        ],
        SourcePart::Bound => &[SourceProduction::BoundWithBody],
        SourcePart::NextBound => &[SourceProduction::BoundAfterComma],
        SourcePart::Primary => &[
            SourceProduction::FormulaGroup,
            SourceProduction::TruePrimary,
            SourceProduction::FalsePrimary,
            SourceProduction::EmptyPrimary,
            SourceProduction::RootPrimary,
            SourceProduction::NamePrimary,
        ],
        SourcePart::NameRest => &[SourceProduction::UseOfName, SourceProduction::TermOfName],
        SourcePart::Arguments => &[SourceProduction::ArgumentsInOrder],
        SourcePart::NextArgument => &[SourceProduction::ArgumentAfterComma],
        SourcePart::Term => &[SourceProduction::RootTerm, SourceProduction::NameTerm],
        SourcePart::Successor => &[SourceProduction::SuccessorAfterDot],
        SourcePart::Child => &[SourceProduction::ZeroChild, SourceProduction::OneChild],
        SourcePart::Relation => &[
            SourceProduction::SameTerm,
            SourceProduction::DifferentTerm,
            SourceProduction::MemberOfSet,
            SourceProduction::NoMemberOfSet,
            SourceProduction::WithinSet,
        ],
    }
}
