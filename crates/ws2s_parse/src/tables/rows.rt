//! The row of each production.

ghost use Rattle.std.specs.Prelude.{◌≡◌};
ghost use Rattle.ws2s_parse.specs.Productions.{row_of};

use super::production::SourceProduction;
use super::symbols::SourceSymbol;
use super::{formulas, items};

/// The symbols of a row.
#[tactic(auto, unfolding(crate::specs::Productions::row_of, crate::specs::SourceGrammar::rows_of))]
pub(crate) fn row_of(production: SourceProduction) -> &'static [SourceSymbol]
    ensures { result.now ≡ row_of production }
{
    match production {
        SourceProduction::PositionsDeclared => &items::POSITIONS_DECLARED,
        SourceProduction::SetsDeclared => &items::SETS_DECLARED,
        SourceProduction::PredicateDeclared => &items::PREDICATE_DECLARED,
        SourceProduction::FormulaStated => &items::FORMULA_STATED,
        SourceProduction::VariablesInOrder => &items::VARIABLES_IN_ORDER,
        SourceProduction::VariableAfterComma => &items::VARIABLE_AFTER_COMMA,
        SourceProduction::ParametersInOrder => &items::PARAMETERS_IN_ORDER,
        SourceProduction::ParameterAfterComma => &items::PARAMETER_AFTER_COMMA,
        SourceProduction::PositionParameterDeclared => &items::POSITION_PARAMETER_DECLARED,
        SourceProduction::SetParameterDeclared => &items::SET_PARAMETER_DECLARED,
        SourceProduction::IffOfImplications => &formulas::IFF_OF_IMPLICATIONS,
        SourceProduction::ImplicationAfterIff => &formulas::IMPLICATION_AFTER_IFF,
        SourceProduction::ImplicationOfChain => &formulas::IMPLICATION_OF_CHAIN,
        SourceProduction::ImplicationAfterArrow => &formulas::IMPLICATION_AFTER_ARROW,
        SourceProduction::OrOfAndChains => &formulas::OR_OF_AND_CHAINS,
        SourceProduction::AndChainAfterBar => &formulas::AND_CHAIN_AFTER_BAR,
        SourceProduction::AndOfNegations => &formulas::AND_OF_NEGATIONS,
        SourceProduction::NegationAfterAmpersand => &formulas::NEGATION_AFTER_AMPERSAND,
        SourceProduction::NotFormula => &formulas::NOT_FORMULA,
        SourceProduction::Ex1Bound => &formulas::EX1_BOUND,
        SourceProduction::All1Bound => &formulas::ALL1_BOUND,
        SourceProduction::Ex2Bound => &formulas::EX2_BOUND,
        SourceProduction::All2Bound => &formulas::ALL2_BOUND,
        SourceProduction::PrimaryAlone => &formulas::PRIMARY_ALONE,
        SourceProduction::BoundWithBody => &formulas::BOUND_WITH_BODY,
        SourceProduction::BoundAfterComma => &formulas::BOUND_AFTER_COMMA,
        SourceProduction::FormulaGroup => &formulas::FORMULA_GROUP,
        SourceProduction::TruePrimary => &formulas::TRUE_PRIMARY,
        SourceProduction::FalsePrimary => &formulas::FALSE_PRIMARY,
        SourceProduction::EmptyPrimary => &formulas::EMPTY_PRIMARY,
        SourceProduction::RootPrimary => &formulas::ROOT_PRIMARY,
        SourceProduction::NamePrimary => &formulas::NAME_PRIMARY,
        SourceProduction::UseOfName => &formulas::USE_OF_NAME,
        SourceProduction::TermOfName => &formulas::TERM_OF_NAME,
        SourceProduction::ArgumentsInOrder => &formulas::ARGUMENTS_IN_ORDER,
        SourceProduction::ArgumentAfterComma => &formulas::ARGUMENT_AFTER_COMMA,
        SourceProduction::RootTerm => &formulas::ROOT_TERM,
        SourceProduction::NameTerm => &formulas::NAME_TERM,
        SourceProduction::SuccessorAfterDot => &formulas::SUCCESSOR_AFTER_DOT,
        SourceProduction::ZeroChild => &formulas::ZERO_CHILD,
        SourceProduction::OneChild => &formulas::ONE_CHILD,
        SourceProduction::SameTerm => &formulas::SAME_TERM,
        SourceProduction::DifferentTerm => &formulas::DIFFERENT_TERM,
        SourceProduction::MemberOfSet => &formulas::MEMBER_OF_SET,
        SourceProduction::NoMemberOfSet => &formulas::NO_MEMBER_OF_SET,
        SourceProduction::WithinSet => &formulas::WITHIN_SET,
    }
}
